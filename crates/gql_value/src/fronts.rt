ghost use Rattle.std.specs.Prelude.{◌≡◌, take};

use std::mem;
use text_types::Bytes;

/// Leaves only the first bytes, this many.
pub(crate) fn cut_back(out: &mut Bytes, kept: usize)
    ensures { out.new ≡ take kept out.old }
{
    let empty = Bytes::new(out.allocator());
    let mut bytes = mem::replace(out, empty).into_vec();
    bytes.truncate(kept);
    *out = Bytes::from_vec(bytes);
}
