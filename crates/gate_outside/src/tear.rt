ghost use Rattle.std.specs.Prelude.{◌≡◌, map, reverse, IfOk, OnOk};
ghost use Rattle.gate_outside.specs.Log.{torn_write, torn_cut, torn, event_of, image_after};

use crate::change::{Change, bytes_at, overwrite, redo};
use std::alloc::Global;
use text_types::Memory;

/// What a crash does to each change that isn't synced.
#[derive(Clone, Copy, Debug, Drop)]
pub enum Tear {
    /// Nothing of it is done.
    Nothing,
    /// All of it is done.
    Whole,
    /// The range of a write is full of this byte. The file has its new length, after a cut too.
    Filled(u8),
    /// The same, but that the file keeps its old length.
    FilledWithin(u8),
}

/// The file that a crash behind the changes leaves, where it does the same to each that isn't synced.
pub fn torn_image(
    alloc: Global,
    first: &[u8],
    bytes: &[u8],
    changes: &[Change],
    tear: Tear,
) -> Result<Vec<u8>, Memory>
    ensures { IfOk result (λ image. image.items ≡ image_after tear first.now (reverse (map (event_of bytes.now) changes.now))) }
{
    let mut whole = first.to_vec(alloc)?;
    let mut image = first.to_vec(alloc)?;
    'changes: for change in changes {
        redo(change, bytes, &mut whole)?;
        tear_change(alloc, tear, change, bytes, &whole, &mut image)?;
    }
    Ok(image)
}

/// Does to `image` what is left of a change, where the file as it reads behind it is `whole`.
fn tear_change(
    alloc: Global,
    tear: Tear,
    change: &Change,
    bytes: &[u8],
    whole: &[u8],
    image: &mut Vec<u8>,
) -> Result<(), Memory>
    ensures { OnOk result (image.new.items ≡ torn tear (event_of bytes.now change.now) whole.now image.old.items) }
{
    match change {
        Change::Wrote { at, from, len } => {
            if image.len() < *at {
                return Ok(());
            }
            tear_write(alloc, tear, *at, bytes_at(bytes, *from, *len), image)
        }
        Change::CutTo { len } => {
            tear_cut(tear, *len, image);
            Ok(())
        }
        Change::Synced => {
            *image = whole.to_vec(alloc)?;
            Ok(())
        }
    }
}

fn tear_write(
    alloc: Global,
    tear: Tear,
    at: usize,
    bytes: &[u8],
    image: &mut Vec<u8>,
) -> Result<(), Memory>
    ensures { OnOk result (image.new.items ≡ torn_write tear at bytes.now image.old.items) }
{
    match tear {
        Tear::Nothing => Ok(()),
        Tear::Whole => overwrite(image, at, bytes),
        Tear::Filled(byte) => overwrite(image, at, &vec![in alloc; byte; bytes.len()]?),
        Tear::FilledWithin(byte) => {
            let len = image.len();
            overwrite(image, at, &vec![in alloc; byte; bytes.len()]?)?;
            image.truncate(len);
            Ok(())
        }
    }
}

fn tear_cut(tear: Tear, len: usize, image: &mut Vec<u8>)
    ensures { image.new.items ≡ torn_cut tear len image.old.items }
{
    match tear {
        Tear::Nothing | Tear::FilledWithin(_) => {}
        Tear::Whole | Tear::Filled(_) => image.truncate(len),
    }
}
