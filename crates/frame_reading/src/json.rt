ghost use Rattle.std.specs.Prelude.{◌≡◌, IfOk, option_map};
ghost use Rattle.serde_json.specs.View.{view};
ghost use Rattle.frame_reading.specs.Frames.{json_of};

use serde_json::Value as Json;
use std::alloc::Global;
use text_types::Memory;

/// The JSON that a line is, where it is JSON.
pub fn read_json(alloc: Global, line: &[u8]) -> Result<Option<Json>, Memory>
    ensures { IfOk result (λ json. option_map view json ≡ json_of line.now) }
{
    match Json::from_slice(alloc, line) {
        Ok(json) => Ok(Some(json)),
        Err(error) => if error.is_memory() {
            Err(Memory)
        } else {
            Ok(None)
        },
    }
}
