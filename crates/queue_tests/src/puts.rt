//! One mutation put into a keeper, whatever keeps it.
ghost use Rattle.std.specs.Prelude.{OnOk, IfOk};
ghost use Rattle.queue_model.specs.Queue.{IsHeld};

use offline_queue::{Keeper, PutError};
use std::alloc::Global;
use text_types::Text;

/// The texts of two mutations, of 44 and 45 bytes.
pub const DONE: &str = r#"mutation{setDone(id:"1" done:true){id done}}"#;

pub const NOT_DONE: &str = r#"mutation{setDone(id:"1" done:false){id done}}"#;

/// Puts a mutation. With the first text its row takes 68 bytes.
pub fn put_once<K: Keeper>(alloc: Global, keeper: &mut K, document: &str) -> Result<u64, PutError>
    requires { K.intact keeper.old }
    ensures held { IfOk result (λ seq. IsHeld seq (K.queue keeper.new).rows) }
    ensures intact { OnOk result (K.intact keeper.new) }
{
    let document = Text::from_str(alloc, document)?;
    let variables = Text::from_str(alloc, "{}")?;
    keeper.put(&document, &Text::new(alloc), &variables)
}
