ghost use Rattle.std.specs.Prelude.{◌≡◌, IfOk};
ghost use Rattle.updater_rules.specs.declared.error.RuleError.TheVariants as refusal;

use text_types::{Memory, Text};

/// Why a text gives no rules.
#[derive(Debug, Drop)]
pub enum RuleError {
    /// Memory ran out, and then nothing is known of the text.
    Memory,
    /// The first table that is refused, and the least code that it breaks, which is the number in U1 to U8.
    /// The name is `keys.T`, `updater 1` or `optimistic 1`, and empty where no table by itself is at fault.
    Refused { code: u8, name: Text },
}

impl From<Memory> for RuleError {
    ghost from_gives = { λ _ error. error ≡ refusal.Memory };

    fn from(_: Memory) -> RuleError {
        RuleError::Memory
    }
}
