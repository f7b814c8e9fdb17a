use text_types::{Memory, Text};

/// Why an answer isn't written.
#[derive(Debug, Drop)]
pub enum WriteError {
    /// Memory ran out, and then nothing is known of the answer.
    Memory,
    /// The first place that doesn't fit: `data`, and each response key and index behind a dot.
    Shape { path: Text },
}

impl From<Memory> for WriteError {
    ghost use Rattle.std.specs.Prelude.{◌≡◌};
    ghost use Rattle.result_writer.specs.declared.error.WriteError.TheVariants as error;

    ghost from_gives = { λ _ result. result ≡ error.Memory };

    fn from(_: Memory) -> WriteError {
        WriteError::Memory
    }
}
