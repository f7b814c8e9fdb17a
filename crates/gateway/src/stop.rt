//! Why a run stops.

use text_types::Memory;

/// Why a line stopped the run.
#[derive(Debug, Drop)]
pub(crate) enum LineStop {
    /// The sink failed.
    Sink,
    /// Out of memory.
    Memory,
}

impl From<Memory> for LineStop {
    ghost use Rattle.std.specs.Prelude.{◌≡◌};
    ghost use Rattle.gateway.specs.declared.stop.LineStop.TheVariants as line_stop;

    ghost from_gives = { λ _ stop. stop ≡ line_stop.Memory };

    fn from(_: Memory) -> LineStop {
        LineStop::Memory
    }
}

/// Why a run stopped before the end of its input.
#[derive(Debug, Drop)]
pub(crate) enum Stop {
    /// The source failed.
    Source,
    /// The input goes past its limit.
    Limit,
    /// A line stopped it.
    Line(LineStop),
}

impl From<LineStop> for Stop {
    ghost use Rattle.std.specs.Prelude.{◌≡◌};
    ghost use Rattle.gateway.specs.declared.stop.Stop.TheVariants as stop;

    ghost from_gives = { λ line stopped. stopped ≡ stop.Line line };

    fn from(line: LineStop) -> Stop {
        Stop::Line(line)
    }
}
