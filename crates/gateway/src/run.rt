//! The run over the input: its bytes are taken in pieces, and every whole line among them is run
//! before more are taken.

ghost use Rattle.std.specs.Prelude.{◌≡◌, ◌+◌, ◌≤◌, ◌^◌, ℕ, true, take, OnOk, IsErrOf};
ghost use Rattle.std.specs.Io.KnownBytes.{IsAtEnd};
ghost use Rattle.fault_causes.specs.Causes.{Rose};
ghost use Rattle.gate_machine.specs.Runs.{run_text};
ghost use Rattle.gateway.specs.Lines.{whole_lines_text, first_lines_text, full_text};
ghost use Rattle.gateway.specs.Run.{Ran, RanFront};

use crate::lines::Lines;
use crate::stop::{LineStop, Stop};
use gate_outside::{Sink, Source};
use judged_dispatch::Service;
use std::alloc::Global;

/// Reads the input to its end, or to one byte past the limit, and writes what its lines write by the
/// service. No line's number is more than one above the bytes before it, so the limit keeps it within a
/// `u64`.
pub(crate) fn run_lines<I: Source, O: Sink>(
    alloc: Global,
    service: Service,
    limit: usize,
    input: &mut I,
    out: &mut O,
) -> Result<(), Stop>
    requires { limit ≤ 2 ^ 40 }
    ensures finished { OnOk result
        (Ran I.left I.given input.old input.new O.held out.old out.new (run_text service)) }
    ensures ended { OnOk result ((I.ended input.new ≡ true) × IsAtEnd (I.left input.new)) }
    ensures within { OnOk result (I.given input.new ≤ I.given input.old + limit) }
    ensures source { IsErrOf result Stop.Source →
        Rose (I.faults input.old) (I.faults input.new)
        × Ran I.left I.given input.old input.new O.held out.old out.new (whole_lines_text service) }
    ensures past_limit { IsErrOf result Stop.Limit →
        (I.given input.new ≡ I.given input.old + (limit + 1))
        × Ran I.left I.given input.old input.new O.held out.old out.new
        (λ bytes. whole_lines_text service (take limit bytes)) }
    ensures sink { IsErrOf result (Stop.Line LineStop.Sink) →
        Rose (O.faults out.old) (O.faults out.new) }
    ensures memory { IsErrOf result (Stop.Line LineStop.Memory) →
        (count : ℕ)
        × Ran I.left I.given input.old input.new O.held out.old out.new (first_lines_text service limit count) }
    ensures front { RanFront I.left I.given input.old input.new O.held out.old out.new (full_text service limit) }
    ensures later { O.faults out.old ≤ O.faults out.new }
    ensures at_most { I.given input.new ≤ I.given input.old + (limit + 1) }
{
    let mut lines = Lines::new(alloc, service);
    let mut buffer = [0; 4096];
    let mut taken = 0;
    'reads: loop {
        let room = buffer.len().min(limit - taken + 1);
        let chunk = &mut buffer[..room];
        let Ok(count) = input.read(chunk) else {
            return Err(Stop::Source);
        };
        if count == 0 {
            lines.finish(out)?;
            return Ok(());
        }
        let within = count.min(limit - taken);
        lines.take(&chunk[..within], out)?;
        if within < count {
            return Err(Stop::Limit);
        }
        taken += count;
    }
}
