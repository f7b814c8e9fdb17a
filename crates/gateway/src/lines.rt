//! The lines of the input: each is run once it has ended, and its text is written at once.

ghost use Rattle.std.specs.Prelude.{◌≡◌, ◌+◌, ◌<◌, ◌≤◌, ◌^◌, length, OnOk, IsErrOf};
ghost use Rattle.std.specs.Io.KnownBytes.{Appends};
ghost use Rattle.fault_causes.specs.Causes.{Rose};
ghost use Rattle.gate_machine.specs.Runs.{line_run};
ghost use Rattle.gateway.specs.Progress.{start, grown_by, line_here, next_line, text_after, progress_after};
ghost use Rattle.gateway.specs.Run.{WritesFront, WroteSome};

use crate::split::{is_blank, split_line};
use crate::stop::LineStop;
use exchange_line::Gate;
use gate_outside::{Sink, write_all};
use judged_dispatch::Service;
use std::alloc::Global;
use std::marker::Model;
use text_types::Bytes;

/// The gate, and the line that is being read: its number and its bytes so far.
#[derive(Drop)]
pub(crate) struct Lines {
    gate: Gate,
    number: u64,
    rest: Bytes,
    /// The text of the last line that was run, whose memory the next one uses again.
    text: Bytes,
}

impl Model for Lines {
    ghost use Rattle.gateway.specs.Progress.{Progress};
    ghost use Rattle.std.specs.Coded.{codes};
    ghost use Rattle.exchange_line.specs.contracts.gate.Gate as inner;

    ghost Value = { Progress };

    ghost coded = { Prim.hlevel (codes, inner.the_row.coded) };

    ghost view = { λ lines. record { number = lines.number; rest = lines.rest; state = lines.gate } };
}

impl Lines {
    pub(crate) fn new(alloc: Global, service: Service) -> Lines
        ensures { result ≡ start service }
    {
        Lines {
            gate: Gate::new(alloc, service),
            number: 1,
            rest: Bytes::new(alloc),
            text: Bytes::new(alloc),
        }
    }

    /// Takes the next bytes of the input, and runs each line that ends among them. A line that lies
    /// whole among them is run where it lies. After an error this is only to be dropped.
    pub(crate) fn take<O: Sink>(&mut self, bytes: &[u8], out: &mut O) -> Result<(), LineStop>
        requires { self.old.number + length bytes.now < 2 ^ 64 }
        ensures text { OnOk result
            (Appends (O.held out.old) (O.held out.new) (text_after self.old bytes.now)) }
        ensures progress { OnOk result (self.new ≡ progress_after self.old bytes.now) }
        ensures sink { IsErrOf result LineStop.Sink →
            Rose (O.faults out.old) (O.faults out.new)
            × WritesFront (O.held out.old) (O.held out.new) (text_after self.old bytes.now) }
        ensures memory { IsErrOf result LineStop.Memory →
            WroteSome (O.held out.old) (O.held out.new) (text_after self.old) bytes.now }
        ensures later { O.faults out.old ≤ O.faults out.new }
    {
        let mut left = bytes;
        'lines: while let Some((front, behind)) = split_line(left) {
            self.end_line(front, out)?;
            left = behind;
        }
        self.rest.append(left)?;
        Ok(())
    }

    /// Ends the line with these bytes, and begins the next.
    fn end_line<O: Sink>(&mut self, ending: &[u8], out: &mut O) -> Result<(), LineStop>
        requires { self.old.number + 1 < 2 ^ 64 }
        ensures text { OnOk result
            (Appends (O.held out.old) (O.held out.new) (line_here (grown_by self.old ending.now)).text) }
        ensures progress { OnOk result (self.new ≡ next_line (grown_by self.old ending.now)) }
        ensures sink { IsErrOf result LineStop.Sink →
            Rose (O.faults out.old) (O.faults out.new)
            × WritesFront (O.held out.old) (O.held out.new) (line_here (grown_by self.old ending.now)).text }
        ensures memory { IsErrOf result LineStop.Memory → out.new ≡ out.old }
        ensures later { O.faults out.old ≤ O.faults out.new }
    {
        if self.rest.len() == 0 {
            run_line(&mut self.gate, self.number, ending, &mut self.text, out)?;
        } else {
            self.rest.append(ending)?;
            let whole = self.rest.as_slice();
            run_line(&mut self.gate, self.number, whole, &mut self.text, out)?;
            self.rest.clear();
        }
        self.number += 1;
        Ok(())
    }

    /// Runs the last line, which no line feed ends. Where there is none, it is blank.
    pub(crate) fn finish<O: Sink>(&mut self, out: &mut O) -> Result<(), LineStop>
        ensures text { OnOk result
            (Appends (O.held out.old) (O.held out.new) (line_here self.old).text) }
        ensures sink { IsErrOf result LineStop.Sink →
            Rose (O.faults out.old) (O.faults out.new)
            × WritesFront (O.held out.old) (O.held out.new) (line_here self.old).text }
        ensures memory { IsErrOf result LineStop.Memory → out.new ≡ out.old }
        ensures later { O.faults out.old ≤ O.faults out.new }
    {
        let line = self.rest.as_slice();
        run_line(&mut self.gate, self.number, line, &mut self.text, out)
    }
}

/// Runs a line, and writes its text. A blank one does nothing.
fn run_line<O: Sink>(
    gate: &mut Gate,
    number: u64,
    line: &[u8],
    text: &mut Bytes,
    out: &mut O,
) -> Result<(), LineStop>
    ensures text { OnOk result
        (Appends (O.held out.old) (O.held out.new) (line_run number line.now gate.old).text) }
    ensures state { OnOk result (gate.new ≡ (line_run number line.now gate.old).state) }
    ensures sink { IsErrOf result LineStop.Sink →
        Rose (O.faults out.old) (O.faults out.new)
        × WritesFront (O.held out.old) (O.held out.new) (line_run number line.now gate.old).text }
    ensures memory { IsErrOf result LineStop.Memory → out.new ≡ out.old }
    ensures later { O.faults out.old ≤ O.faults out.new }
{
    if is_blank(line) {
        return Ok(());
    }
    text.clear();
    let alloc = text.allocator();
    gate.take_line(alloc, number, line, text)?;
    match write_all(out, text.as_slice()) {
        Ok(()) => Ok(()),
        Err(_) => Err(LineStop::Sink),
    }
}
