ghost use Rattle.std.specs.Prelude.{ℕ, List, Option, Bool};
ghost use Rattle.std.specs.Io.{ReadsAtMost};
ghost use Rattle.std.specs.Io.KnownBytes.{ReadConsumes};
ghost use Rattle.fault_causes.specs.Causes.{HasCause};
ghost use Rattle.gate_outside.specs.Source.{CountsGiven, MarksEnd};

/// A call on the outside failed.
#[derive(Clone, Copy, Debug, Drop, PartialEq, Eq)]
pub struct Failed;

/// Where bytes come from.
pub trait Source {
    /// The bytes that are left, where the source tells them.
    ghost left: { Self → Option (List ℕ) };

    /// How often it has failed.
    ghost faults: { Self → ℕ };

    /// How many bytes it has given.
    ghost given: { Self → ℕ };

    /// Whether it has given its end.
    ghost ended: { Self → Bool };

    /// Gives the next bytes, none of them only at the end or for an empty `buf`. A call that fails
    /// gives none.
    fn read(&mut self, buf: &mut [u8]) -> Result<usize, Failed>
        ensures bound { ReadsAtMost result buf.new }
        ensures bytes { ReadConsumes (left self.old) (left self.new) result buf.new }
        ensures cause { HasCause (faults self.old) (faults self.new) result }
        ensures counted { CountsGiven (given self.old) (given self.new) result }
        ensures ended { MarksEnd (ended self.old) (ended self.new) result buf.new };
}
