ghost use Rattle.std.specs.Prelude.{ℕ};

/// A command with a weight, by which the run of a queue of commands ends.
pub trait Weighed {
    /// 1, and the weight of the commands that it carries.
    ghost weight: { Self → ℕ };
}
