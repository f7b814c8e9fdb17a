//! A law of the definitions, which the layers above cite. The function does nothing.

ghost use Rattle.partial_reader.specs.Laws.{ReadsLocally};

/// A reading depends on the cells that it looks at alone.
pub fn readings_are_local()
    ensures { ReadsLocally }
{}
