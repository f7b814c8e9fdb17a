//! That the test on walks agrees with the walks. The function does nothing.

ghost use Rattle.digraph.specs.Laws.{WalksAreDecided};

/// A node reaches another by the test exactly where a walk leads there.
pub fn walks_are_decided()
    ensures { WalksAreDecided }
{}
