//! Laws on what bytes come to.

ghost use Rattle.fetch_link.specs.Laws.{IsAskedForGood, IsAskedOnce, IsClosedOnce, IsDecodedForGood, IsDecodedOnce};

/// The same bytes come to one thing alone.
pub fn decoded_once()
    ensures { IsDecodedOnce }
{}

/// The same bytes, with the close behind them, come to one thing alone, so that what
/// [`crate::Fetch::ended`] answers can't depend on how they were cut.
pub fn closed_once()
    ensures { IsClosedOnce }
{}

/// An outcome stays under further bytes. With [`decoded_once`], the outcome that
/// [`crate::Fetch::poll`] answers is the one that all bytes come to, however they were cut.
pub fn decoded_for_good()
    ensures { IsDecodedForGood }
{}

/// The same bytes ask one thing alone.
pub fn asked_once()
    ensures { IsAskedOnce }
{}

/// What is asked, or refused, stays under further bytes. With [`asked_once`], what
/// [`crate::Request::poll`] answers is what all bytes ask, however they were cut.
pub fn asked_for_good()
    ensures { IsAskedForGood }
{}
