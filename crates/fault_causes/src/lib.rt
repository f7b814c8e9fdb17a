//! The words by which contracts say why a call on the outside failed. It has definitions alone, and
//! stands on nothing but the standard library.
//!
//! Whatever can fail for a cause outside the program keeps a count of its faults. The count never
//! falls, and a call answers a failure only where it rose in that call. Code that is generic over
//! such an outside can't raise the count by itself, so it can't make up a failure. `HasCause` says
//! this of a call whose every error is a failure, `HasCauseOf` of one error among several.
#![tactic(auto)]
