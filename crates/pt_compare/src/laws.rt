//! A law on what is found. It is the contract of a function that does nothing.
ghost use Rattle.pt_compare.specs.CompareLaws.{StandingObjectIsTheSame};

/// Of an object that stands just as it is sought nothing is found but that it does: no finding says
/// that it is absent or differs.
pub fn standing_object_is_the_same()
    ensures { StandingObjectIsTheSame }
{}
