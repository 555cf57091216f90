//! Laws of the numbers of kinds.
ghost use Rattle.ecma_kinds.specs.KindNumbers.{KindsAreToldApart};

/// Different kinds have different numbers.
pub fn kinds_are_told_apart()
    ensures { KindsAreToldApart }
{}
