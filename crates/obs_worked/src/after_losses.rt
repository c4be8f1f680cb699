// What is left after losses.
ghost use Rattle.obs_worked.specs.inner.Studies.{ClassesArePrinted, OutagesArePrinted, OutagesOfRowOfFour, StationsArePrinted};

/// What becomes of a case where a branch trips.
pub fn outages()
    ensures printed { OutagesArePrinted }
    ensures row { OutagesOfRowOfFour }
{}

/// The meters that are critical together.
pub fn classes()
    ensures printed { ClassesArePrinted }
{}

/// What is left where a station's link fails.
pub fn stations()
    ensures printed { StationsArePrinted }
{}
