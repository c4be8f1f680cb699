// What is answered to certificates.
ghost use Rattle.obs_worked.specs.inner.Certificates.{ClaimsHold, EndIsMissing, HasCycle, HasUnknownName, HasWrongLength, HasWrongOutside, IsNoComponent, IsNotBelow, IsNotInside, IsNotTouched, PlansAreChecked, StandsTwice};

/// Claims that hold.
pub fn valid()
    ensures claims { ClaimsHold }
{}

/// The flaws of trees and bounds, by their codes.
pub fn flaws()
    ensures unknown_name { HasUnknownName }
    ensures not_component { IsNoComponent }
    ensures not_inside { IsNotInside }
    ensures not_touched { IsNotTouched }
    ensures twice { StandsTwice }
    ensures cycle { HasCycle }
    ensures wrong_length { HasWrongLength }
    ensures not_below { IsNotBelow }
{}

/// The flaws of plans.
pub fn plans()
    ensures checked { PlansAreChecked }
    ensures outside { HasWrongOutside }
{}

/// A certificate that is cut off.
pub fn faults()
    ensures no_end { EndIsMissing }
{}
