//! What bytes are, what is read from them, and what claims that hold say of the case.
ghost use Rattle.obs_cert.specs.Completing.{ChosenAreCheapest, ShortfallsRefute};
ghost use Rattle.obs_cert.specs.inner.Laws.{CertificateIsRead, FaultWhereNoCertificate, FirstFaultIsMet, FormsArePlain, LinesHaveForms};
ghost use Rattle.obs_cert.specs.Truths.{BoundsAreNotObservable, NoFlawWhereAllHold, TreesAreObservable};

/// Bytes are a line exactly where they are words of its form with one tab between each two. No word
/// has a control byte, so no tab either.
pub fn lines_have_forms()
    ensures exactly { LinesHaveForms }
    ensures plain { FormsArePlain }
{}

/// The claims that are read are those whose lines, one claim after the other and then the line
/// `end`, the bytes are; and a fault is met exactly where there are no such claims.
pub fn certificate_is_read()
    ensures claims { CertificateIsRead }
    ensures fault { FaultWhereNoCertificate }
{}

/// The fault that is met is the first one: a certificate may begin with the lines before the faulty
/// one, and this stands after the line `end`, or has no form, or no certificate goes on with it.
/// Where no line is faulty, the line `end` is missing.
pub fn first_fault_is_met()
    ensures first { FirstFaultIsMet }
{}

/// No flaw is found exactly where each claim holds.
pub fn no_flaw_where_all_hold()
    ensures holds { NoFlawWhereAllHold }
{}

/// A tree claim that holds names an energised component of the case, and this is observable.
pub fn trees_are_observable()
    ensures observable { TreesAreObservable }
{}

/// A bound claim that holds names an energised component of the case, and this isn't observable.
pub fn bounds_are_not_observable()
    ensures short { BoundsAreNotObservable }
{}

/// The candidates that a cost claim that holds chooses are a cheapest set that completes the meters of the case, and
/// they cost what the claim says.
pub fn chosen_are_cheapest()
    ensures cheapest { ChosenAreCheapest }
{}

/// Where a shortfall claim holds, no candidates complete the meters of the case.
pub fn shortfalls_refute()
    ensures refuted { ShortfallsRefute }
{}
