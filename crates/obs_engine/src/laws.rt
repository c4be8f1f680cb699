// The laws of what is stated: of cases and the lines of a report. Those of words, and of the cases that files are, are
// of obs_files.
ghost use Rattle.std.specs.Prelude.{◌≡◌, ◌↔◌, ◌+◌, ◌<◌, ◌≤◌, ◌==◌, ℕ, Bool, true, List, length, filter, Ok, codes};
ghost use Rattle.obs_case.specs.Tables.{IsValid, Tables};
ghost use Rattle.obs_matroid.specs.Lists.{In, IsRising};
ghost use Rattle.obs_matroid.specs.Assignments.{Pair};
ghost use Rattle.obs_meter.specs.Assignments.{IsAssignmentAt, IsRhoAt};
ghost use Rattle.obs_exchange.specs.Critical.{IsCriticalAt};
ghost use Rattle.obs_network.specs.Network.{case_branches, case_component_count, case_meters, case_need, case_needed};
ghost use Rattle.obs_network.specs.Observable.{IsObservable, IsObservableCase, branch_component, case_live_meters, case_rank, is_energised_component};
ghost use Rattle.obs_cert.specs.Claims.{Claim};
ghost use Rattle.obs_cert.specs.Read.{claims_of};
ghost use Rattle.obs_engine.specs.Verify.{AllHold, verify_reply};
ghost use Rattle.obs_files.specs.declared.status.Status.TheVariants.{Done, Short};
ghost use Rattle.obs_engine.specs.Lines.{lines_case};
ghost use Rattle.obs_repair.specs.declared.edit.Edit.{Edit};
ghost use Rattle.obs_repair.specs.Edits.{edited};
ghost use Rattle.obs_report.specs.Counts.{verdict_word};
ghost use Rattle.obs_engine.specs.Asks.{report_status};
ghost use Rattle.obs_engine.specs.Stays.{AnswersAsRun, RefusesAsRun};
ghost use Rattle.obs_engine.specs.inner.Stays.{CanBeSaidAgain};
ghost use Rattle.obs_engine.specs.OutageReply.{outages_status};
ghost use Rattle.obs_engine.specs.StationReply.{stations_status};
ghost use Rattle.obs_engine.specs.Trials.{dip_meters, dips_of};
ghost use Rattle.obs_engine.specs.Claimed.{AnswersAreVerified, AnswersFit, AnswersHold};
ghost use Rattle.obs_engine.specs.Laws.{BearsLosses, BearsOutages, ListsNonCritical, PairsFailTogether};
ghost use Rattle.obs_engine.specs.inner.Laws.{EditsAloneChange, EndedOrLast, IsAnswerTo, IslandsAreCounted, OrderIsForgotten, ReportsAsTheCommand};
ghost use Rattle.obs_repair.specs.Bounds.{bound_meters, bound_outside, bound_rank, case_critical_meters, component_meters, short_components};

pub use obs_files::laws::{cases_are_valid, forms_of_words};

/// A valid case stays valid over edits. So the present case of a session is valid after any of its lines, and the other
/// laws hold of it.
pub fn edits_keep_cases_valid()
    ensures edit { (t : Tables) (edit : Edit) → IsValid t → IsValid (edited t edit) }
    ensures lines { (offered : Bool) (t : Tables) (lines : List (List ℕ))
        → IsValid t → IsValid (lines_case offered t lines) }
{}

/// The printed rank is the greatest length that an assignment of the live meters has.
pub fn rank_is_greatest()
    ensures greatest { (t : Tables) → IsValid t
        → IsRhoAt (case_branches t) (case_meters t) (case_live_meters t) (case_rank t) }
{}

/// A report has the good status exactly where the case is observable, and else the one that says that it falls short.
pub fn status_is_observability()
    ensures done { (t : Tables) → IsValid t → (report_status t ≡ Done) ↔ IsObservableCase t }
    ensures short { (t : Tables) → IsValid t → (report_status t ≡ Short) ↔ (IsObservableCase t → ⊥) }
{}

/// A certificate has the good status exactly where it is claims that all hold of the case, and the one that says that
/// something falls short exactly where it is claims that don't all hold.
pub fn status_is_validity()
    ensures done { (t : Tables) (bytes : List ℕ) → ((verify_reply t bytes).status ≡ Done)
        ↔ ((claims : List Claim) × (claims_of bytes ≡ Ok claims) × AllHold t claims) }
    ensures short { (t : Tables) (bytes : List ℕ) → ((verify_reply t bytes).status ≡ Short)
        ↔ ((claims : List Claim) × (claims_of bytes ≡ Ok claims) × (AllHold t claims → ⊥)) }
{}

/// The answers to `tree`, `bound`, `cert` and `place` are certificates that hold: each is read back as the claims that
/// it makes, a tree or a bound for a component, or the placement, and the checker finds no flaw in them.
pub fn answers_hold()
    ensures hold { AnswersHold }
{}

/// With any limits, each of these answers to a case of no more rows is no longer than a file may be. So it can be kept
/// as the certificate of its case: where the files of a session are a case, `verify` of the same files and of an answer
/// to that case says how many claims it has.
pub fn answers_are_verified()
    ensures fit { AnswersFit }
    ensures verified { AnswersAreVerified }
{}

/// The printed verdict is the word `observable` exactly where the case is observable, and else the word `short`.
pub fn verdict_is_observability()
    ensures observable { (t : Tables) → IsValid t →
        (verdict_word (case_rank t) (case_needed t) ≡ codes "observable") ↔ IsObservableCase t }
    ensures short { (t : Tables) → IsValid t →
        (verdict_word (case_rank t) (case_needed t) ≡ codes "short") ↔ (IsObservableCase t → ⊥) }
{}

/// A report has a bound for exactly those energised components that aren't observable, in their order.
pub fn short_components_are_unobservable()
    ensures exactly { (t : Tables) → IsValid t → (c : ℕ) →
        In c (short_components t)
        ↔ ((c < case_component_count t) × (is_energised_component t c ≡ true) × (IsObservable t c → ⊥)) }
    ensures rising { (t : Tables) → IsRising (short_components t) }
{}

/// The two numbers of a bound add up to less than the component needs: to the greatest length that an assignment of its
/// meters has. No assignment of the case has more pairs in the component.
pub fn bounds_refute()
    ensures below { (t : Tables) → IsValid t → (c : ℕ) → In c (short_components t) →
        bound_rank t c + bound_outside t c < case_need t c }
    ensures greatest { (t : Tables) → IsValid t → (c : ℕ) →
        IsRhoAt (case_branches t) (case_meters t) (component_meters t c) (bound_rank t c + bound_outside t c) }
    ensures most { (t : Tables) → IsValid t → (c : ℕ) (A : List Pair) →
        IsAssignmentAt (case_branches t) (case_meters t) (case_live_meters t) A →
        length (filter (λ p. branch_component t p.1 == c) A) ≤ bound_rank t c + bound_outside t c }
{}

/// The bound of a component lists exactly those of its live meters that aren't critical, in the order of the tables. A
/// listed meter can be lost, and the rank of the case stays.
pub fn bounds_list_the_meters_that_are_not_critical()
    ensures lists { ListsNonCritical }
    ensures rising { (t : Tables) (c : ℕ) → IsRising (bound_meters t c) }
{}

/// A report has a critical line for exactly those live meters whose loss lowers the rank, in the order of the tables.
pub fn critical_lines_are_exact()
    ensures exactly { (t : Tables) → IsValid t → (m : ℕ) →
        In m (case_critical_meters t) ↔ IsCriticalAt (case_branches t) (case_meters t) (case_live_meters t) m }
    ensures rising { (t : Tables) → IsRising (case_critical_meters t) }
{}

/// Of a session's lines an edit alone changes the present case, and sets one flag. An ask, a refused line and one that
/// is passed change nothing.
pub fn edits_alone_change()
    ensures change { (offered : Bool) (t : Tables) (line : List ℕ) → EditsAloneChange offered t line }
{}

/// Each answer is that of the present case: of an edit the rank and the needed number of the case after it, of an ask
/// its text, and of the line `report` what the command prints of that case.
pub fn answers_are_of_the_present_case()
    ensures answers { (offered : Bool) (t : Tables) (line : List ℕ) → IsAnswerTo offered t line }
    ensures report { ReportsAsTheCommand }
{}

/// Edits in another order that lead to the same present case leave no trace: all further lines get the same answers.
pub fn the_order_of_edits_is_forgotten()
    ensures forgotten { OrderIsForgotten }
{}

/// The lines of an input are those that end within it, and a last one where bytes are left.
pub fn lines_end_or_are_last()
    ensures lines { (bytes : List ℕ) → EndedOrLast bytes }
{}

/// A session that stays between calls answers what `run_within` answers with the same limits: the replies to its lines,
/// as one, are the reply to the same words and files and the input of these lines, as far as these are lines of an
/// input: without a line feed or a carriage return at the end, and together no more bytes than an input may have. Where
/// none begins, `run_within` has the same reply.
pub fn sessions_answer_as_run()
    ensures answers { AnswersAsRun }
    ensures refuses { RefusesAsRun }
{}

/// A line that is said again changes nothing more, and has the same reply.
pub fn lines_can_be_said_again()
    ensures again { CanBeSaidAgain }
{}

/// The dips of a trial are exactly the critical meters of its case.
pub fn dips_are_critical_meters()
    ensures meters { (t : Tables) → dip_meters t ≡ case_critical_meters t }
    ensures number { (t : Tables) → dips_of t ≡ length (case_critical_meters t) }
{}

/// The number of islands of a trial: each island with an energised bus is counted once, by the bus that names it.
pub fn islands_are_counted_once()
    ensures counted { IslandsAreCounted }
{}

/// The status of outages is the good one exactly where the case and each of its outage cases are observable, and else
/// the one that says that something falls short.
pub fn status_of_outages()
    ensures done { (t : Tables) → IsValid t → (outages_status t ≡ Done) ↔ BearsOutages t }
    ensures short { (t : Tables) → IsValid t → (outages_status t ≡ Short) ↔ (BearsOutages t → ⊥) }
{}

/// Two different live meters that aren't critical are printed in one class exactly where the rank falls without both.
pub fn pairs_fail_together()
    ensures together { PairsFailTogether }
{}

/// The status of stations is the good one exactly where the case is observable and is after the loss of any station's
/// meters, and else the one that says that something falls short.
pub fn status_of_stations()
    ensures done { (t : Tables) → IsValid t → (stations_status t ≡ Done) ↔ BearsLosses t }
    ensures short { (t : Tables) → IsValid t → (stations_status t ≡ Short) ↔ (BearsLosses t → ⊥) }
{}
