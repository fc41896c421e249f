//! Laws, as the contracts of calls that do nothing.
ghost use Rattle.std.specs.Prelude.{◌≡◌, ◌<◌, ◌^◌, ℕ, List, false, map};
ghost use Rattle.recheck_reach.specs.analyst.specs.Work.{IsCounted};
ghost use Rattle.heap_core.specs.Meaning.{IsSound};
ghost use Rattle.heap_core.specs.Meaning.{Meaning, opened, after_commit};
ghost use Rattle.heap_core.specs.Transactions.{Committed, all_staged};
ghost use Rattle.recheck_checking.specs.payloads.specs.State.{fits};
ghost use Rattle.recheck_reach.specs.Law.{RestIsSame, CheckedAreOfChecked, UnmovedAreChanged, ParsedAreFresh, DiffersAreTouched, SeenAsChecked, SignedAsChecked};
ghost use Rattle.recheck_checking.specs.Checking.{AllAreChecked};
ghost use Rattle.recheck_checking.specs.Full.{MadeIsFull};
ghost use Rattle.recheck_checking.specs.Right.{KeptErrorsAreRight};
ghost use Rattle.recheck_reach.specs.work_totals.specs.Totals.{total};

use heap_core::HeapWriter;
use recheck_checking::payloads::Payload;
use recheck_reach::analyst::Analyst;
use stops::Stop;

/// The counts of all analysts together stay within their type.
pub(crate) fn counted<A: Analyst>(analysts: &[A])
    ensures { IsCounted (total (map A.work analysts.now)) }
{
    recheck_reach::work_totals::totals_rise();
}

/// What holds of a heap at all times.
pub(crate) fn sound<W: HeapWriter<Payload>>(writer: &W)
    ensures { IsSound fits (W.meaning writer.now) }
{}

/// The counts of one who is asked stay within their type.
pub(crate) fn bounded<S: Stop>(stop: &S)
    ensures { ((S.seen stop.now).questions < 2 ^ 64) × ((S.seen stop.now).yes_answers < 2 ^ 64) }
{}

/// What is kept and what is checked.
pub(crate) fn reach_laws()
    ensures rest { RestIsSame }
    ensures checked { CheckedAreOfChecked }
    ensures unmoved { UnmovedAreChanged }
    ensures fresh { ParsedAreFresh }
    ensures touched { DiffersAreTouched }
    ensures seen { SeenAsChecked }
    ensures signed { SignedAsChecked }
{
    recheck_reach::rest_is_same();
    recheck_reach::checked_are_of_checked();
    recheck_reach::unmoved_are_changed();
    recheck_reach::parsed_are_fresh();
    recheck_reach::differs_are_touched();
    recheck_reach::checks_are_of_sources();
}

/// The errors of all modules, and full checks.
pub(crate) fn error_laws()
    ensures all { AllAreChecked }
    ensures full { MadeIsFull }
    ensures kept { KeptErrorsAreRight }
{
    recheck_checking::all_are_checked();
    recheck_checking::made_is_full();
    recheck_checking::kept_errors_are_right();
}

/// A commit changes the entities that were staged since `begin`, and no others.
pub(crate) fn commits()
    ensures { (m : Meaning Payload) (changes : List (ℕ × Payload)) → IsSound fits m → m.is_open ≡ false → Committed changes m (after_commit (all_staged changes (opened m))) }
{
    let payload = Payload::Absent;
    heap_core::laws::commit_changes_the_staged(&payload);
}
