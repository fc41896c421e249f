//! The errors that a module would have with another text.
ghost use Rattle.std.specs.Prelude.{◌≡◌, IfOk};
ghost use Rattle.std.specs.List.{AllByRecursion};
ghost use Rattle.flow_base.specs.Program.{IsRising};
ghost use Rattle.check_values.specs.Roots.{paths_of};
ghost use Rattle.analyst.specs.Work.{Works};
ghost use Rattle.asks.specs.declared.ask.Ask.TheVariants as the_ask;
ghost use Rattle.heap_answers.specs.States.{HasPlace, program_in, Answers};
ghost use Rattle.request_core.specs.CheckedBy.{AreFoundInstead};
ghost use Rattle.request_core.specs.Works.{checking_text, WorksOnText};

use crate::jobs::job_instead;
use crate::laws::{counted, numbered};
use crate::rows::{place_in, root_of};
use analyst::Analyst;
use asks::{Answer, AskFault};
use check_values::{Errs, Root};
use error_places::locate_errors;
use flow_base::{Path, Text};
use flow_values::NoMemory;
use heap_answers::payloads::Payload;
use heap_answers::program_check::one_full;
use heap_core::HeapReader;
use reach_law::key_law;
use std::alloc::Global;

// The errors of the module at a path, were this its text.
#[tactic(auto, using(crate::proofs::Amounts::front_failed, crate::proofs::Amounts::job_failed, crate::proofs::Amounts::check_failed, crate::proofs::Amounts::both_done))]
fn errors_instead<R: HeapReader<Payload>, A: Analyst>(
    alloc: Global,
    reader: &mut R,
    analyst: &mut A,
    root: &Root,
    path: &Path,
    text: &Text,
) -> Result<Errs, NoMemory>
    requires rising { IsRising (paths_of root.now) }
    requires placed { AllByRecursion (HasPlace (R.state reader.old)) root.now.modules }
    ensures errors { IfOk result (λ errs. AreFoundInstead (R.state reader.old) root.now.modules path.now text.now errs.faults) }
    ensures work { Works result checking_text (A.work analyst.old) (A.work analyst.new) }
    ensures same { (R.at reader.new ≡ R.at reader.old) × (R.state reader.new ≡ R.state reader.old) }
    ensures part { R.part reader.new ≡ R.part reader.old }
{
    counted(&*analyst);
    let parse = analyst.front(text)?;
    let job = job_instead(alloc, reader, root, path, text, parse)?;
    let errs = analyst.check(&job)?;
    Ok(errs)
}

/// The errors that a module would have with this text, the other modules as they are.
///
/// # Errors
///
/// `UnknownPath` where the path is no module's, and `NoMemory` where memory is refused.
#[tactic(auto, using(crate::proofs::Amounts::nothing_done, crate::proofs::Amounts::answer_failed))]
pub(crate) fn check_contents<R: HeapReader<Payload>, A: Analyst>(
    alloc: Global,
    reader: &mut R,
    analyst: &mut A,
    path: &Path,
    text: &Text,
) -> Result<Answer, AskFault>
    ensures answer { Answers (program_in (R.state reader.old)) (the_ask.CheckContents path.now text.now) result }
    ensures work { WorksOnText result (A.work analyst.old) (A.work analyst.new) }
    ensures same { (R.at reader.new ≡ R.at reader.old) × (R.state reader.new ≡ R.state reader.old) }
    ensures part { R.part reader.new ≡ R.part reader.old }
{
    one_full();
    key_law();
    counted(&*analyst);
    numbered(&*reader);
    let root = reader.root()?;
    let root = root_of(&root);
    let Some(_) = place_in(root.modules.as_slice(), path) else {
        return Err(AskFault::UnknownPath);
    };
    let errs = errors_instead(alloc, reader, analyst, root, path, text)?;
    let errors = locate_errors(alloc, path, text.as_bytes(), errs.faults.as_slice())?;
    Ok(Answer::Faults(errors))
}
