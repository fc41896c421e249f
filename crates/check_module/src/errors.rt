//! The errors of a module.
ghost use Rattle.std.specs.Prelude.{◌≡◌, ◌∷◌, [], OnOk, IfOk};
ghost use Rattle.js_grammar.specs.Items as g;
ghost use Rattle.js_tree.specs.View.{items_view, module_view};
ghost use Rattle.module_errors.specs.Program.{Program};
ghost use Rattle.module_errors.specs.Items.{read_items};
ghost use Rattle.module_errors.specs.Errors.{broken_errors};
ghost use Rattle.errors_by_reach.specs.Law.{whole};
ghost use Rattle.check_values.specs.Rows.{row_at};
ghost use Rattle.check_job.specs.Jobs.{fault_code, fault_place, HasErrorsBeside, AreErrorsOf};
ghost use Rattle.check_module.specs.View.{checker_world, checker_env, IsFor, StaysOf};

use crate::checker::Checker;
use check_job::CheckJob;
use check_values::{Code, Errs, Fault};
use fault_sets::in_order;
use flow_values::{List, NoMemory, Span, Text};
use js_tree::Module;
use source_front::{ParseTree, SourceFault};
use std::alloc::Global;

// The one error of a source that has no tree.
fn broken_fault(alloc: Global, fault: &SourceFault) -> Result<Fault, NoMemory>
    ensures { IfOk result (λ f. f ∷ [] ≡ broken_errors (fault_code fault.now) (fault_place fault.now)) }
{
    let (code, at) = match fault {
        SourceFault::NotUtf8 => (Code::NotUtf8, 0),
        SourceFault::BadToken { at } => (Code::BadToken, *at),
        SourceFault::SourceTooLong { len: _ } => (Code::SourceTooLong, 0),
        SourceFault::Parse { at } => (Code::Parse, *at),
    };
    Ok(Fault {
        span: Span { start: at, end: at },
        code,
        details: Text::from_bytes(alloc, b"")?,
    })
}

/// Reads all items of a module.
///
/// # Errors
///
/// `NoMemory` where memory is refused. The checker may only be dropped then.
pub(crate) fn read_all(checker: &mut Checker<'_>, module: &Module) -> Result<(), NoMemory>
    ensures env { (p : Program) (m : g.Module) → IsFor checker.old p m → OnOk result (checker_env checker.new ≡ read_items (checker_world checker.old) p m (items_view «module».now.items) (checker_env checker.old)) }
    ensures stays { StaysOf checker.old checker.new }
{
    let items = module.items.as_slice();
    for i in 0..items.len() {
        checker.read_item(&items[i])?;
    }
    Ok(())
}

// The errors of a source with a tree, by the faults of its signature.
#[tactic(auto, using(crate::proofs::Reading::errors_told))]
fn tree_errors(
    alloc: Global,
    job: &CheckJob,
    module: &Module,
    spans: &[Span],
    first: &[Fault],
) -> Result<List<Fault>, NoMemory>
    ensures { IfOk result (HasErrorsBeside first.now job.now.path job.now.deps (whole (module_view «module».now) spans.now) (row_at job.now.sigs.rows)) }
{
    let mut checker = Checker::named(alloc, job, module, spans, None)?;
    read_all(&mut checker, module)?;
    let own = checker.faults();
    let faults = in_order(alloc, first, own)?;
    Ok(faults)
}

/// The errors of a module: of a source without a tree the one fault; else the set of the faults that
/// came with its tree, of its names and exports, and of all its items, in order.
///
/// # Errors
///
/// `NoMemory` where memory is refused.
#[tactic(auto, using(crate::proofs::JobSources::whole_errors, crate::proofs::JobSources::broken_told))]
pub fn check_module(alloc: Global, job: &CheckJob) -> Result<Errs, NoMemory>
    ensures { IfOk result (λ errs. AreErrorsOf job.now errs.faults) }
{
    let parse = job.parse.get();
    match &parse.tree {
        ParseTree::Broken(fault) => {
            let fault = broken_fault(alloc, fault)?;
            let mut faults = List::new(alloc);
            faults.push(fault)?;
            Ok(Errs { faults })
        }
        ParseTree::Tree { module, spans } => {
            let first = parse.faults.as_slice();
            let faults = tree_errors(alloc, job, module, spans.as_slice(), first)?;
            Ok(Errs { faults })
        }
    }
}
