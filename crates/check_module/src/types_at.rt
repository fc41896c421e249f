//! The type at a place of a module.
ghost use Rattle.std.specs.Prelude.{◌≡◌, ℕ, List, None, IfOk};
ghost use Rattle.std.specs.Option.{option_copied};
ghost use Rattle.flow_values.specs.declared.span.Span.{Span};
ghost use Rattle.js_grammar.specs.Items as g;
ghost use Rattle.js_tree.specs.View.{module_view};
ghost use Rattle.check_values.specs.Rows.{row_at};
ghost use Rattle.check_values.specs.declared.codes.Code.{Code};
ghost use Rattle.errors_by_reach.specs.Law.{whole, broken, IsTypeAt};
ghost use Rattle.check_job.specs.Jobs.{source_of};
ghost use Rattle.check_module.specs.Positions.{IsTypeAtPos};

use crate::checker::Checker;
use crate::errors::read_all;
use byte_places::byte_place;
use check_job::CheckJob;
use flow_values::{NoMemory, Span};
use js_tree::Module;
use reach_law::cut_is_right;
use source_front::ParseTree;
use std::alloc::Global;
use type_values::FlowType;

// A type that was seen, if one was.
fn shared(seen: Option<&FlowType>) -> Result<Option<FlowType>, NoMemory>
    ensures { IfOk result (λ t. t ≡ option_copied seen.entry) }
{
    match seen {
        Some(t) => Ok(Some(t.share()?)),
        None => Ok(None),
    }
}

// The type at a byte place of a source with a tree.
fn tree_type_at(
    alloc: Global,
    job: &CheckJob,
    module: &Module,
    spans: &[Span],
    at: u32,
) -> Result<Option<FlowType>, NoMemory>
    ensures { IfOk result (λ t. IsTypeAt job.now.path job.now.deps (module_view «module».now) spans.now (row_at job.now.sigs.rows) at t) }
{
    cut_is_right();
    let mut checker = Checker::named(alloc, job, module, spans, Some(at))?;
    read_all(&mut checker, module)?;
    let seen = checker.watched();
    let t = shared(seen)?;
    Ok(t)
}

/// The type at a byte place of a module: that of the innermost expression that is read and covers it,
/// and `None` where there is none; a source without a tree has none.
///
/// # Errors
///
/// `NoMemory` where memory is refused.
#[tactic(auto, using(crate::proofs::JobSources::whole_type, crate::proofs::JobSources::not_broken, crate::proofs::JobSources::not_whole))]
pub fn type_at(alloc: Global, job: &CheckJob, at: u32) -> Result<Option<FlowType>, NoMemory>
    ensures whole { IfOk result (λ t. (m : g.Module) (spans : List Span) → source_of job.now ≡ whole m spans → IsTypeAt job.now.path job.now.deps m spans (row_at job.now.sigs.rows) at t) }
    ensures broken { IfOk result (λ t. (code : Code) (place : ℕ) → source_of job.now ≡ broken code place → t ≡ None) }
{
    let parse = job.parse.get();
    match &parse.tree {
        ParseTree::Broken(_) => Ok(None),
        ParseTree::Tree { module, spans } => {
            let t = tree_type_at(alloc, job, module, spans.as_slice(), at)?;
            Ok(t)
        }
    }
}

/// The type at a line and a column of a module's text, both from 1: that of the innermost expression
/// that is read and covers the character there. A line ends after LF alone, and columns count
/// characters. It is `None` where no such expression or no such character is; a source without a tree
/// has none.
///
/// # Errors
///
/// `NoMemory` where memory is refused, or the character begins behind 2^32 bytes or more.
#[tactic(auto, using(crate::proofs::Placing::at_byte, crate::proofs::Placing::at_nowhere))]
pub fn type_at_pos(
    alloc: Global,
    job: &CheckJob,
    line: u64,
    column: u64,
) -> Result<Option<FlowType>, NoMemory>
    ensures whole { IfOk result (λ t. (m : g.Module) (spans : List Span) → source_of job.now ≡ whole m spans → IsTypeAtPos job.now.path job.now.deps m spans (row_at job.now.sigs.rows) job.now.text line column t) }
    ensures broken { IfOk result (λ t. (code : Code) (place : ℕ) → source_of job.now ≡ broken code place → t ≡ None) }
{
    let Some(place) = byte_place(job.text.as_bytes(), line, column) else {
        return Ok(None);
    };
    let Ok(at) = u32::try_from(place) else {
        return Err(NoMemory);
    };
    let t = type_at(alloc, job, at)?;
    Ok(t)
}
