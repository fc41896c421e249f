//! Modules from their sources.
ghost use Rattle.check_job.specs.Jobs.{source_of, IsWhole};

use check_job::CheckJob;
use check_job::signature_table::SignatureTable;
use check_module::{Checker, check_module, type_at_pos};
use check_values::{Deps, Fault};
use code_tree::Declaration;
use fault_sets::in_order;
use flow_values::{List, NoMemory, Path, Shared, Text};
use js_tree::{Item, ItemForm};
use source_front::{Parse, ParseTree};
use source_reading::front;
use std::alloc::Global;
use type_terms::show;
use type_values::FlowType;

/// The type of the last item's value, as it is printed, and the faults of the module, in order.
#[derive(Drop)]
pub(crate) struct Answer {
    pub ty: Text,
    pub faults: List<Fault>,
}

fn parsed(alloc: Global, source: &[u8]) -> Result<Shared<Parse>, NoMemory> {
    let parse = front(alloc, source)?;
    Shared::new(alloc, parse)
}

fn no_deps(alloc: Global) -> Result<Shared<Deps>, NoMemory> {
    let deps = Deps {
        rows: List::new(alloc),
    };
    Shared::new(alloc, deps)
}

fn no_signatures(alloc: Global) -> Result<Shared<SignatureTable>, NoMemory> {
    let table = SignatureTable::build(alloc, List::new(alloc))?;
    Shared::new(alloc, table)
}

fn path(alloc: Global) -> Result<Path, NoMemory> {
    match Path::read(alloc, b"a.js") {
        Ok(path) => Ok(path),
        Err(_) => Err(NoMemory),
    }
}

// A module by itself.
fn job_of(alloc: Global, source: &[u8]) -> Result<CheckJob, NoMemory> {
    let path = path(alloc)?;
    let text = Text::from_bytes(alloc, source)?;
    let deps = no_deps(alloc)?;
    let parse = parsed(alloc, source)?;
    Ok(CheckJob {
        path,
        text,
        parse,
        deps,
        sigs: no_signatures(alloc)?,
    })
}

// The type of a declaration's value, against its annotation.
fn value_type(checker: &mut Checker<'_>, declaration: &Declaration) -> Result<FlowType, NoMemory> {
    match checker.annotation(&declaration.annotation)? {
        Some(want) => checker.check_against(&declaration.value, &want),
        None => checker.type_of(&declaration.value),
    }
}

// The type of an item's value, where the item is a declaration.
fn read_value(
    alloc: Global,
    checker: &mut Checker<'_>,
    item: &Item,
) -> Result<Option<Text>, NoMemory> {
    let ItemForm::Declaration(declaration) = &item.form else {
        return Ok(None);
    };
    let ty = value_type(checker, declaration)?;
    Ok(Some(show(alloc, &ty)?))
}

// The type of the last item's value, behind the items before it.
fn read_items(
    alloc: Global,
    checker: &mut Checker<'_>,
    items: &[Item],
) -> Result<Option<Text>, NoMemory> {
    let Some((last, before)) = items.split_last() else {
        return Ok(None);
    };
    for item in before {
        checker.read_item(item)?;
    }
    read_value(alloc, checker, last)
}

fn read_answer(
    alloc: Global,
    checker: &mut Checker<'_>,
    items: &[Item],
) -> Result<Option<Answer>, NoMemory> {
    let Some(ty) = read_items(alloc, checker, items)? else {
        return Ok(None);
    };
    let faults = in_order(alloc, &[], checker.faults())?;
    Ok(Some(Answer { ty, faults }))
}

// Reads the items of a job, whose parse has a tree.
fn read_tree(alloc: Global, job: &CheckJob, items: &[Item]) -> Result<Option<Answer>, NoMemory>
    requires { IsWhole (source_of job.now) }
{
    let mut checker = Checker::open(alloc, job)?;
    read_answer(alloc, &mut checker, items)
}

#[tactic(auto, using(crate::proofs::Whole::is_whole))]
fn read_job(alloc: Global, job: &CheckJob) -> Result<Option<Answer>, NoMemory> {
    let ParseTree::Tree { module, spans: _ } = &job.parse.get().tree else {
        return Ok(None);
    };
    read_tree(alloc, job, module.items.as_slice())
}

/// Reads a module, whose last item is a declaration.
///
/// # Errors
///
/// `NoMemory` where memory is refused.
pub(crate) fn read_last(alloc: Global, source: &[u8]) -> Result<Option<Answer>, NoMemory> {
    let job = job_of(alloc, source)?;
    read_job(alloc, &job)
}

fn job_type_at(alloc: Global, job: &CheckJob, column: u64) -> Result<Option<Text>, NoMemory> {
    match type_at_pos(alloc, job, 1, column)? {
        Some(ty) => Ok(Some(show(alloc, &ty)?)),
        None => Ok(None),
    }
}

/// The type at a column of a module's first line, as it is printed.
///
/// # Errors
///
/// `NoMemory` where memory is refused.
pub(crate) fn type_at(alloc: Global, source: &[u8], column: u64) -> Result<Option<Text>, NoMemory> {
    let job = job_of(alloc, source)?;
    job_type_at(alloc, &job, column)
}

fn count_errors(alloc: Global, job: &CheckJob) -> Result<usize, NoMemory> {
    let errors = check_module(alloc, job)?;
    Ok(errors.faults.len())
}

/// The number of a module's errors.
///
/// # Errors
///
/// `NoMemory` where memory is refused.
pub(crate) fn errors(alloc: Global, source: &[u8]) -> Result<usize, NoMemory> {
    let job = job_of(alloc, source)?;
    count_errors(alloc, &job)
}
