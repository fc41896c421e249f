//! What a module is checked by, read from the heap.
ghost use Rattle.std.specs.Prelude.{◌≡◌, IfOk, Some};
ghost use Rattle.std.specs.List.{AllByRecursion};
ghost use Rattle.flow_base.specs.Program.{IsRising};
ghost use Rattle.check_values.specs.Roots.{paths_of, paths_of_rows};
ghost use Rattle.heap_answers.specs.program_check.specs.Full.{deps_in};
ghost use Rattle.place_analyst.specs.source_front.specs.Front.{IsParse};
ghost use Rattle.heap_answers.specs.States.{HasPlace};
ghost use Rattle.request_core.specs.States.{IsRead, parse_at, deps_at};
ghost use Rattle.request_core.specs.CheckedBy.{IsJobOf, IsJobInstead};

use crate::reaching::reached_table;
use crate::rows::{deps_in, parse_in};
use check_values::{Deps, Root, RootRow};
use flow_base::{Path, Text};
use flow_values::{List, NoMemory, Shared};
use heap_answers::payloads::{Payload, deps_entity, parse_entity};
use heap_core::HeapReader;
use module_deps::deps_of;
use place_analyst::check_job::CheckJob;
use place_analyst::source_front::{Parse, ParseTree};
use std::alloc::Global;

// What a module's source says by itself.
fn parse_of<R: HeapReader<Payload>>(
    reader: &mut R,
    module: &RootRow,
) -> Result<Shared<Parse>, NoMemory>
    requires place { HasPlace (R.state reader.old) «module».now }
    requires read { IsRead (R.state reader.old) «module».now }
    ensures parse { IfOk result (λ parse. parse_at (R.state reader.old) «module».now.row ≡ Some parse) }
    ensures same { (R.at reader.new ≡ R.at reader.old) × (R.state reader.new ≡ R.state reader.old) }
    ensures part { R.part reader.new ≡ R.part reader.old }
{
    let payload = reader.read(parse_entity(module.row))?;
    let parse = parse_in(&payload)?;
    Ok(parse)
}

// Which modules its specifiers find.
fn list_of<R: HeapReader<Payload>>(
    reader: &mut R,
    module: &RootRow,
) -> Result<Shared<Deps>, NoMemory>
    requires place { HasPlace (R.state reader.old) «module».now }
    requires read { IsRead (R.state reader.old) «module».now }
    ensures deps { IfOk result (λ deps. deps_at (R.state reader.old) «module».now.row ≡ Some deps) }
    ensures same { (R.at reader.new ≡ R.at reader.old) × (R.state reader.new ≡ R.state reader.old) }
    ensures part { R.part reader.new ≡ R.part reader.old }
{
    let payload = reader.read(deps_entity(module.row))?;
    let deps = deps_in(&payload)?;
    Ok(deps)
}

/// The job of a module as it was committed.
///
/// # Errors
///
/// `NoMemory` where memory is refused.
pub(crate) fn job_of<R: HeapReader<Payload>>(
    alloc: Global,
    reader: &mut R,
    modules: &[RootRow],
    module: &RootRow,
) -> Result<CheckJob, NoMemory>
    requires rising { IsRising (paths_of_rows modules.now) }
    requires placed { AllByRecursion (HasPlace (R.state reader.old)) modules.now }
    requires place { HasPlace (R.state reader.old) «module».now }
    requires read { IsRead (R.state reader.old) «module».now }
    ensures job { IfOk result (IsJobOf (R.state reader.old) modules.now «module».now) }
    ensures same { (R.at reader.new ≡ R.at reader.old) × (R.state reader.new ≡ R.state reader.old) }
    ensures part { R.part reader.new ≡ R.part reader.old }
{
    let parse = parse_of(reader, module)?;
    let deps = list_of(reader, module)?;
    let sigs = reached_table(alloc, reader, modules, deps.get())?;
    Ok(CheckJob {
        path: module.path.share()?,
        text: module.text.share()?,
        parse,
        deps,
        sigs,
    })
}

// The dependency list of the module at a path, by what its source says.
fn list_in(alloc: Global, root: &Root, path: &Path, parse: &Parse) -> Result<Deps, NoMemory>
    requires { IsRising (paths_of root.now) }
    ensures { IfOk result (λ deps. deps ≡ deps_in (paths_of root.now) path.now parse.now) }
{
    match &parse.tree {
        ParseTree::Tree { module, spans: _ } => deps_of(alloc, root, path, module),
        ParseTree::Broken(_) => Ok(Deps {
            rows: List::new(alloc),
        }),
    }
}

/// The job of the module at a path, were this its text, which says this by itself.
///
/// # Errors
///
/// `NoMemory` where memory is refused.
pub(crate) fn job_instead<R: HeapReader<Payload>>(
    alloc: Global,
    reader: &mut R,
    root: &Root,
    path: &Path,
    text: &Text,
    parse: Parse,
) -> Result<CheckJob, NoMemory>
    requires rising { IsRising (paths_of root.now) }
    requires placed { AllByRecursion (HasPlace (R.state reader.old)) root.now.modules }
    requires parse { IsParse text.now parse }
    ensures job { IfOk result (IsJobInstead (R.state reader.old) root.now.modules path.now text.now) }
    ensures same { (R.at reader.new ≡ R.at reader.old) × (R.state reader.new ≡ R.state reader.old) }
    ensures part { R.part reader.new ≡ R.part reader.old }
{
    let deps = list_in(alloc, root, path, &parse)?;
    let sigs = reached_table(alloc, reader, root.modules.as_slice(), &deps)?;
    Ok(CheckJob {
        path: path.share()?,
        text: text.share()?,
        parse: Shared::new(alloc, parse)?,
        deps: Shared::new(alloc, deps)?,
        sigs,
    })
}
