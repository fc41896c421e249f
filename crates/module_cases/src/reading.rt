//! The modules of a line, what each says by itself, and which modules it leads to.
ghost use Rattle.flow_values.specs.Path.{IsRising};
ghost use Rattle.check_values.specs.Roots.{paths_of};

use crate::roots::root_of;
use check_values::{Deps, Root};
use flow_values::{List, NoMemory, Path, Shared, are_rising};
use module_deps::deps_of;
use sig_merge::MergeMember;
use source_front::ParseTree;
use source_reading::front;
use std::alloc::Global;
use std::collections::BTreeMap;

/// The paths and the sources of a line's modules.
#[derive(Drop)]
pub(crate) struct Modules {
    pub(crate) paths: Vec<Path>,
    pub(crate) sources: Vec<String>,
}

/// The modules of a line. A path that is none is left out, with its source.
pub(crate) fn modules_of(alloc: Global, line: &str) -> Result<Modules, NoMemory> {
    let mut paths = Vec::new(alloc);
    let mut sources = Vec::new(alloc);
    let mut fields = line.split('\t');
    while let (Some(path), Some(source)) = (fields.next(), fields.next()) {
        if let Ok(path) = Path::read(alloc, path.as_bytes()) {
            paths.push(path)?;
            sources.push(source.replace(alloc, '⏎', "\n")?)?;
        }
    }
    Ok(Modules { paths, sources })
}

// A module of a version: what it says by itself, and which modules it leads to.
fn member_of(
    alloc: Global,
    root: &Root,
    path: &Path,
    source: &[u8],
) -> Result<MergeMember, NoMemory>
    requires rising { IsRising (paths_of root.now) }
{
    let parse = front(alloc, source)?;
    let deps = match &parse.tree {
        ParseTree::Tree { module, .. } => deps_of(alloc, root, path, module)?,
        ParseTree::Broken(_) => Deps {
            rows: List::new(alloc),
        },
    };
    Ok(MergeMember {
        path: path.share()?,
        sig: parse.sig,
        deps: Shared::new(alloc, deps)?,
    })
}

/// The modules of a version, in order; none where the paths don't rise.
pub(crate) fn members_of(alloc: Global, modules: &Modules) -> Result<Vec<MergeMember>, NoMemory> {
    let mut members = Vec::new(alloc);
    let paths = modules.paths.as_slice();
    if !are_rising(paths) {
        return Ok(members);
    }
    let root = root_of(alloc, paths)?;
    for (path, source) in paths.iter().zip(modules.sources.iter()) {
        members.push(member_of(alloc, &root, path, source.as_bytes())?)?;
    }
    Ok(members)
}

// The numbers of the modules that a member leads to.
fn edges_from(
    alloc: Global,
    numbers: &BTreeMap<Path, u32>,
    deps: &Deps,
) -> Result<List<u32>, NoMemory> {
    let mut edges = List::new(alloc);
    for row in deps.rows.as_slice() {
        if let Some(path) = &row.found {
            if let Some(number) = numbers.get(path) {
                edges.push(*number)?;
            }
        }
    }
    Ok(edges)
}

/// The numbers of the modules that each member leads to.
pub(crate) fn edges_of(alloc: Global, members: &[MergeMember]) -> Result<Vec<List<u32>>, NoMemory> {
    let mut numbers = BTreeMap::new(alloc);
    let mut number = 0;
    for member in members {
        numbers.insert(member.path.share()?, number)?;
        number = u32::saturating_add(number, 1);
    }
    let mut edges = Vec::new(alloc);
    for member in members {
        edges.push(edges_from(alloc, &numbers, member.deps.get())?)?;
    }
    Ok(edges)
}
