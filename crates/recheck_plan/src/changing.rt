ghost use Rattle.std.specs.Prelude.{◌≡◌, map, [], IfOk, OnOk};
ghost use Rattle.std.specs.Option.{option_copied};
ghost use Rattle.flow_values.specs.Path.{IsRising};
ghost use Rattle.check_values.specs.Roots.{paths_of};
ghost use Rattle.recheck_plan.specs.Differing.{changes_of, AreRising};
ghost use Rattle.recheck_plan.specs.Walk.{from_path, text_of_first, with_path};

use check_values::{Root, RootRow};
use flow_values::{List, NoMemory, Path, Text};
use std::alloc::Global;

/// The paths of which a version differs from the one before it, each list in rising order.
#[derive(Debug, Drop)]
pub struct Changes {
    /// The modules that are new.
    pub added: List<Path>,
    /// The modules of both versions whose text is another one.
    pub differing: List<Path>,
    /// The paths that are no module any more.
    pub removed: List<Path>,
}

impl Changes {
    fn none(alloc: Global) -> Changes
        ensures { result ≡ record { added = []; differing = []; removed = [] } }
    {
        Changes {
            added: List::new(alloc),
            differing: List::new(alloc),
            removed: List::new(alloc),
        }
    }

    // Lists a path where its text changed.
    fn put(
        &mut self,
        path: &Path,
        before: Option<&Text>,
        now: Option<&Text>,
    ) -> Result<(), NoMemory>
        ensures { OnOk result (self.new ≡ with_path self.old path.now (option_copied before.entry) (option_copied now.entry)) }
    {
        match (before, now) {
            (None, Some(_)) => self.added.push(path.share()?),
            (Some(before), Some(now)) if !before.equals(now) => self.differing.push(path.share()?),
            (Some(_), None) => self.removed.push(path.share()?),
            _ => Ok(()),
        }
    }
}

// The modules from the first one on whose path is not below this one.
fn from_path<'a>(modules: &'a [RootRow], path: &Path) -> &'a [RootRow]
    ensures { result.now ≡ from_path path.now modules.now }
{
    let mut rest = modules;
    while let Some((first, more)) = rest.split_first() {
        if first.path >= *path {
            break;
        }
        rest = more;
    }
    rest
}

// The text of the first module, if its path is this one.
fn text_of_first<'a>(modules: &'a [RootRow], path: &Path) -> Option<&'a Text>
    ensures { option_copied result ≡ text_of_first path.now modules.now }
{
    match modules.first() {
        Some(module) if module.path.equals(path) => Some(&module.text),
        _ => None,
    }
}

/// What differs between the version of `root` and the one in which each path of `texts` has the text
/// beside it, or is no module where there is none, and all other modules stay: the paths of new modules,
/// of modules whose text is another one, and of modules that are none any more, each in rising order.
/// It is one walk over both, in time in proportion to their paths and the texts that are compared.
///
/// # Errors
///
/// `NoMemory` where memory is refused.
pub fn changed(
    alloc: Global,
    root: &Root,
    texts: &[(Path, Option<Text>)],
) -> Result<Changes, NoMemory>
    requires root { IsRising (paths_of root.now) }
    requires texts { IsRising (map (λ t. t.0) texts.now) }
    ensures changes { IfOk result (λ changes. changes ≡ changes_of root.now texts.now) }
    ensures rising { IfOk result AreRising }
{
    let mut changes = Changes::none(alloc);
    let mut rest = root.modules.as_slice();
    for (path, now) in texts {
        rest = from_path(rest, path);
        changes.put(path, text_of_first(rest, path), now.as_ref())?;
    }
    Ok(changes)
}
