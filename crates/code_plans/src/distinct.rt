//! Changes, each of them once.
#![tactic(auto)]

ghost use Rattle.std.specs.Prelude.{◌≡◌, ◌++◌, ◌∷◌, [], ◌||◌, not, false, List, OnOk, IfOk};
ghost use Rattle.typing.specs.Changes as typing;
ghost use Rattle.code_changes.specs.View.{change_view, changes_view};
ghost use Rattle.code_plans.specs.Plans.{same, includes};
ghost use Rattle.code_plans.specs.View.{is_met, Meets};

use code_changes::Change;
use flow_values::{List, NoMemory, Text};
use std::alloc::Global;
use std::collections::BTreeSet;

/// Changes that were met: variables that functions inside assign, those that are assigned outside of
/// them, properties, and whether all may be.
#[derive(Drop)]
struct Met {
    pub inside: BTreeSet<Text>,
    pub variables: BTreeSet<Text>,
    pub properties: BTreeSet<Text>,
    pub all: bool,
}

impl Met {
    // None yet.
    #[tactic(auto, using(crate::proofs::Meeting::none_met))]
    fn new(alloc: Global) -> Met
        ensures { (c : typing.Change) → is_met result c ≡ false }
    {
        Met {
            inside: BTreeSet::new(alloc),
            variables: BTreeSet::new(alloc),
            properties: BTreeSet::new(alloc),
            all: false,
        }
    }

    // Notes a change, and tells whether it is new.
    #[tactic(auto, using(crate::proofs::Meeting::inside_met, crate::proofs::Meeting::variable_met, crate::proofs::Meeting::property_met, crate::proofs::Meeting::all_met, crate::proofs::Meeting::name_new))]
    fn add(&mut self, change: &Change) -> Result<bool, NoMemory>
        ensures met { OnOk result ((c : typing.Change) → is_met self.new c ≡ (is_met self.old c || same c (change_view change.now))) }
        ensures is_new { IfOk result (λ is_new. is_new ≡ not (is_met self.old (change_view change.now))) }
    {
        match change {
            Change::SetsVariable { inner: true, name } => Ok(self.inside.insert(name.share()?)?),
            Change::SetsVariable { inner: false, name } => {
                Ok(self.variables.insert(name.share()?)?)
            }
            Change::SetsProperty(name) => Ok(self.properties.insert(name.share()?)?),
            Change::MaySetAll => {
                let is_new = !self.all;
                self.all = true;
                Ok(is_new)
            }
        }
    }
}

/// A copy, which shares the name.
///
/// # Errors
///
/// `NoMemory` where memory is refused.
pub(crate) fn copy_of(change: &Change) -> Result<Change, NoMemory>
    ensures { IfOk result (λ copy. copy ≡ change.now) }
{
    match change {
        Change::SetsVariable { inner, name } => {
            let name = name.share()?;
            Ok(Change::SetsVariable {
                inner: *inner,
                name,
            })
        }
        Change::SetsProperty(name) => Ok(Change::SetsProperty(name.share()?)),
        Change::MaySetAll => Ok(Change::MaySetAll),
    }
}

// Adds a change, if it is new.
#[tactic(auto, using(crate::proofs::Meeting::old_added))]
fn add_new(met: &mut Met, change: &Change, list: &mut List<Change>) -> Result<(), NoMemory>
    ensures { (changes : List typing.Change) → Meets met.old list.old changes → OnOk result (Meets met.new list.new (changes ++ change_view change.now ∷ [])) }
{
    if met.add(change)? {
        list.push(copy_of(change)?)?;
        return Ok(());
    }
    Ok(())
}

/// Changes that include what those of a list include; by its code none of them stands there twice.
///
/// # Errors
///
/// `NoMemory` where memory is refused.
pub(crate) fn distinct(alloc: Global, changes: &[Change]) -> Result<List<Change>, NoMemory>
    ensures { IfOk result (λ list. includes (changes_view list) ≡ includes (changes_view changes.now)) }
{
    let mut met = Met::new(alloc);
    let mut list = List::new(alloc);
    for i in 0..changes.len() {
        add_new(&mut met, &changes[i], &mut list)?;
    }
    Ok(list)
}

/// Puts copies of changes behind others.
///
/// # Errors
///
/// `NoMemory` where memory is refused. Some of the copies may be there then.
pub(crate) fn add_all(changes: &[Change], out: &mut List<Change>) -> Result<(), NoMemory>
    ensures { OnOk result (out.new ≡ out.old ++ changes.now) }
{
    for i in 0..changes.len() {
        out.push(copy_of(&changes[i])?)?;
    }
    Ok(())
}
