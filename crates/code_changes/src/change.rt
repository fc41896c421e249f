//! Changes, and what is asked of them.
ghost use Rattle.std.specs.Prelude.{◌≡◌, ◌++◌, ◌∷◌, [], ◌||◌, List, ℕ, OnOk, IfOk};
ghost use Rattle.std.specs.List.{filter_map, list_any};
ghost use Rattle.std.specs.Ordering.{nat_cmp};
ghost use Rattle.std.specs.Cmp.Lexicographic.{slice_cmp};
ghost use Rattle.std.specs.BTreeSet.{contains};
ghost use Rattle.typing.specs.Names.{numbers_of};
ghost use Rattle.typing.specs.Changes.{is_set_inside, sets_inside, variable_set, property_set, sets_all};
ghost use Rattle.typing.specs.Statements.{killed_by};
ghost use Rattle.scopes.specs.View.{scope_view};
ghost use Rattle.code_changes.specs.View.{change_view, changes_view};

use flow_facts::Killed;
use flow_values::{List, NoMemory, Text};
use scopes::Scope;
use std::alloc::Global;
use std::collections::BTreeSet;

/// One thing that code may change.
#[derive(Debug, Drop)]
pub enum Change {
    /// A variable is assigned, in an inner function or outside of them.
    SetsVariable { inner: bool, name: Text },
    SetsProperty(Text),
    /// A call, or an assignment to an element, outside of inner functions.
    MaySetAll,
}

impl Change {
    // Adds the name that is assigned in a function inside.
    #[tactic(auto, using(crate::proofs::Sets::name_added, crate::proofs::Sets::none_added))]
    fn add_inner(&self, names: &mut BTreeSet<Text>) -> Result<(), NoMemory>
        ensures { OnOk result ((name : List ℕ) → contains (slice_cmp nat_cmp) names.new name ≡ (contains (slice_cmp nat_cmp) names.old name || sets_inside name (change_view self.now))) }
    {
        match self {
            Change::SetsVariable { inner: true, name } => {
                names.insert(name.share()?)?;
                Ok(())
            }
            Change::SetsVariable {
                inner: false,
                name: _,
            }
            | Change::SetsProperty(_)
            | Change::MaySetAll => Ok(()),
        }
    }

    // Adds the number of the variable that is assigned, where its name is bound.
    #[tactic(auto, using(crate::proofs::Sets::number_found, crate::proofs::Sets::number_missing))]
    fn add_number(&self, scope: &Scope, numbers: &mut List<u32>) -> Result<(), NoMemory>
        ensures { OnOk result (numbers.new ≡ numbers.old ++ numbers_of (scope_view scope.now) (filter_map variable_set (change_view self.now ∷ []))) }
    {
        match self {
            Change::SetsVariable { inner: _, name } => match scope.find(name) {
                Some(binding) => numbers.push(binding.number),
                None => Ok(()),
            },
            Change::SetsProperty(_) | Change::MaySetAll => Ok(()),
        }
    }

    // Adds the name of the property that is assigned.
    fn add_property(&self, names: &mut List<Text>) -> Result<(), NoMemory>
        ensures { OnOk result (names.new ≡ names.old ++ filter_map property_set (change_view self.now ∷ [])) }
    {
        match self {
            Change::SetsProperty(name) => names.push(name.share()?),
            Change::SetsVariable { .. } | Change::MaySetAll => Ok(()),
        }
    }

    // Whether it may change any property.
    fn sets_all(&self) -> bool
        ensures { result ≡ sets_all (change_view self.now) }
    {
        match self {
            Change::MaySetAll => true,
            Change::SetsVariable { .. } | Change::SetsProperty(_) => false,
        }
    }
}

/// The names that are assigned in a function inside.
///
/// # Errors
///
/// `NoMemory` where memory is refused.
pub fn inner_names(alloc: Global, changes: &[Change]) -> Result<BTreeSet<Text>, NoMemory>
    ensures { IfOk result (λ names. (name : List ℕ) → contains (slice_cmp nat_cmp) names name ≡ is_set_inside (changes_view changes.now) name) }
{
    let mut names = BTreeSet::new(alloc);
    for i in 0..changes.len() {
        changes[i].add_inner(&mut names)?;
    }
    Ok(names)
}

// The numbers of the variables that are assigned.
fn numbers_set(alloc: Global, scope: &Scope, changes: &[Change]) -> Result<List<u32>, NoMemory>
    ensures { IfOk result (λ numbers. numbers ≡ numbers_of (scope_view scope.now) (filter_map variable_set (changes_view changes.now))) }
{
    let mut numbers = List::new(alloc);
    for i in 0..changes.len() {
        changes[i].add_number(scope, &mut numbers)?;
    }
    Ok(numbers)
}

// The names of the properties that are assigned.
fn properties_set(alloc: Global, changes: &[Change]) -> Result<List<Text>, NoMemory>
    ensures { IfOk result (λ names. names ≡ filter_map property_set (changes_view changes.now)) }
{
    let mut names = List::new(alloc);
    for i in 0..changes.len() {
        changes[i].add_property(&mut names)?;
    }
    Ok(names)
}

// Whether any property may be changed.
fn any_sets_all(changes: &[Change]) -> bool
    ensures { result ≡ list_any sets_all (changes_view changes.now) }
{
    for i in 0..changes.len() {
        if changes[i].sets_all() {
            return true;
        }
    }
    false
}

/// What a loop with these changes may change of the facts.
///
/// # Errors
///
/// `NoMemory` where memory is refused.
pub fn killed_by(alloc: Global, scope: &Scope, changes: &[Change]) -> Result<Killed, NoMemory>
    ensures { IfOk result (λ killed. killed ≡ killed_by (scope_view scope.now) (changes_view changes.now)) }
{
    Ok(Killed {
        bindings: numbers_set(alloc, scope, changes)?,
        props: properties_set(alloc, changes)?,
        all_props: any_sets_all(changes),
    })
}
