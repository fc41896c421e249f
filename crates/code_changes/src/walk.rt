//! A walk through code: the changes so far, and the scopes that stand round.
#![tactic(auto)]

ghost use Rattle.std.specs.Prelude.{◌≡◌, ◌∷◌, [], ◌++◌, ◌||◌, false, List, ℕ, OnOk, IfOk, if◌then◌else◌};
ghost use Rattle.std.specs.Ordering.{nat_cmp};
ghost use Rattle.std.specs.Cmp.Lexicographic.{slice_cmp};
ghost use Rattle.std.specs.Str.{bytes_eq};
ghost use Rattle.std.specs.BTreeSet.{contains};
ghost use Rattle.typing.specs.Changes as typing;
ghost use Rattle.code_changes.specs.Walks.{Tells, StartsBehind, AreAdded, AreTaken, Enters, Leaves};

use crate::change::Change;
use flow_values::{List, NoMemory, Text};
use std::alloc::Global;
use std::collections::BTreeSet;

/// A walk through code. It keeps what is seen of the changes outside of the scopes that stand round, so
/// that each is looked at once, however deep it stands.
#[derive(Drop)]
pub(crate) struct Walk {
    pub alloc: Global,
    pub changes: List<Change>,
    // The names of the scopes that stand round, and whether one of these is a function.
    pub own: BTreeSet<Text>,
    pub is_inner: bool,
}

/// What leaving a scope goes back by: the names that only it has, and whether a function stood round
/// outside of it.
#[derive(Drop)]
pub(crate) struct Outside {
    pub added: List<Text>,
    pub is_inner: bool,
}

// Adds a name to a set, and notes it if it is new there.
#[tactic(auto, using(crate::proofs::OwnNames::name_more, crate::proofs::OwnNames::name_new, crate::proofs::OwnNames::name_old))]
fn add_name(own: &mut BTreeSet<Text>, name: &Text, added: &mut List<Text>) -> Result<(), NoMemory>
    ensures own { OnOk result ((q : List ℕ) → contains (slice_cmp nat_cmp) own.new q ≡ (contains (slice_cmp nat_cmp) own.old q || bytes_eq q name.now)) }
    ensures added { OnOk result (added.new ≡ added.old ++ (if contains (slice_cmp nat_cmp) own.old name.now then [] else name.now ∷ [])) }
{
    if own.insert(name.share()?)? {
        return added.push(name.share()?);
    }
    Ok(())
}

// Adds names to a set, and gives those that are new there.
#[tactic(auto, using(crate::proofs::OwnNames::added_none, crate::proofs::OwnNames::added_more, crate::proofs::OwnNames::added_all))]
fn add_names(
    alloc: Global,
    own: &mut BTreeSet<Text>,
    names: &[Text],
) -> Result<List<Text>, NoMemory>
    ensures { IfOk result (λ added. AreAdded names.now own.old own.new added) }
{
    let mut added = List::new(alloc);
    for i in 0..names.len() {
        add_name(own, &names[i], &mut added)?;
    }
    Ok(added)
}

// Takes names out of a set.
#[tactic(auto, using(crate::proofs::OwnNames::taken_none, crate::proofs::OwnNames::taken_more, crate::proofs::OwnNames::taken_all))]
fn take_names(own: &mut BTreeSet<Text>, names: &[Text])
    ensures { AreTaken names.now own.old own.new }
{
    for i in 0..names.len() {
        own.remove(&names[i]);
    }
}

impl Walk {
    /// A walk that starts behind changes, in no scope.
    #[tactic(auto, using(crate::proofs::Telling::starts_behind))]
    pub(crate) fn behind(alloc: Global, changes: List<Change>) -> Walk
        ensures { StartsBehind changes result }
    {
        Walk {
            alloc,
            changes,
            own: BTreeSet::new(alloc),
            is_inner: false,
        }
    }

    /// The changes so far.
    pub(crate) fn into_changes(self) -> List<Change>
        ensures { result ≡ self.changes }
    {
        let Walk {
            alloc: _,
            changes,
            own,
            is_inner: _,
        } = self;
        drop(own);
        changes
    }

    /// Nothing is assigned.
    ///
    /// # Errors
    ///
    /// It never fails, as the other ways to go on may.
    #[tactic(auto, using(crate::proofs::Telling::nothing_told))]
    pub(crate) fn set_nothing(&mut self) -> Result<(), NoMemory>
        ensures { OnOk result (Tells self.old self.new []) }
    {
        Ok(())
    }

    /// A variable is assigned.
    ///
    /// # Errors
    ///
    /// `NoMemory` where memory is refused.
    #[tactic(auto, using(crate::proofs::Telling::own_set, crate::proofs::Telling::variable_set))]
    pub(crate) fn set_variable(&mut self, name: &Text) -> Result<(), NoMemory>
        ensures { OnOk result (Tells self.old self.new (typing.sets_variable false name.now ∷ [])) }
    {
        if self.own.contains(name) {
            return Ok(());
        }
        let (inner, name) = (self.is_inner, name.share()?);
        self.changes.push(Change::SetsVariable { inner, name })
    }

    /// A property is assigned.
    ///
    /// # Errors
    ///
    /// `NoMemory` where memory is refused.
    #[tactic(auto, using(crate::proofs::Telling::property_set))]
    pub(crate) fn set_property(&mut self, name: &Text) -> Result<(), NoMemory>
        ensures { OnOk result (Tells self.old self.new (typing.sets_property name.now ∷ [])) }
    {
        self.changes.push(Change::SetsProperty(name.share()?))
    }

    /// Any property may be assigned.
    ///
    /// # Errors
    ///
    /// `NoMemory` where memory is refused.
    #[tactic(auto, using(crate::proofs::Telling::none_set, crate::proofs::Telling::all_set))]
    pub(crate) fn set_all(&mut self) -> Result<(), NoMemory>
        ensures { OnOk result (Tells self.old self.new (typing.may_set_all ∷ [])) }
    {
        if self.is_inner {
            return Ok(());
        }
        self.changes.push(Change::MaySetAll)
    }

    /// Enters a function, or a block, with these own names.
    ///
    /// # Errors
    ///
    /// `NoMemory` where memory is refused.
    pub(crate) fn enter(&mut self, is_function: bool, names: &[Text]) -> Result<Outside, NoMemory>
        ensures { IfOk result (λ outside. Enters is_function names.now outside self.old self.new) }
    {
        let added = add_names(self.alloc, &mut self.own, names)?;
        let is_inner = self.is_inner;
        self.is_inner = is_inner || is_function;
        Ok(Outside { added, is_inner })
    }

    /// Leaves a scope.
    pub(crate) fn leave(&mut self, outside: Outside)
        ensures { Leaves outside self.old self.new }
    {
        take_names(&mut self.own, outside.added.as_slice());
        self.is_inner = outside.is_inner;
    }
}
