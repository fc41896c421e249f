//! An object type that an object literal is read against.
ghost use Rattle.std.specs.Prelude.{◌≡◌, ℕ, Some, take, IfOk, OnOk, OnErr};
ghost use Rattle.std.specs.Option.{option_copied};
ghost use Rattle.flow_facts.specs.Properties.{prop_of, read_type};
ghost use Rattle.typing.specs.States.{add_faults};
ghost use Rattle.typing.specs.Objects.{takes_value, is_candidate, value_want, is_lacking, key_asked, missing_props, all_given};
ghost use Rattle.literal_reads.specs.Keys.{entry_view, HasProps};
ghost use Rattle.literal_reads.specs.Accepting.{accepts};

use crate::entries::{Entries, Entry};
use check_values::Code;
use check_world::{Notes, World};
use flow_values::{NoMemory, Text};
use std::alloc::Global;
use std::collections::BTreeMap;
use type_terms::{eff, show_key};
use type_values::{FlowProp, FlowType};

/// An object type that a literal is read against, with the place of the first property of each key.
#[derive(Drop)]
pub struct Candidate<'t> {
    exact: bool,
    props: &'t [FlowProp],
    places: BTreeMap<Text, usize>,
    ghost placed: { HasProps places 0 props.now },
}

// The place of the first property of each key.
#[tactic(auto, using(crate::proofs::PropPlaces::no_places, crate::proofs::PropPlaces::place_next))]
fn places_of(alloc: Global, props: &[FlowProp]) -> Result<BTreeMap<Text, usize>, NoMemory>
    ensures { IfOk result (λ places. HasProps places 0 props.now) }
{
    let mut places = BTreeMap::new(alloc);
    for i in (0..props.len()).rev() {
        let prop = &props[i];
        places.insert(prop.key.share()?, i)?;
    }
    Ok(places)
}

// What reading a property gives.
fn read_type(world: &World<'_>, prop: &FlowProp) -> Result<FlowType, NoMemory>
    ensures { IfOk result (λ t. t ≡ read_type prop.now) }
{
    eff(world.alloc, prop.optional, &prop.ty)
}

impl<'t> Candidate<'t> {
    ghost use Rattle.check_world.specs.View.{world_view, notes_view};
    ghost use Rattle.literal_reads.specs.View.{entries_view, candidate_view};

    pub(crate) fn new(
        world: &World<'_>,
        exact: bool,
        props: &'t [FlowProp],
    ) -> Result<Candidate<'t>, NoMemory>
        ensures { IfOk result (λ candidate. candidate_view candidate ≡ record { exact = exact; props = props.now }) }
    {
        let places = places_of(world.alloc, props)?;
        Ok(Candidate {
            exact,
            props,
            places,
        })
    }

    // The first property with a key.
    #[tactic(auto, using(crate::proofs::PropPlaces::prop_at_place, crate::proofs::PropPlaces::no_prop_at))]
    fn prop(&self, key: &Text) -> Option<&'t FlowProp>
        ensures { option_copied result ≡ prop_of key.now (candidate_view self.now).props }
    {
        match self.places.get(key) {
            Some(i) => self.props.get(*i),
            None => None,
        }
    }

    // Whether it has the property, with a type that takes the value, where that is a literal.
    fn takes(&self, world: &World<'_>, entry: &Entry) -> Result<bool, NoMemory>
        ensures { IfOk result (λ yes. yes ≡ takes_value (world_view world.now) entry.now.name entry.now.literal (candidate_view self.now)) }
    {
        let Some(literal) = &entry.literal else {
            return Ok(true);
        };
        match self.prop(&entry.name) {
            None => Ok(false),
            Some(prop) => world.is_below(literal, &read_type(world, prop)?),
        }
    }

    // Whether it takes a property, if that counts.
    fn accepts(&self, world: &World<'_>, entries: &Entries, entry: &Entry) -> Result<bool, NoMemory>
        ensures { IfOk result (λ yes. yes ≡ accepts (world_view world.now) (entries_view entries.now) (candidate_view self.now) (entry_view entry.now)) }
    {
        if !entries.counts(entry) {
            return Ok(true);
        }
        self.takes(world, entry)
    }

    // Whether it takes each property that counts.
    #[tactic(auto, using(crate::proofs::ObjectsAmong::accepts_next, crate::proofs::ObjectsAmong::accepts_not, crate::proofs::ObjectsAmong::accepts_all))]
    pub(crate) fn takes_all(&self, world: &World<'_>, entries: &Entries) -> Result<bool, NoMemory>
        ensures { IfOk result (λ yes. yes ≡ is_candidate (world_view world.now) (entries_view entries.now) (candidate_view self.now)) }
    {
        let rows = entries.rows();
        for i in 0..rows.len() {
            let row = &rows[i];
            if !self.accepts(world, entries, row)? {
                return Ok(false);
            }
        }
        Ok(true)
    }

    /// The type that the value of a property is read against.
    ///
    /// # Errors
    ///
    /// `NoMemory` where memory is refused.
    pub fn value_want(
        &self,
        world: &World<'_>,
        entries: &Entries,
        entry: &Entry,
    ) -> Result<Option<FlowType>, NoMemory>
        ensures { IfOk result (λ want. want ≡ value_want (Some (candidate_view self.now)) (entries_view entries.now) (entry_view entry.now)) }
    {
        if !entries.counts(entry) {
            return Ok(None);
        }
        match self.prop(&entry.name) {
            None => Ok(None),
            Some(prop) => Ok(Some(read_type(world, prop)?)),
        }
    }

    // Whether it lacks a property, and is exact.
    fn is_lacking(&self, key: &Text) -> bool
        ensures { result ≡ is_lacking (candidate_view self.now).exact (prop_of key.now (candidate_view self.now).props) }
    {
        match self.prop(key) {
            None => self.exact,
            Some(_) => false,
        }
    }

    /// Notes a property that the candidate, which is exact, lacks.
    ///
    /// # Errors
    ///
    /// `NoMemory` where memory is refused. The notes are then as before.
    pub fn ask_key(
        &self,
        world: &World<'_>,
        entries: &Entries,
        entry: &Entry,
        notes: &mut Notes,
    ) -> Result<(), NoMemory>
        ensures ok { OnOk result (notes_view notes.new ≡ key_asked (world_view world.now) (Some (candidate_view self.now)) (entries_view entries.now) (entry_view entry.now) (notes_view notes.old)) }
        ensures err { OnErr result (notes_view notes.new ≡ notes_view notes.old) }
    {
        if entries.counts(entry) && self.is_lacking(&entry.name) {
            let shown = show_key(world.alloc, entry.name.as_bytes())?;
            return notes.add_fault(world.fault(entry.first, entry.end, Code::PropMissing, shown));
        }
        Ok(())
    }

    /// Notes each required property that a literal, at these tokens, lacks.
    ///
    /// # Errors
    ///
    /// `NoMemory` where memory is refused. The first properties of the candidate, up to some number, are
    /// then asked for.
    #[tactic(auto, using(crate::proofs::Missing::asked_next))]
    pub fn ask_all(
        &self,
        world: &World<'_>,
        first: usize,
        end: usize,
        entries: &Entries,
        notes: &mut Notes,
    ) -> Result<(), NoMemory>
        ensures ok { OnOk result (notes_view notes.new ≡ all_given (world_view world.now) first end (entries_view entries.now) (Some (candidate_view self.now)) (notes_view notes.old)) }
        ensures err { OnErr result ((count : ℕ) × (notes_view notes.new ≡ add_faults (missing_props (world_view world.now) first end (entries_view entries.now) (take count (candidate_view self.now).props)) (notes_view notes.old))) }
    {
        let props = self.props;
        for i in 0..props.len() {
            let prop = &props[i];
            entries.ask_given(world, first, end, prop, notes)?;
        }
        Ok(())
    }
}
