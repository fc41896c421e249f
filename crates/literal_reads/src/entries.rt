//! The properties of an object literal, by their keys.
ghost use Rattle.std.specs.Prelude.{◌≡◌, ◌++◌, ◌∷◌, [], ℕ, List, Some, OnOk, OnErr, if◌then◌else◌};
ghost use Rattle.std.specs.Str.{bytes_eq};
ghost use Rattle.type_values.specs.declared.types.FlowProp.{out-FlowProp};
ghost use Rattle.typing.specs.States.{add_fault};
ghost use Rattle.typing.specs.Objects.{counts, stands_before, key_bound, is_given, lacks, missing_prop};
ghost use Rattle.literal_reads.specs.Keys.{entry_view, rows_view, at_key, widened, HasPlaces};

use check_values::Code;
use check_world::{Notes, World};
use flow_values::{List, NoMemory, Text};
use std::alloc::Global;
use std::collections::BTreeMap;
use type_terms::show_key;
use type_values::{FlowProp, FlowType};

/// A property of a literal: the tokens of its key, the key, and the type of its value where that is a
/// literal or `null`.
#[derive(Debug, Drop)]
pub struct Entry {
    pub first: usize,
    pub end: usize,
    pub name: Text,
    pub literal: Option<FlowType>,
}

// The first and the last token at which a key begins.
#[derive(Clone, Copy, Debug)]
struct Places {
    first: usize,
    last: usize,
}

/// The properties of a literal, in order.
#[derive(Drop)]
pub struct Entries {
    rows: List<Entry>,
    places: BTreeMap<Text, Places>,
    ghost placed: { HasPlaces places (rows_view rows) },
}

// The places of a key, with one more.
fn widened(places: &BTreeMap<Text, Places>, name: &Text, at: usize) -> Places
    ensures { result ≡ widened (at_key places.now name.now) at }
{
    match places.get(name) {
        Some(places) => Places {
            first: places.first.min(at),
            last: places.last.max(at),
        },
        None => Places {
            first: at,
            last: at,
        },
    }
}

// One more place of a key.
#[tactic(auto, using(crate::proofs::KeyPlaces::place_put))]
fn put(places: &mut BTreeMap<Text, Places>, name: Text, at: usize) -> Result<(), NoMemory>
    ensures ok { OnOk result ((key : List ℕ) → at_key places.new key ≡ (if bytes_eq name key then Some (widened (at_key places.old name) at) else at_key places.old key)) }
    ensures err { OnErr result ((key : List ℕ) → at_key places.new key ≡ at_key places.old key) }
{
    let wide = widened(places, &name, at);
    places.insert(name, wide)?;
    Ok(())
}

// One more property, and the place of its key. Where memory is refused all is as before.
#[tactic(auto, using(crate::proofs::KeyPlaces::rows_last, check_world::proofs::Pushed::popped))]
fn add(
    rows: &mut List<Entry>,
    places: &mut BTreeMap<Text, Places>,
    entry: Entry,
) -> Result<(), NoMemory>
    requires { HasPlaces places.old (rows_view rows.old) }
    ensures ok { OnOk result (rows_view rows.new ≡ rows_view rows.old ++ entry_view entry ∷ []) }
    ensures err { OnErr result (rows_view rows.new ≡ rows_view rows.old) }
    ensures placed { HasPlaces places.new (rows_view rows.new) }
{
    let at = entry.first;
    let name = entry.name.share()?;
    rows.push(entry)?;
    if put(places, name, at).is_err() {
        rows.pop();
        return Err(NoMemory);
    }
    Ok(())
}

impl Entries {
    ghost use Rattle.check_world.specs.View.{world_view, notes_view};
    ghost use Rattle.literal_reads.specs.View.{entries_view};

    /// No properties.
    #[tactic(auto, using(crate::proofs::KeyPlaces::no_places), unfolding(crate::specs::View::entries_view))]
    pub fn new(alloc: Global) -> Entries
        ensures { entries_view result ≡ [] }
    {
        Entries {
            rows: List::new(alloc),
            places: BTreeMap::new(alloc),
        }
    }

    /// One more property.
    ///
    /// # Errors
    ///
    /// `NoMemory` where memory is refused. The properties are then as before.
    #[tactic(auto, unfolding(crate::specs::View::entries_view))]
    pub fn add(&mut self, entry: Entry) -> Result<(), NoMemory>
        ensures ok { OnOk result (entries_view self.new ≡ entries_view self.old ++ entry_view entry ∷ []) }
        ensures err { OnErr result (entries_view self.new ≡ entries_view self.old) }
    {
        add(&mut self.rows, &mut self.places, entry)
    }

    /// The properties, in order.
    #[tactic(auto, unfolding(crate::specs::View::entries_view))]
    pub fn rows(&self) -> &[Entry]
        ensures { rows_view result.now ≡ entries_view self.now }
    {
        self.rows.as_slice()
    }

    /// Whether no later property has its key: of a repeated key the last one counts.
    #[tactic(auto, using(crate::proofs::KeyPlaces::counts_by_place), unfolding(crate::specs::View::entries_view))]
    pub fn counts(&self, entry: &Entry) -> bool
        ensures { result ≡ counts (entries_view self.now) (entry_view entry.now) }
    {
        match self.places.get(&entry.name) {
            Some(places) => places.last <= entry.first,
            None => true,
        }
    }

    // Whether an earlier property has its key.
    #[tactic(auto, using(crate::proofs::KeyPlaces::stands_by_place), unfolding(crate::specs::View::entries_view))]
    fn stands_before(&self, entry: &Entry) -> bool
        ensures { result ≡ stands_before (entries_view self.now) (entry_view entry.now) }
    {
        match self.places.get(&entry.name) {
            Some(places) => places.first < entry.first,
            None => false,
        }
    }

    /// Notes a key that stands before already.
    ///
    /// # Errors
    ///
    /// `NoMemory` where memory is refused. The notes are then as before.
    pub fn bind_key(
        &self,
        world: &World<'_>,
        entry: &Entry,
        notes: &mut Notes,
    ) -> Result<(), NoMemory>
        ensures ok { OnOk result (notes_view notes.new ≡ key_bound (world_view world.now) (entries_view self.now) (entry_view entry.now) (notes_view notes.old)) }
        ensures err { OnErr result (notes_view notes.new ≡ notes_view notes.old) }
    {
        if !self.stands_before(entry) {
            return Ok(());
        }
        let shown = show_key(world.alloc, entry.name.as_bytes())?;
        notes.name_fault(world.fault(entry.first, entry.end, Code::NameAlreadyBound, shown))
    }

    /// Whether there is a property with this key.
    #[tactic(auto, using(crate::proofs::KeyPlaces::given_by_place), unfolding(crate::specs::View::entries_view))]
    pub fn has(&self, key: &Text) -> bool
        ensures { result ≡ is_given (entries_view self.now) key.now }
    {
        self.places.get(key).is_some()
    }

    /// Notes a property that is required, where the literal, at these tokens, lacks it.
    ///
    /// # Errors
    ///
    /// `NoMemory` where memory is refused. The notes are then as before.
    pub(crate) fn ask_given(
        &self,
        world: &World<'_>,
        first: usize,
        end: usize,
        prop: &FlowProp,
        notes: &mut Notes,
    ) -> Result<(), NoMemory>
        ensures ok { OnOk result (notes_view notes.new ≡ (if lacks (entries_view self.now) prop.now then add_fault (missing_prop (world_view world.now) first end (out-FlowProp prop.now).key) (notes_view notes.old) else notes_view notes.old)) }
        ensures err { OnErr result (notes_view notes.new ≡ notes_view notes.old) }
    {
        if prop.optional || self.has(&prop.key) {
            return Ok(());
        }
        let shown = show_key(world.alloc, prop.key.as_bytes())?;
        notes.add_fault(world.fault(first, end, Code::PropMissing, shown))
    }
}
