//! The properties of an object, by their keys.
ghost use Rattle.std.specs.Prelude.{◌≡◌, ◌↔◌, ℕ, List, IsTrue, true, Some, IfOk};
ghost use Rattle.std.specs.BTreeMap.{BTreeMap};
ghost use Rattle.std.specs.Option.{option_copied};
ghost use Rattle.flow_values.specs.Path.{IsRising};
ghost use Rattle.subtyping.specs.Rows.{prop_at};
ghost use Rattle.subtype_rules.specs.Kept.{keys_of, prop_of_place};
ghost use Rattle.subtype_rules.specs.Terms.{place_at};
ghost use Rattle.subtype_rules.specs.Firsts.{AreFirsts};
ghost use Rattle.subtype_rules.specs.Once.{rising_once, firsts_once};

use crate::rows::is_text;
use flow_values::{NoMemory, Text};
use std::alloc::Global;
use std::collections::BTreeMap;
use type_values::FlowProp;

/// So many properties are looked through without a map.
pub(crate) const FEW: usize = 8;

/// The properties of an object. The place of a key is found by halving where the keys rise, by a
/// map where there is one, and else by a walk.
#[derive(Drop)]
pub(crate) struct Props<'a> {
    pub all: &'a [FlowProp],
    rise: bool,
    places: Option<BTreeMap<Text, usize>>,
    ghost rising: { rise ≡ true → IsRising (keys_of all.now) } by { Prim.hlevel (rising_once (keys_of all.now)) },
    ghost firsts: { (map : BTreeMap (List ℕ) ℕ) → places ≡ Some map → AreFirsts all.now map } by { Prim.hlevel (firsts_once all.now) },
}

impl<'a> Props<'a> {
    pub(crate) fn new(all: &'a [FlowProp]) -> Props<'a>
        ensures { result.all.now ≡ all.now }
    {
        Props {
            all,
            rise: have_rising_keys(all),
            places: None,
        }
    }

    /// With a map where it is needed: a look-up then never takes a walk through many.
    pub(crate) fn indexed(alloc: Global, all: &'a [FlowProp]) -> Result<Props<'a>, NoMemory>
        ensures { IfOk result (λ props. props.all.now ≡ all.now) }
    {
        let props = Props::new(all);
        if props.is_quick() {
            return Ok(props);
        }
        let places = first_places(alloc, all)?;
        Ok(Props {
            all,
            rise: false,
            places: Some(places),
        })
    }

    /// Whether no look-up takes a walk through many.
    pub(crate) fn is_quick(&self) -> bool {
        self.rise || self.places.is_some() || self.all.len() <= FEW
    }

    /// The place of a key: the first one, where there are several.
    pub(crate) fn place(&self, key: &Text) -> Option<usize>
        ensures { result ≡ place_at self.now.all.now key.now }
    {
        if self.rise {
            return place_of(self.all, key);
        }
        match &self.places {
            Some(places) => places.get(key).copied(),
            None => first_place(self.all, key),
        }
    }

    /// The property of a key: the first one, where there are several.
    pub(crate) fn at(&self, key: &Text) -> Option<&'a FlowProp>
        ensures { option_copied result ≡ prop_at self.now.all.now key.now }
    {
        match self.prop_place(key) {
            Some(k) => self.all.get(k),
            None => None,
        }
    }

    fn prop_place(&self, key: &Text) -> Option<usize>
        ensures { prop_of_place self.now.all.now result ≡ prop_at self.now.all.now key.now }
    {
        self.place(key)
    }
}

fn have_rising_keys(props: &[FlowProp]) -> bool
    ensures { IsTrue result ↔ IsRising (keys_of props.now) }
{
    props.is_sorted_by(|p, next| p.key < next.key)
}

// The first place of each key.
fn first_places(alloc: Global, props: &[FlowProp]) -> Result<BTreeMap<Text, usize>, NoMemory>
    ensures { IfOk result (λ map. AreFirsts props.now map) }
{
    let mut places = BTreeMap::new(alloc);
    let mut i = props.len();
    while i > 0 {
        i -= 1;
        places.insert(props[i].key.share()?, i)?;
    }
    Ok(places)
}

// The place of a key among those that rise.
fn place_of(props: &[FlowProp], key: &Text) -> Option<usize>
    requires { IsRising (keys_of props.now) }
    ensures { result ≡ place_at props.now key.now }
{
    props.binary_search_by(|p| p.key.cmp(key)).ok()
}

#[tactic(auto, using(crate::proofs::Walks::at_stops, crate::proofs::Walks::at_goes, crate::proofs::Walks::at_ends))]
fn first_place(props: &[FlowProp], key: &Text) -> Option<usize>
    ensures { result ≡ place_at props.now key.now }
{
    for i in 0..props.len() {
        let p = &props[i];
        if is_text(&p.key, key) {
            return Some(i);
        }
    }
    None
}
