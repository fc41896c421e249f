//! The facts on properties.
ghost use Rattle.std.specs.Prelude.{◌≡◌, ◌<◌, ◌+◌, ◌^◌, ℕ, true, false, Some, None, MatchOption, OnOk, OnErr, IfOk, IfErr, IsTrue, ◌↔◌, if◌then◌else◌};
ghost use Rattle.std.specs.Option.{option_copied, is_some, IfSome, IfNone};
ghost use Rattle.std.specs.BTreeMap.{btree_map_len, get};
ghost use Rattle.std.specs.BTreeSet.{contains, btree_set_len};
ghost use Rattle.std.specs.BTreeMap.Range.{IsLeBy, IsLtBy};
ghost use Rattle.fact_trail.specs.declared.slot.Slot.TheVariants.{Property};
ghost use Rattle.fact_trail.specs.Slots.{Key, is_key, is_other_named, key_cmp, turned_cmp, turn, at_key, is_rough_at};

use crate::marks::mark;
use crate::slot::Turned;
use crate::{Fact, Key};
use flow_values::NoMemory;
use std::alloc::Global;
use std::collections::{BTreeMap, BTreeSet};
use std::ops::Bound;

/// The facts on properties.
#[derive(Drop)]
pub struct Properties {
    rows: BTreeMap<Key, Fact>,
    // Those that have facts are all here.
    turned: BTreeSet<Turned>,
    // Those whose facts are rough are all here.
    rough: BTreeSet<Key>,
    ghost turned_too: { (k : Key) → is_some (get key_cmp rows k) ≡ true → contains turned_cmp turned (turn k) ≡ true },
    ghost rough_too: { (k : Key) → is_rough_at (get key_cmp rows k) ≡ true → contains key_cmp rough k ≡ true },
}

fn turn(key: Key) -> Turned
    ensures { result ≡ turn key }
{
    Turned {
        binding: key.binding,
        name: key.name,
    }
}

impl Properties {
    ghost use Rattle.fact_trail.specs.Rows.{properties_of};

    #[tactic(auto, using(crate::proofs::Kept::turned_none, crate::proofs::Kept::rough_none))]
    pub(crate) fn new(alloc: Global) -> Properties
        ensures facts { (k : Key) → properties_of result k ≡ None }
        ensures len { btree_map_len result.rows ≡ 0 }
    {
        Properties {
            rows: BTreeMap::new(alloc),
            turned: BTreeSet::new(alloc),
            rough: BTreeSet::new(alloc),
        }
    }

    /// The same facts.
    ///
    /// # Errors
    ///
    /// `NoMemory` where memory is refused, or a part of a type has 2^63 - 1 owners.
    #[tactic(auto)]
    pub(crate) fn copy(&self) -> Result<Properties, NoMemory>
        ensures facts { IfOk result (λ copy. properties_of copy ≡ properties_of self.now) }
        ensures len { IfOk result (λ copy. btree_map_len copy.rows ≡ btree_map_len self.now.rows) }
    {
        let rows = self.rows.clone()?;
        let turned = self.turned.clone()?;
        let rough = self.rough.clone()?;
        Ok(Properties {
            rows,
            turned,
            rough,
        })
    }

    // The number of facts.
    pub(crate) fn len(&self) -> usize
        ensures len { result ≡ btree_map_len self.now.rows }
        ensures small { result < 2 ^ 63 }
    {
        self.rows.len()
    }

    // Whether there is no fact.
    pub(crate) fn is_empty(&self) -> bool
        ensures { IsTrue result ↔ (btree_map_len self.now.rows ≡ 0) }
    {
        self.rows.is_empty()
    }

    /// The fact at a key.
    pub fn get(&self, key: &Key) -> Option<&Fact>
        ensures { option_copied result ≡ properties_of self.now key.now }
    {
        self.rows.get(key)
    }

    /// Sets the fact at a key, and gives the one before it. Where memory is refused, the fact comes
    /// back. It is only for a key without a fact, and for a rough one.
    pub(crate) fn insert(&mut self, key: Key, fact: Fact) -> Result<Option<Fact>, Fact>
        ensures facts { OnOk result (properties_of self.new ≡ at_key key (Some fact) (properties_of self.old)) }
        ensures was { IfOk result (λ was. was ≡ properties_of self.old key) }
        ensures err { OnErr result (properties_of self.new ≡ properties_of self.old) }
        ensures back { IfErr result (λ back. back ≡ fact) }
        ensures kept { OnErr result (fact.rough ≡ false → properties_of self.old key ≡ None) }
        ensures len { IfOk result (λ was. btree_map_len self.new.rows ≡ btree_map_len self.old.rows + (if is_some was then 0 else 1)) }
        ensures err_len { OnErr result (btree_map_len self.new.rows ≡ btree_map_len self.old.rows) }
    {
        if self.turned.insert(turn(key)).is_err() {
            return Err(fact);
        }
        if mark(&mut self.rough, key, fact.is_rough()).is_err() {
            return Err(fact);
        }
        match self.rows.insert(key, fact) {
            Ok(before) => Ok(before),
            Err(refused) => Err(refused.value.1),
        }
    }

    /// Drops the fact at a key, and gives it.
    pub(crate) fn remove(&mut self, key: Key) -> Option<Fact>
        ensures facts { properties_of self.new ≡ at_key key None (properties_of self.old) }
        ensures was { result ≡ properties_of self.old key }
        ensures len { btree_map_len self.new.rows + (if is_some result then 1 else 0) ≡ btree_map_len self.old.rows }
        ensures turned { btree_set_len self.new.turned + (if contains turned_cmp self.old.turned (turn key) then 1 else 0) ≡ btree_set_len self.old.turned }
    {
        self.rough.remove(&key);
        self.turned.remove(&turn(key));
        self.rows.remove(&key)
    }

    /// Takes one of the facts out, with its key.
    #[tactic(auto, using(crate::proofs::Kept::turned_less, crate::proofs::Kept::rough_less))]
    pub fn pop(&mut self) -> Option<(Key, Fact)>
        ensures none { IfNone result ((k : Key) → properties_of self.old k ≡ None) }
        ensures was { IfSome result (λ row. properties_of self.old row.0 ≡ Some row.1) }
        ensures facts { IfSome result (λ row. properties_of self.new ≡ at_key row.0 None (properties_of self.old)) }
        ensures fewer { IfSome result (λ row. btree_map_len self.new.rows < btree_map_len self.old.rows) }
    {
        self.rows.pop_first()
    }

    /// The first key with this name and a fact.
    pub(crate) fn named(&self, name: usize) -> Option<Key>
        ensures { MatchOption result ((k : Key) → k.name ≡ name → properties_of self.now k ≡ None)
            (λ key. (key.name ≡ name) × (is_some (properties_of self.now key) ≡ true) × ((k : Key) → k.name ≡ name → is_some (properties_of self.now k) ≡ true → IsLeBy key_cmp key k)) }
    {
        let low = Key { name, binding: 0 };
        match self
            .rows
            .range((Bound::Included(low), Bound::Unbounded))
            .next()
        {
            Some((key, _)) => {
                if key.name == name {
                    return Some(*key);
                }
                None
            }
            None => None,
        }
    }

    /// The first key behind this one with its name and a fact.
    fn behind(&self, key: Key) -> Option<Key>
        ensures { MatchOption result ((k : Key) → k.name ≡ key.name → IsLtBy key_cmp key k → properties_of self.now k ≡ None)
            (λ next. (next.name ≡ key.name) × (is_key key next ≡ false) × (is_some (properties_of self.now next) ≡ true)) }
    {
        match self
            .rows
            .range((Bound::Excluded(key), Bound::Unbounded))
            .next()
        {
            Some((next, _)) => {
                if next.name == key.name {
                    return Some(*next);
                }
                None
            }
            None => None,
        }
    }

    /// Another key with the name of this one and a fact.
    pub(crate) fn other(&self, key: Key) -> Option<Key>
        ensures { MatchOption result ((k : Key) → is_other_named key (Property k) ≡ true → properties_of self.now k ≡ None)
            (λ other. (is_other_named key (Property other) ≡ true) × (is_some (properties_of self.now other) ≡ true)) }
    {
        let first = self.named(key.name)?;
        if first != key {
            return Some(first);
        }
        self.behind(key)
    }

    /// A key of this variable, which may have a fact. Where there is none, no property of the
    /// variable has one.
    pub(crate) fn of(&self, binding: u32) -> Option<Key>
        ensures { MatchOption result ((k : Key) → k.binding ≡ binding → properties_of self.now k ≡ None) (λ key. (key.binding ≡ binding) × (contains turned_cmp self.now.turned (turn key) ≡ true)) }
    {
        let low = Turned { binding, name: 0 };
        match self
            .turned
            .range((Bound::Included(low), Bound::Unbounded))
            .next()
        {
            Some(turned) => {
                if turned.binding == binding {
                    return Some(Key {
                        name: turned.name,
                        binding,
                    });
                }
                None
            }
            None => None,
        }
    }

    /// The keys whose facts may be rough.
    pub fn rough(&self) -> &BTreeSet<Key>
        ensures { (k : Key) → is_rough_at (properties_of self.now k) ≡ true → contains key_cmp result.now k ≡ true }
    {
        &self.rough
    }

    /// The keys that have facts.
    pub fn rows(&self) -> &BTreeMap<Key, Fact>
        ensures { (k : Key) → get key_cmp result.now k ≡ properties_of self.now k }
    {
        &self.rows
    }
}
