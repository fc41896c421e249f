//! Numbers for the names of properties.
ghost use Rattle.std.specs.Prelude.{◌≡◌, ℕ, List, Some, None, IfOk};
ghost use Rattle.std.specs.List.{slice_get};
ghost use Rattle.std.specs.Option.{option_copied};
ghost use Rattle.std.specs.Cmp.Lexicographic.{slice_cmp};
ghost use Rattle.std.specs.Ordering.{nat_cmp};
ghost use Rattle.std.specs.BTreeMap.{get};

use flow_values::{NoMemory, Text};
use std::alloc::Global;
use std::collections::BTreeMap;

/// The numbers of names, from 0 on. A name that has one keeps it.
#[derive(Drop)]
pub(crate) struct Names {
    numbers: BTreeMap<Text, usize>,
    // The names by their numbers.
    texts: Vec<Text>,
    ghost told: { (x : List ℕ) (n : ℕ) → get (slice_cmp nat_cmp) numbers x ≡ Some n → slice_get texts.items n ≡ Some x },
    ghost numbered: { (n : ℕ) (x : List ℕ) → slice_get texts.items n ≡ Some x → get (slice_cmp nat_cmp) numbers x ≡ Some n },
}

impl Names {
    ghost use Rattle.refine_flow.specs.Numbers.{number_of, name_of, GrowsNames};

    /// No names. It takes no memory.
    #[tactic(auto, using(crate::proofs::Growing::nothing_told, crate::proofs::Growing::nothing_numbered, crate::proofs::Growing::no_number))]
    pub(crate) fn new(alloc: Global) -> Names
        ensures { (x : List ℕ) → number_of result x ≡ None }
    {
        Names {
            numbers: BTreeMap::new(alloc),
            texts: Vec::new(alloc),
        }
    }

    /// A name's number, if it has one.
    pub(crate) fn number(&self, name: &Text) -> Option<usize>
        ensures { result ≡ number_of self.now name.now }
    {
        self.numbers.get(name).copied()
    }

    /// The name with a number, if there is one.
    pub(crate) fn name(&self, number: usize) -> Option<&Text>
        ensures { option_copied result ≡ name_of self.now number }
    {
        self.texts.get(number)
    }

    /// A name's number, which it is given where it has none.
    ///
    /// # Errors
    ///
    /// `NoMemory` where memory is refused. The numbers then stay.
    pub(crate) fn add(&mut self, name: &Text) -> Result<usize, NoMemory>
        ensures number { IfOk result (λ number. number_of self.new name.now ≡ Some number) }
        ensures grows { GrowsNames self.old self.new }
    {
        match self.number(name) {
            Some(number) => Ok(number),
            None => self.push(name.share()?, name.share()?),
        }
    }

    // Gives a name the next number.
    fn push(&mut self, name: Text, key: Text) -> Result<usize, NoMemory>
        requires none { number_of self.old name ≡ None }
        requires same { key ≡ name }
        ensures number { IfOk result (λ number. number_of self.new name ≡ Some number) }
        ensures grows { GrowsNames self.old self.new }
    {
        let number = self.texts.len();
        self.texts.reserve(1)?;
        self.numbers.insert(key, number)?;
        self.texts.push_reserved(name);
        Ok(number)
    }
}
