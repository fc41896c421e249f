//! The exports of one signature by their names.
ghost use Rattle.std.specs.Prelude.{◌≡◌, IfOk};
ghost use Rattle.std.specs.Option.{option_copied};
ghost use Rattle.check_values.specs.Rows.{row_at};
ghost use Rattle.signature_table.specs.Places.{ArePlaces, value_at};

use check_values::{Export, Sig};
use flow_values::{NoMemory, Shared, Text};
use std::alloc::Global;
use std::collections::BTreeMap;

// The place of the first row of each name.
#[tactic(auto, using(crate::proofs::Placing::none_placed, crate::proofs::Placing::one_placed, crate::proofs::Placing::all_placed))]
fn places_of(alloc: Global, rows: &[(Text, Export)]) -> Result<BTreeMap<Text, usize>, NoMemory>
    ensures { IfOk result (ArePlaces rows.now) }
{
    let mut places = BTreeMap::new(alloc);
    for i in (0..rows.len()).rev() {
        let row = &rows[i];
        places.insert(row.0.share()?, i)?;
    }
    Ok(places)
}

/// The exports of a merged signature, by their names. Of two of one name the first counts.
#[derive(Drop)]
pub struct Exports {
    sig: Shared<Sig>,
    places: BTreeMap<Text, usize>,
    ghost placed: { ArePlaces sig.exports places },
}

impl Exports {
    /// Those of a signature.
    ///
    /// # Errors
    ///
    /// `NoMemory` where memory is refused.
    pub fn of(alloc: Global, sig: &Shared<Sig>) -> Result<Exports, NoMemory>
        ensures { IfOk result (λ exports. exports.sig ≡ sig.now) }
    {
        let places = places_of(alloc, sig.get().exports.as_slice())?;
        Ok(Exports {
            sig: sig.share()?,
            places,
        })
    }

    /// Whether the signature is that of a source that has no tree.
    pub fn is_broken(&self) -> bool
        ensures { result ≡ self.now.sig.broken }
    {
        self.sig.get().broken
    }

    // The export at a place.
    fn at(&self, place: usize) -> Option<&Export>
        ensures { option_copied result ≡ value_at self.now.sig.exports place }
    {
        match self.sig.get().exports.get(place) {
            Some(row) => Some(&row.1),
            None => None,
        }
    }

    /// The export of a name, if there is one.
    #[tactic(auto, using(crate::proofs::Placing::placed_value, crate::proofs::Placing::no_value))]
    pub fn get(&self, name: &Text) -> Option<&Export>
        ensures { option_copied result ≡ row_at self.now.sig.exports name.now }
    {
        match self.places.get(name) {
            Some(place) => self.at(*place),
            None => None,
        }
    }
}
