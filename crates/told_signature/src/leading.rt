// The names that exports lead to.
ghost use Rattle.std.specs.Prelude.{◌≡◌, ◌++◌, List, ℕ, OnOk, IfOk};
ghost use Rattle.std.specs.Ordering.{nat_cmp};
ghost use Rattle.std.specs.Cmp.Lexicographic.{slice_cmp};
ghost use Rattle.std.specs.BTreeSet.{contains};
ghost use Rattle.check_values.specs.Rows.{is_among};
ghost use Rattle.local_signatures.specs.Exports.{led_to};
ghost use Rattle.named_rows.specs.Seen.{seen};
ghost use Rattle.told_signature.specs.Seen.{told_view, named_in, said_view};
ghost use Rattle.told_signature.specs.Signing.{led_to_by_all};
ghost use Rattle.told_signature.specs.Leading.{LeadsOn};

use crate::naming::add_names;
use crate::telling::{Said, Told};
use flow_values::{NoMemory, Text};
use std::alloc::Global;
use std::collections::{BTreeMap, BTreeSet};

// Puts the names to which this leads behind others.
fn lead(told: &Told, names: &mut Vec<Text>) -> Result<(), NoMemory>
    ensures { OnOk result (names.new.items ≡ names.old.items ++ led_to (told_view told.now)) }
{
    match told {
        Told::Value(Some(ty), _) => add_names(ty, names),
        Told::Alias(word) | Told::Import { local: word, .. } => {
            names.push(word.share()?)?;
            Ok(())
        }
        Told::Value(None, _) | Told::Elsewhere { .. } | Told::Nothing => Ok(()),
    }
}

// Puts the names to which a name of the module leads behind others.
#[tactic(auto, using(named_rows::proofs::FirstRows::lookup_is_row, crate::proofs::LedNames::no_name))]
fn lead_by_name(
    named: &BTreeMap<Text, Told>,
    word: &Text,
    names: &mut Vec<Text>,
) -> Result<(), NoMemory>
    ensures { OnOk result (names.new.items ≡ names.old.items ++ led_to (named_in named.now.entries word.now)) }
{
    match named.get(word) {
        Some(told) => lead(told, names),
        None => Ok(()),
    }
}

// One export of a name more; where one came before it leads to nothing new.
fn lead_once(
    named: &BTreeMap<Text, Told>,
    word: &Text,
    met: &mut BTreeSet<Text>,
    names: &mut Vec<Text>,
) -> Result<(), NoMemory>
    ensures { OnOk result (LeadsOn (named_in named.now.entries) (named_in named.now.entries word.now) (contains (slice_cmp nat_cmp) met.old) names.old.items (contains (slice_cmp nat_cmp) met.new) names.new.items) }
{
    if !met.insert(word.share()?)? {
        return Ok(());
    }
    lead_by_name(named, word, names)?;
    Ok(())
}

// One export more.
#[tactic(auto, using(crate::proofs::LedNames::own_leads, crate::proofs::LedNames::name_leads))]
fn lead_export(
    named: &BTreeMap<Text, Told>,
    said: &Said,
    met: &mut BTreeSet<Text>,
    names: &mut Vec<Text>,
) -> Result<(), NoMemory>
    ensures { OnOk result (LeadsOn (named_in named.now.entries) (said_view (named_in named.now.entries) said.now) (contains (slice_cmp nat_cmp) met.old) names.old.items (contains (slice_cmp nat_cmp) met.new) names.new.items) }
{
    match said {
        Said::Own(told) => {
            lead(told, names)?;
            Ok(())
        }
        Said::Name(word) => {
            lead_once(named, word, met, names)?;
            Ok(())
        }
    }
}

/// The names that exports lead to. Each name of the module is looked at once, however many exports
/// tell it.
#[tactic(auto, using(crate::proofs::LedNames::none_leads, crate::proofs::LedNames::leads_next))]
pub fn led_to(
    alloc: Global,
    named: &BTreeMap<Text, Told>,
    exports: &[(Text, Said)],
) -> Result<Vec<Text>, NoMemory>
    ensures { IfOk result (λ names. (word : List ℕ) → is_among names.items word ≡ is_among (led_to_by_all (seen (said_view (named_in named.now.entries)) exports.now)) word) }
{
    let mut met = BTreeSet::new(alloc);
    let mut names = Vec::new(alloc);
    for i in 0..exports.len() {
        let row = &exports[i];
        lead_export(named, &row.1, &mut met, &mut names)?;
    }
    Ok(names)
}
