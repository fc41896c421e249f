// The names that are reached through aliases.
ghost use Rattle.std.specs.Prelude.{◌≡◌, ◌<◌, ◌+◌, ◌++◌, ◌∷◌, ◌↔◌, [], List, ℕ, length, IsTrue, OnOk, IfOk};
ghost use Rattle.std.specs.Ordering.{nat_cmp};
ghost use Rattle.std.specs.Cmp.Lexicographic.{slice_cmp};
ghost use Rattle.std.specs.BTreeSet.{contains};
ghost use Rattle.check_values.specs.Rows.{row_at};
ghost use Rattle.local_signatures.specs.LocalSignature.{led_to_by};
ghost use Rattle.told_signature.specs.Reaching.{IsReachedFrom, Reaches, unread};

use crate::naming::add_names;
use flow_values::{NoMemory, Text};
use std::alloc::Global;
use std::collections::{BTreeMap, BTreeSet};
use type_values::FlowType;

// Puts the names in the type of an alias behind those that wait; a name that is no alias has none.
#[tactic(auto, using(named_rows::proofs::FirstRows::lookup_is_row, crate::proofs::Search::no_alias))]
fn lead_on(
    aliases: &BTreeMap<Text, FlowType>,
    word: &Text,
    waiting: &mut Vec<Text>,
) -> Result<(), NoMemory>
    ensures { OnOk result (waiting.new.items ≡ waiting.old.items ++ led_to_by (row_at aliases.now.entries word.now)) }
{
    match aliases.get(word) {
        Some(ty) => add_names(ty, waiting),
        None => Ok(()),
    }
}

// Reaches a name: those in its type wait, where it is an alias that was not reached before.
#[tactic(auto, using(crate::proofs::Search::met_again, crate::proofs::Search::met_first, crate::proofs::Search::again_falls, crate::proofs::Search::first_falls))]
fn visit(
    aliases: &BTreeMap<Text, FlowType>,
    word: Text,
    names: &mut BTreeSet<Text>,
    waiting: &mut Vec<Text>,
) -> Result<(), NoMemory>
    ensures reaches { OnOk result ((starts : List (List ℕ)) → Reaches aliases.now.entries starts (contains (slice_cmp nat_cmp) names.old) (waiting.old.items ++ word ∷ []) → Reaches aliases.now.entries starts (contains (slice_cmp nat_cmp) names.new) waiting.new.items) }
    ensures falls { OnOk result (unread (contains (slice_cmp nat_cmp) names.new) aliases.now.entries + length waiting.new.items < unread (contains (slice_cmp nat_cmp) names.old) aliases.now.entries + length (waiting.old.items ++ word ∷ [])) }
{
    if names.contains(&word) {
        return Ok(());
    }
    lead_on(aliases, &word, waiting)?;
    names.insert(word)?;
    Ok(())
}

/// The names that are reached: those to start from, and with each alias the names in its type.
#[tactic(auto, using(crate::proofs::Search::begins, crate::proofs::Search::ends))]
pub fn reached(
    alloc: Global,
    aliases: &BTreeMap<Text, FlowType>,
    starts: Vec<Text>,
) -> Result<BTreeSet<Text>, NoMemory>
    ensures { IfOk result (λ names. (word : List ℕ) → IsTrue (contains (slice_cmp nat_cmp) names word) ↔ IsReachedFrom aliases.now.entries starts.items word) }
{
    let mut waiting = starts;
    let mut names = BTreeSet::new(alloc);
    while let Some(word) = waiting.pop() {
        visit(aliases, word, &mut names, &mut waiting)?;
    }
    Ok(names)
}
