//! Which merged signatures are new or differ.
ghost use Rattle.std.specs.Prelude.{◌≡◌, ◌<◌, ◌+◌, ◌↔◌, ℕ, All, IfOk, IsTrue, length, map, Some, true, false};
ghost use Rattle.graph_search.specs.Cycles.{IsOn};
ghost use Rattle.recheck_merging.specs.Still.{AreOld};
ghost use Rattle.recheck_sources.specs.Parts.{TellsOthers};
ghost use Rattle.recheck_reach.specs.Moved.{IsSameOutside, IsOld, AreTold};

use check_values::Sig;
use flow_values::{NoMemory, Shared};
use signature_equality::same_sig;
use std::alloc::Global;

// Whether a signature is new, or differs from that of the old number. One that is known to be the old one is not compared.
#[tactic(auto, using(crate::proofs::Moved::known_old, crate::proofs::Moved::never_old, crate::proofs::Moved::missing_old, crate::proofs::Moved::compared_old))]
fn has_moved(was: &[Shared<Sig>], number: Option<u32>, signature: &Sig, is_same: bool) -> bool
    requires { is_same ≡ true → IsOld was.now number signature.now }
    ensures { (result ≡ false) ↔ IsOld was.now number signature.now }
{
    if is_same {
        return false;
    }
    let Some(number) = number else {
        return true;
    };
    match was.get(number as usize) {
        Some(old) => !same_sig(old.get(), signature),
        None => true,
    }
}

// Tells of one more merged module whether its signature moved.
#[tactic(auto, using(crate::proofs::Moved::merged_low, crate::proofs::Moved::told_more))]
fn tell_moved(
    was: &[Shared<Sig>],
    from: &[Option<u32>],
    merged: &[u32],
    signatures: &[Shared<Sig>],
    same: &[bool],
    i: usize,
    moved: &mut Vec<bool>,
)
    requires within { All (λ x. x < length signatures.now) merged.now }
    requires many { length from.now ≡ length signatures.now }
    requires same { AreOld was.now from.now (map Some signatures.now) same.now }
    requires low { i < length merged.now }
    requires told { AreTold was.now from.now signatures.now merged.now i moved.old.items }
    ensures { AreTold was.now from.now signatures.now merged.now (i + 1) moved.new.items }
{
    let x = merged[i] as usize;
    let signature = &signatures[x];
    moved[x] = has_moved(was, from[x], signature.get(), same[x]);
}

/// For each module whether its merged signature is new or differs. `from` has for each module the number that it had, if it had one,
/// and `was` the signature of each old number; outside of `merged` the signatures are the old ones, and only those of `merged` are
/// compared of which `same` doesn't say that they are.
///
/// # Errors
///
/// `NoMemory` where memory is refused.
#[tactic(auto, using(crate::proofs::Moved::none_told, crate::proofs::Moved::all_told))]
pub fn moved_signatures(
    alloc: Global,
    was: &[Shared<Sig>],
    from: &[Option<u32>],
    merged: &[u32],
    signatures: &[Shared<Sig>],
    same: &[bool],
) -> Result<Vec<bool>, NoMemory>
    requires within { All (λ x. x < length signatures.now) merged.now }
    requires many { length from.now ≡ length signatures.now }
    requires same { AreOld was.now from.now (map Some signatures.now) same.now }
    requires rest { IsSameOutside was.now from.now merged.now signatures.now }
    ensures { IfOk result (λ moved. TellsOthers was.now from.now signatures.now moved.items) }
{
    let mut moved = vec![in alloc; false; signatures.len()]?;
    for i in 0..merged.len() {
        tell_moved(was, from, merged, signatures, same, i, &mut moved);
    }
    Ok(moved)
}

/// Whether any signature moved. Where none did, the modules that are to be checked are the changed ones.
pub fn any_moved(moved: &[bool]) -> bool
    ensures { IsTrue result ↔ ((x : ℕ) × IsOn moved.now x) }
{
    for x in 0..moved.len() {
        if moved[x] {
            return true;
        }
    }
    false
}
