//! Sets of keys.
ghost use Rattle.std.specs.Prelude.{◌≡◌, true, false, OnOk, OnErr};
ghost use Rattle.std.specs.Ordering.{is_eq};
ghost use Rattle.std.specs.BTreeSet.{contains};

use flow_values::NoMemory;
use std::collections::BTreeSet;

// Puts a key into a set, or takes it out.
#[tactic(auto, using(crate::proofs::Kept::same_set))]
pub(crate) fn mark<K: Ord + Copy>(set: &mut BTreeSet<K>, key: K, yes: bool) -> Result<(), NoMemory>
    ensures others { (k : K) → is_eq (K.cmp key k) ≡ false → contains K.cmp set.new k ≡ contains K.cmp set.old k }
    ensures here { OnOk result (yes ≡ true → contains K.cmp set.new key ≡ true) }
    ensures only { OnErr result (yes ≡ true) }
    ensures err { OnErr result ((k : K) → contains K.cmp set.new k ≡ contains K.cmp set.old k) }
{
    if yes {
        set.insert(key)?;
        return Ok(());
    }
    set.remove(&key);
    Ok(())
}
