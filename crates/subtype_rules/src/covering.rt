//! Unions that have all members of another one.
ghost use Rattle.std.specs.Prelude.{◌≡◌, true, Contains, IfOk};
ghost use Rattle.type_values.specs.declared.types.FlowType.{FlowType};
ghost use Rattle.alias_table.specs.Aliases.{Key};
ghost use Rattle.subtyping.specs.Closed.{IsBelow};

use flow_values::NoMemory;
use std::alloc::Global;
use std::collections::BTreeMap;
use type_values::FlowType;

// The places of types in a list, by their order. What it tells is tried before it is believed.
fn places(alloc: Global, all: &[FlowType]) -> Result<BTreeMap<FlowType, usize>, NoMemory> {
    let mut places = BTreeMap::new(alloc);
    for k in 0..all.len() {
        places.insert(all[k].share()?, k)?;
    }
    Ok(places)
}

fn is_at(all: &[FlowType], k: usize, x: &FlowType) -> bool
    ensures { result ≡ true → Contains all.now x.now }
{
    if k >= all.len() {
        return false;
    }
    let y = &all[k];
    y.equals(x)
}

fn has_member(places: &BTreeMap<FlowType, usize>, all: &[FlowType], x: &FlowType) -> bool
    ensures { result ≡ true → Contains all.now x.now }
{
    match places.get(x) {
        Some(k) => is_at(all, *k, x),
        None => false,
    }
}

fn has_members(alloc: Global, all: &[FlowType], some: &[FlowType]) -> Result<bool, NoMemory>
    ensures { IfOk result (λ yes. yes ≡ true → (x : FlowType) → Contains some.now x → Contains all.now x) }
{
    let places = places(alloc, all)?;
    for i in 0..some.len() {
        let x = &some[i];
        if !has_member(&places, all, x) {
            return Ok(false);
        }
    }
    Ok(true)
}

/// Whether both are unions, and b has each member of a.
pub(crate) fn is_covered(alloc: Global, a: &FlowType, b: &FlowType) -> Result<bool, NoMemory>
    ensures { IfOk result (λ yes. yes ≡ true → (named : Key → FlowType) → ((x : FlowType) → IsBelow named x x) → IsBelow named a.now b.now) }
{
    match (a, b) {
        (FlowType::Union(some), FlowType::Union(all)) => {
            let yes = has_members(alloc, all.as_slice(), some.as_slice())?;
            Ok(yes)
        }
        _ => Ok(false),
    }
}
