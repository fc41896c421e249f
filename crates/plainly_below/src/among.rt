//! Members among others.
ghost use Rattle.std.specs.Prelude.{◌≡◌, true, Contains, IfOk};
ghost use Rattle.alias_table.specs.Members.{seen};
ghost use Rattle.subtype_rules.specs.Answer.{below};
ghost use Rattle.type_values.specs.declared.types.FlowType.{FlowType};

use alias_members::members_of;
use alias_table::AliasTable;
use flow_values::NoMemory;
use std::alloc::Global;
use subtype_rules::is_subtype;
use type_values::FlowType;

/// So many members are few: each of them is looked for among all of another type.
const FEW: usize = 16;

// Whether a type is one of these.
fn has(all: &[&FlowType], one: &FlowType) -> bool
    ensures { result ≡ true → Contains (seen all.now) one.now }
{
    for i in 0..all.len() {
        let member = all[i];
        if member.equals(one) {
            return true;
        }
    }
    false
}

// Whether these have each of some types.
fn has_all(all: &[&FlowType], some: &[&FlowType]) -> bool
    ensures { result ≡ true → (x : FlowType) → Contains (seen some.now) x → Contains (seen all.now) x }
{
    for i in 0..some.len() {
        let member = some[i];
        if !has(all, member) {
            return false;
        }
    }
    true
}

// Whether a type has few members, and another type has each of them.
fn is_among(alloc: Global, table: &AliasTable, a: &FlowType, b: &FlowType) -> Result<bool, NoMemory>
    ensures { IfOk result (λ yes. yes ≡ true → below table.now a.now b.now ≡ true) }
{
    let some = members_of(alloc, table, a)?;
    if some.len() > FEW {
        return Ok(false);
    }
    let all = members_of(alloc, table, b)?;
    Ok(has_all(all.as_slice(), some.as_slice()))
}

// Whether a type has other types as members.
fn does_open(t: &FlowType) -> bool {
    matches!(t, FlowType::Ref { .. } | FlowType::Union(_))
}

/// Whether a type is below another one, as `is_subtype` tells it. Where the other one is a name or a union and has each of the
/// type's members, it takes time by their number alone.
///
/// # Errors
///
/// `NoMemory` where memory is refused.
#[tactic(auto, using(crate::proofs::Below::equal_below))]
pub fn is_below(
    alloc: Global,
    table: &AliasTable,
    a: &FlowType,
    b: &FlowType,
) -> Result<bool, NoMemory>
    ensures { IfOk result (λ yes. yes ≡ below table.now a.now b.now) }
{
    if a.equals(b) {
        return Ok(true);
    }
    if does_open(b) && is_among(alloc, table, a, b)? {
        return Ok(true);
    }
    let yes = is_subtype(alloc, table, a, b)?;
    Ok(yes)
}
