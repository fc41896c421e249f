//! The members of a type.
ghost use Rattle.std.specs.Prelude.{◌≡◌, ◌++◌, ◌∷◌, [], List, reverse, MatchOption, OnOk, IfOk};
ghost use Rattle.alias_table.specs.Members.{opened, seen, AreMembers};
ghost use Rattle.alias_members.specs.MembersIn.{members_in};
ghost use Rattle.alias_table.specs.Table.{unfolded};
ghost use Rattle.type_values.specs.declared.types.FlowType.{FlowType};

use alias_table::AliasTable;
use flow_values::{List, NoMemory};
use std::alloc::Global;
use type_values::FlowType;

// Puts the types of a list behind those that wait, the first one last.
fn wait_all<'a>(all: &'a [FlowType], waiting: &mut List<&'a FlowType>) -> Result<(), NoMemory>
    ensures { OnOk result (seen waiting.new ≡ seen waiting.old ++ reverse all.now) }
{
    let mut at = all.len();
    while at > 0 {
        at -= 1;
        waiting.push(&all[at])?;
    }
    Ok(())
}

// Opens a type, or lists it as a member.
fn open_type<'a>(
    table: &'a AliasTable,
    t: &'a FlowType,
    waiting: &mut List<&'a FlowType>,
    found: &mut List<&'a FlowType>,
) -> Result<(), NoMemory>
    ensures { OnOk result (MatchOption (opened (unfolded table.now) t.now)
        ((seen waiting.new ≡ seen waiting.old) × (seen found.new ≡ seen found.old ++ t.now ∷ []))
        (λ inner. (seen waiting.new ≡ seen waiting.old ++ reverse inner) × (seen found.new ≡ seen found.old))) }
{
    match t {
        FlowType::Ref { module, name } => waiting.push(table.unfolding(module, name.as_bytes())),
        FlowType::Union(all) => wait_all(all.as_slice(), waiting),
        FlowType::Empty => Ok(()),
        _ => found.push(t),
    }
}

/// The members of a type, in order, as they lie in the type and the table: what it comes to where
/// names are unfolded and unions are taken apart, outside all other constructors. `empty` has none,
/// and equal ones are all kept. No type is copied or shared.
///
/// # Errors
///
/// `NoMemory` where memory is refused.
pub fn members_of<'a>(
    alloc: Global,
    table: &'a AliasTable,
    t: &'a FlowType,
) -> Result<List<&'a FlowType>, NoMemory>
    ensures { IfOk result (λ all. seen all ≡ members_in table.now t.now) }
{
    let mut waiting = List::new(alloc);
    let mut found = List::new(alloc);
    waiting.push(t)?;
    while let Some(next) = waiting.pop() {
        open_type(table, next, &mut waiting, &mut found)?;
    }
    Ok(found)
}

// The types that references show, shared.
fn share_all(alloc: Global, looks: &[&FlowType]) -> Result<List<FlowType>, NoMemory>
    ensures { IfOk result (λ all. all ≡ seen looks.now) }
{
    let mut all = List::new(alloc);
    for i in 0..looks.len() {
        all.push(looks[i].share()?)?;
    }
    Ok(all)
}

/// The members of a type, as `members_of` finds them, each shared.
///
/// # Errors
///
/// `NoMemory` where memory is refused.
pub fn members(alloc: Global, table: &AliasTable, t: &FlowType) -> Result<List<FlowType>, NoMemory>
    ensures { IfOk result (λ all. all ≡ members_in table.now t.now) }
{
    let found = members_of(alloc, table, t)?;
    share_all(alloc, found.as_slice())
}

/// A law: the list of members that a table gives a type is a list of its members, so unfolding
/// ends in every table, whatever cycles its rows have.
#[tactic(auto, using(crate::proofs::MembersIn::are_members))]
pub fn has_members(table: &AliasTable)
    ensures { (t : FlowType) → AreMembers (unfolded table.now) (t ∷ []) (members_in table.now t) }
{}

/// A law: a type has no other list of members.
#[tactic(auto, using(crate::proofs::MembersIn::one_list))]
pub fn has_one_list_of_members(table: &AliasTable)
    ensures { (t : FlowType) (all : List FlowType) → AreMembers (unfolded table.now) (t ∷ []) all → all ≡ members_in table.now t }
{}
