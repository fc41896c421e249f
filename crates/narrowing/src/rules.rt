//! Narrowing a type by a test.
ghost use Rattle.std.specs.Prelude.{◌≡◌, ◌++◌, ◌||◌, Option, OnOk, IfOk};
ghost use Rattle.std.specs.Option.{option_copied};
ghost use Rattle.type_values.specs.declared.types.FlowType.{out-FlowType};
ghost use Rattle.alias_table.specs.Members.{seen};
ghost use Rattle.alias_members.specs.MembersIn.{members_in};
ghost use Rattle.flow_facts.specs.Properties.{prop_of, read_type};
ghost use Rattle.flow_facts.specs.Narrowing.{rule_of, prop_cell, on_prop_cell, left_of, left_by, is_change, changes, narrowed};

use crate::cells;
use alias_members::members_of;
use alias_table::AliasTable;
use flow_facts::{Cell, Test};
use flow_values::{List, NoMemory, Text};
use std::alloc::Global;
use type_terms::{eff, join};
use type_values::{FlowProp, FlowType};

// The first property with this key.
fn find_prop<'a>(props: &'a [FlowProp], key: &Text) -> Option<&'a FlowProp>
    ensures { option_copied result ≡ prop_of key.now props.now }
{
    for i in 0..props.len() {
        if props[i].key == *key {
            return Some(&props[i]);
        }
    }
    None
}

// What reading a property gives.
fn read_type(alloc: Global, prop: &FlowProp) -> Result<FlowType, NoMemory>
    ensures { IfOk result (λ t. t ≡ read_type prop.now) }
{
    eff(alloc, prop.optional, &prop.ty)
}

// What is left of a type's members, and whether one of them changed.
#[derive(Drop)]
struct Remains {
    types: List<FlowType>,
    changed: bool,
}

impl Remains {
    // Puts what a cell leaves of a member behind the others.
    fn add(&mut self, cell: Cell, t: &FlowType) -> Result<(), NoMemory>
        ensures types { OnOk result (self.new.types ≡ self.old.types ++ left_of cell t.now) }
        ensures changed { OnOk result (self.new.changed ≡ (self.old.changed || is_change cell)) }
    {
        match cell {
            Cell::Stays => self.types.push(t.share()?),
            Cell::Gone => {
                self.changed = true;
                Ok(())
            }
            Cell::Becomes(u) => {
                self.changed = true;
                self.types.push(u)
            }
        }
    }
}

#[cycle(rules)]
fn cell(test: &Test, alloc: Global, table: &AliasTable, t: &FlowType) -> Result<Cell, NoMemory>
    ensures { IfOk result (λ cell. cell ≡ rule_of (members_in table.now) test.now t.now) }
{
    match test {
        Test::Truthy => Ok(cells::truthy(t)),
        Test::Falsy => Ok(cells::falsy(t)),
        Test::IsNull => Ok(cells::is_null(t)),
        Test::NotNull => Ok(cells::not_null(t)),
        Test::IsVoid => Ok(cells::is_void(t)),
        Test::NotVoid => Ok(cells::not_void(t)),
        Test::Nullish => cells::nullish(alloc, t),
        Test::NotNullish => Ok(cells::not_nullish(t)),
        Test::IsLit(lit) => cells::is_lit(lit, t),
        Test::NotLit(lit) => cells::not_lit(lit, t),
        Test::Typeof(kind) => Ok(cells::is_kind(kind, t)),
        Test::NotTypeof(kind) => Ok(cells::not_kind(kind, t)),
        Test::OnProp { key, test } => on_prop(test.get(), key, alloc, table, t),
    }
}

#[cycle(rules)]
fn on_prop(
    test: &Test,
    key: &Text,
    alloc: Global,
    table: &AliasTable,
    t: &FlowType,
) -> Result<Cell, NoMemory>
    ensures { IfOk result (λ cell. cell ≡ on_prop_cell (members_in table.now) key.now (rule_of (members_in table.now) test.now) (out-FlowType t.now)) }
{
    match t {
        FlowType::Object { props, .. } => match find_prop(props.as_slice(), key) {
            Some(prop) => on_found(test, alloc, table, prop),
            None => Ok(Cell::Stays),
        },
        _ => Ok(Cell::Stays),
    }
}

#[cycle(rules)]
fn on_found(
    test: &Test,
    alloc: Global,
    table: &AliasTable,
    prop: &FlowProp,
) -> Result<Cell, NoMemory>
    ensures { IfOk result (λ cell. cell ≡ prop_cell (members_in table.now) (rule_of (members_in table.now) test.now) (Option.Some prop.now)) }
{
    let read = read_type(alloc, prop)?;
    let all = members_of(alloc, table, &read)?;
    let left = left(test, alloc, table, all.as_slice())?;
    if left.types.is_empty() {
        return Ok(Cell::Gone);
    }
    Ok(Cell::Stays)
}

#[cycle(rules)]
fn left(
    test: &Test,
    alloc: Global,
    table: &AliasTable,
    all: &[&FlowType],
) -> Result<Remains, NoMemory>
    ensures types { IfOk result (λ left. left.types ≡ left_by (rule_of (members_in table.now) test.now) (seen all.now)) }
    ensures changed { IfOk result (λ left. left.changed ≡ changes (rule_of (members_in table.now) test.now) (seen all.now)) }
{
    let mut left = Remains {
        types: List::new(alloc),
        changed: false,
    };
    for i in 0..all.len() {
        let cell = cell(test, alloc, table, all[i])?;
        left.add(cell, all[i])?;
    }
    Ok(left)
}

/// A type narrowed by a test. Each member is replaced by what the test makes of it, and what is
/// left is joined; where no member changes, it is the type itself.
///
/// # Errors
///
/// `NoMemory` where memory is refused.
pub fn narrow(
    alloc: Global,
    table: &AliasTable,
    t: &FlowType,
    test: &Test,
) -> Result<FlowType, NoMemory>
    ensures { IfOk result (λ narrow. narrow ≡ narrowed (members_in table.now) test.now t.now) }
{
    let all = members_of(alloc, table, t)?;
    let left = left(test, alloc, table, all.as_slice())?;
    if left.changed {
        return join(alloc, left.types.as_slice());
    }
    t.share()
}
