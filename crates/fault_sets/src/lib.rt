//! Sets of faults, in order.
#![tactic(auto)]

ghost use Rattle.std.specs.Prelude.{◌≡◌, ◌++◌, OnOk, IfOk, map};
ghost use Rattle.check_values.specs.Codes.{code_name};
ghost use Rattle.check_values.specs.FaultOrder.{faults_in_order};
ghost use Rattle.fault_sets.specs.Keys.{put_before, entry_fault, AreNamed};

use check_values::{Code, Fault};
use flow_values::{List, NoMemory, Span, Text};
use std::alloc::Global;
use std::collections::BTreeMap;

// What tells a fault from the others, in their order: where it begins, where it ends, the name of its
// code, and its details.
type Key = (u32, (u32, (Text, Text)));

// What tells a fault from the others.
fn key_of(alloc: Global, fault: &Fault) -> Result<Key, NoMemory>
    ensures { IfOk result (λ key. (key.1.1.0 ≡ code_name fault.now.code) × (entry_fault (key, fault.now.code) ≡ fault.now)) }
{
    let name = Text::from_bytes(alloc, fault.code.name().as_bytes())?;
    let details = fault.details.share()?;
    Ok((fault.span.start, (fault.span.end, (name, details))))
}

// Puts faults before others that are in order.
fn add_all(alloc: Global, faults: &[Fault], keyed: &mut BTreeMap<Key, Code>) -> Result<(), NoMemory>
    requires { AreNamed keyed.old.entries }
    ensures named { OnOk result (AreNamed keyed.new.entries) }
    ensures faults { OnOk result (map entry_fault keyed.new.entries ≡ put_before faults.now (map entry_fault keyed.old.entries)) }
{
    for i in (0..faults.len()).rev() {
        let fault = &faults[i];
        let key = key_of(alloc, fault)?;
        keyed.insert(key, fault.code)?;
    }
    Ok(())
}

// The faults that stand in a map, in order.
fn listed(alloc: Global, keyed: BTreeMap<Key, Code>) -> Result<List<Fault>, NoMemory>
    ensures { IfOk result (λ all. all ≡ map entry_fault keyed.entries) }
{
    let mut keyed = keyed;
    let mut all = List::new(alloc);
    while let Some((key, code)) = keyed.pop_first() {
        let (start, (end, names)) = key;
        let (_, details) = names;
        all.push(Fault {
            span: Span { start, end },
            code,
            details,
        })?;
    }
    Ok(all)
}

/// The set of some faults and more, in order.
///
/// # Errors
///
/// `NoMemory` where memory is refused.
pub fn in_order(alloc: Global, first: &[Fault], more: &[Fault]) -> Result<List<Fault>, NoMemory>
    ensures { IfOk result (λ all. all ≡ faults_in_order (first.now ++ more.now)) }
{
    let mut keyed = BTreeMap::new(alloc);
    add_all(alloc, more, &mut keyed)?;
    add_all(alloc, first, &mut keyed)?;
    listed(alloc, keyed)
}
