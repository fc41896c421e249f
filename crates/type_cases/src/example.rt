//! One place, step by step.
use alias_table::AliasTable;
use flow_facts::{Place, Test};
use flow_values::{List, NoMemory, Path, Shared, Text};
use refine_flow::Facts;
use std::alloc::Global;
use type_terms::show;
use type_values::FlowType;

// `null | void | number`
fn maybe_number(alloc: Global) -> Result<FlowType, NoMemory> {
    let mut all = List::new(alloc);
    all.push(FlowType::Null)?;
    all.push(FlowType::Void)?;
    all.push(FlowType::Number)?;
    Ok(FlowType::Union(Shared::new(alloc, all)?))
}

/// The types of a place that was narrowed, then assigned `null` behind a mark, then taken back to the
/// mark, and then joined with the facts before that.
pub(crate) fn types(alloc: Global) -> Result<Vec<Text>, NoMemory> {
    let rows: Vec<(Path, Text, FlowType)> = Vec::new(alloc);
    let table = AliasTable::build(alloc, rows.as_slice())?;
    let declared = maybe_number(alloc)?;
    let place = Place {
        prop: None,
        binding: 1,
    };
    let mut types = Vec::new(alloc);
    let mut facts = Facts::new(alloc);
    facts.assume(&table, &place, &declared, &Test::NotNullish)?;
    types.push(show(alloc, &facts.type_at(&place, &declared)?)?)?;
    let mark = facts.mark()?;
    facts.assign(&table, &place, &declared, &FlowType::Null)?;
    types.push(show(alloc, &facts.type_at(&place, &declared)?)?)?;
    let Ok(before) = facts.back(mark) else {
        return Err(NoMemory);
    };
    types.push(show(alloc, &facts.type_at(&place, &declared)?)?)?;
    facts.join(&before)?;
    types.push(show(alloc, &facts.type_at(&place, &declared)?)?)?;
    Ok(types)
}
