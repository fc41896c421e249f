// The faults of a signature: the exports whose types no annotation tells.
ghost use Rattle.std.specs.Prelude.{◌≡◌, map, OnOk, IfOk, slice_index_or};
ghost use Rattle.std.specs.List.{flat_map};
ghost use Rattle.check_values.specs.FaultOrder.{faults_in_order};
ghost use Rattle.local_signatures.specs.Faults.{no_span, fault_of};
ghost use Rattle.named_rows.specs.Seen.{seen};
ghost use Rattle.told_signature.specs.Seen.{told_view, named_in, said_view, place_span, key_fault, put_before};

use crate::telling::{Place, Said, Told};
use check_values::{Code, Fault};
use flow_values::{List, NoMemory, Span, Text, span_at};
use std::alloc::Global;
use std::collections::{BTreeMap, BTreeSet};
use type_values::FlowType;

// A fault by what tells it from the others, in their order: where it begins, where it ends, and the
// name of the export.
type Key = (u32, (u32, Text));

// The span of a place.
fn span_of(spans: &[Span], place: Place) -> Span
    ensures { result ≡ place_span spans.now place }
{
    match place {
        Place::Name(first) if first < spans.len() => span_at(spans, first + 1),
        Place::Name(_) => Span { start: 0, end: 0 },
        Place::Whole(from, to) => Span {
            start: span_at(spans, from).start,
            end: span_at(spans, to.saturating_sub(1)).end,
        },
    }
}

// Puts the fault that a value is, where it tells no type, among others.
fn add_untyped(
    spans: &[Span],
    name: &Text,
    ty: &Option<FlowType>,
    place: Place,
    keys: &mut BTreeSet<Key>,
) -> Result<(), NoMemory>
    ensures { OnOk result (map key_fault keys.new.keys ≡ put_before (fault_of spans.now (name.now, told_view (Told.Value ty.now place))) (map key_fault keys.old.keys)) }
{
    match ty {
        None => {
            let span = span_of(spans, place);
            keys.insert((span.start, (span.end, name.share()?)))?;
            Ok(())
        }
        Some(_) => Ok(()),
    }
}

// Puts the fault that an export is, if it is one, among others.
fn add_fault(
    spans: &[Span],
    name: &Text,
    told: &Told,
    keys: &mut BTreeSet<Key>,
) -> Result<(), NoMemory>
    ensures { OnOk result (map key_fault keys.new.keys ≡ put_before (fault_of spans.now (name.now, told_view told.now)) (map key_fault keys.old.keys)) }
{
    match told {
        Told::Value(ty, place) => add_untyped(spans, name, ty, *place, keys),
        Told::Alias(_) | Told::Import { .. } | Told::Elsewhere { .. } | Told::Nothing => Ok(()),
    }
}

// The same for what an export says.
#[tactic(auto, using(named_rows::proofs::FirstRows::lookup_is_row))]
fn add_said(
    spans: &[Span],
    named: &BTreeMap<Text, Told>,
    name: &Text,
    said: &Said,
    keys: &mut BTreeSet<Key>,
) -> Result<(), NoMemory>
    ensures { OnOk result (map key_fault keys.new.keys ≡ put_before (fault_of spans.now (name.now, said_view (named_in named.now.entries) said.now)) (map key_fault keys.old.keys)) }
{
    match said {
        Said::Own(told) => add_fault(spans, name, told, keys),
        Said::Name(word) => match named.get(*word) {
            Some(told) => add_fault(spans, name, told, keys),
            None => Ok(()),
        },
    }
}

// The faults of all exports.
#[tactic(auto, using(crate::proofs::FaultKeys::faults_next))]
fn keys_of(
    alloc: Global,
    spans: &[Span],
    named: &BTreeMap<Text, Told>,
    exports: &[(Text, Said)],
) -> Result<BTreeSet<Key>, NoMemory>
    ensures { IfOk result (λ keys. map key_fault keys.keys ≡ faults_in_order (flat_map (fault_of spans.now) (seen (said_view (named_in named.now.entries)) exports.now))) }
{
    let mut keys = BTreeSet::new(alloc);
    for i in (0..exports.len()).rev() {
        let row = &exports[i];
        add_said(spans, named, &row.0, &row.1, &mut keys)?;
    }
    Ok(keys)
}

/// The faults of a local signature, in order: the `exports` whose types no annotation tells, by their
/// names. `named` has what each name of the module tells as a value, and `spans` the span of each of
/// the module's tokens, in order; a fault stands at the bytes of its tokens.
///
/// # Errors
///
/// `NoMemory` where memory is refused.
pub fn faults(
    alloc: Global,
    spans: &[Span],
    named: &BTreeMap<Text, Told>,
    exports: &[(Text, Said)],
) -> Result<List<Fault>, NoMemory>
    ensures { IfOk result (λ faults. faults ≡ faults_in_order (flat_map (fault_of spans.now) (seen (said_view (named_in named.now.entries)) exports.now))) }
{
    let mut keys = keys_of(alloc, spans, named, exports)?;
    let mut faults = List::new(alloc);
    while let Some((start, (end, details))) = keys.pop_first() {
        faults.push(Fault {
            span: Span { start, end },
            code: Code::SignatureVerificationFailure,
            details,
        })?;
    }
    Ok(faults)
}
