//! The join of two types that are joined already.
ghost use Rattle.std.specs.Prelude.{◌≡◌, ◌∷◌, [], ◌++◌, true, false, List, IfOk, if◌then◌else◌};
ghost use Rattle.std.specs.List.{list_any, list_all};
ghost use Rattle.type_values.specs.Order.{is_same};
ghost use Rattle.type_values.specs.declared.types.FlowType.TheVariants as made;
ghost use Rattle.type_terms.specs.Join.{one_of, join_of};
ghost use Rattle.type_joins.specs.Plain.{is_plain, others};

use flow_values::{List, NoMemory, Shared};
use std::alloc::Global;
use type_terms::join;
use type_values::FlowType;

fn is_plain(t: &FlowType) -> bool
    ensures { result ≡ is_plain t.now }
{
    !matches!(t, FlowType::Any | FlowType::Empty | FlowType::Union(_))
}

fn are_plain(all: &[FlowType]) -> bool
    ensures { result ≡ list_all is_plain all.now }
{
    all.iter().all(is_plain)
}

// Whether a type is the same as one of these.
fn has(all: &[FlowType], one: &FlowType) -> bool
    ensures { result ≡ list_any (is_same one.now) all.now }
{
    all.iter().any(|t| one == t)
}

// The union of types, or the only one.
fn one_of(alloc: Global, mut all: List<FlowType>) -> Result<FlowType, NoMemory>
    ensures { IfOk result (λ t. t ≡ one_of all) }
{
    if all.len() > 1 {
        return Ok(FlowType::Union(Shared::new(alloc, all)?));
    }
    match all.pop() {
        Some(only) => Ok(only),
        None => Ok(FlowType::Empty),
    }
}

// A type in front of those that are another one.
#[tactic(auto, using(crate::proofs::Plain::past_one, crate::proofs::Plain::past_same))]
fn in_front(alloc: Global, one: &FlowType, all: &[FlowType]) -> Result<List<FlowType>, NoMemory>
    ensures { IfOk result (λ kept. kept ≡ one.now ∷ others one.now all.now) }
{
    let mut kept = List::new(alloc);
    kept.push(one.share()?)?;
    for i in 0..all.len() {
        let t = &all[i];
        if t == one {
            continue;
        }
        kept.push(t.share()?)?;
    }
    Ok(kept)
}

// Types with one more behind them, unless it is among them.
#[tactic(auto, using(type_terms::proofs::Firsts::take_more_type))]
fn behind(alloc: Global, all: &[FlowType], one: &FlowType) -> Result<List<FlowType>, NoMemory>
    ensures { IfOk result (λ kept. kept ≡ all.now ++ (if list_any (is_same one.now) all.now then [] else one.now ∷ [])) }
{
    let mut kept = List::new(alloc);
    for i in 0..all.len() {
        kept.push(all[i].share()?)?;
    }
    if !has(all, one) {
        kept.push(one.share()?)?;
    }
    Ok(kept)
}

// The join of any two types.
fn join_two(alloc: Global, first: &FlowType, second: &FlowType) -> Result<FlowType, NoMemory>
    ensures { IfOk result (λ t. t ≡ join_of (first.now ∷ second.now ∷ [])) }
{
    let mut both = List::new(alloc);
    both.push(first.share()?)?;
    both.push(second.share()?)?;
    join(alloc, both.as_slice())
}

// The join of two types of which each is its own one part.
#[tactic(auto, using(crate::proofs::Plain::plain_same, crate::proofs::Plain::plain_two))]
fn join_plain(alloc: Global, first: &FlowType, second: &FlowType) -> Result<FlowType, NoMemory>
    requires first { is_plain first.now ≡ true }
    requires second { is_plain second.now ≡ true }
    ensures { IfOk result (λ t. t ≡ join_of (first.now ∷ second.now ∷ [])) }
{
    if second == first {
        return first.share();
    }
    let mut both = List::new(alloc);
    both.push(first.share()?)?;
    both.push(second.share()?)?;
    Ok(FlowType::Union(Shared::new(alloc, both)?))
}

// The join of two types that are no unions.
fn join_single(alloc: Global, first: &FlowType, second: &FlowType) -> Result<FlowType, NoMemory>
    ensures { IfOk result (λ t. t ≡ join_of (first.now ∷ second.now ∷ [])) }
{
    if is_plain(first) && is_plain(second) {
        return join_plain(alloc, first, second);
    }
    join_two(alloc, first, second)
}

// The join of a type and a union of these.
fn join_before(
    alloc: Global,
    one: &FlowType,
    union: &FlowType,
    all: &[FlowType],
) -> Result<FlowType, NoMemory>
    requires union { union.now ≡ made.Union all.now }
    requires settled { join_of (union.now ∷ union.now ∷ []) ≡ union.now }
    ensures { IfOk result (λ t. t ≡ join_of (one.now ∷ union.now ∷ [])) }
{
    if is_plain(one) && are_plain(all) {
        let kept = in_front(alloc, one, all)?;
        let joined = one_of(alloc, kept)?;
        return Ok(joined);
    }
    join_two(alloc, one, union)
}

// The join of a union of these and a type.
fn join_behind(
    alloc: Global,
    union: &FlowType,
    all: &[FlowType],
    one: &FlowType,
) -> Result<FlowType, NoMemory>
    requires union { union.now ≡ made.Union all.now }
    requires settled { join_of (union.now ∷ union.now ∷ []) ≡ union.now }
    ensures { IfOk result (λ t. t ≡ join_of (union.now ∷ one.now ∷ [])) }
{
    if is_plain(one) && are_plain(all) {
        let kept = behind(alloc, all, one)?;
        let joined = one_of(alloc, kept)?;
        return Ok(joined);
    }
    join_two(alloc, union, one)
}

/// The join of two types, each of which is its own join with itself. Where one of them is a union and the
/// other one is not, it takes time by the number of the union's members.
///
/// # Errors
///
/// `NoMemory` where memory is refused.
pub fn join_settled(
    alloc: Global,
    first: &FlowType,
    second: &FlowType,
) -> Result<FlowType, NoMemory>
    requires first { join_of (first.now ∷ first.now ∷ []) ≡ first.now }
    requires second { join_of (second.now ∷ second.now ∷ []) ≡ second.now }
    ensures { IfOk result (λ t. t ≡ join_of (first.now ∷ second.now ∷ [])) }
{
    match second {
        FlowType::Union(all) => join_before(alloc, first, second, all.as_slice()),
        _ => match first {
            FlowType::Union(all) => join_behind(alloc, first, all.as_slice(), second),
            _ => join_single(alloc, first, second),
        },
    }
}
