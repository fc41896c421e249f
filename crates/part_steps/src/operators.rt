//! Operators of numbers and strings, and comparisons.
ghost use Rattle.std.specs.Prelude.{◌≡◌, ◌∷◌, [], OnOk, IfOk};
ghost use Rattle.check_world.specs.View.{world_view, notes_view};
ghost use Rattle.code_tree.specs.Flat.{operator_view};
ghost use Rattle.type_values.specs.declared.types.FlowType as made;
ghost use Rattle.type_terms.specs.Join.{is_any};
ghost use Rattle.typing.specs.Forms.{both_below, number_asked, may_compare, compare_asked, sum_type};
ghost use Rattle.part_steps.specs.Operators.{type_of_operator, asked_by_operator, type_of_sum, asked_by_sum};

use crate::tokens::next;
use check_values::Code;
use check_world::{Notes, World};
use code_tree::Operator;
use flow_values::{List, NoMemory, Shared};
use type_terms::brief;
use type_values::FlowType;

/// Arithmetic asks a number of what stands at these tokens.
///
/// # Errors
///
/// `NoMemory` where memory is refused.
pub fn ask_number(
    world: &World<'_>,
    first: usize,
    end: usize,
    ty: &FlowType,
    notes: &mut Notes,
) -> Result<(), NoMemory>
    ensures { OnOk result (notes_view notes.new ≡ number_asked (world_view world.now) first end ty.now (notes_view notes.old)) }
{
    if world.is_below(ty, &FlowType::Number)? {
        return Ok(());
    }
    let details = brief(world.alloc, ty)?;
    notes.add_fault(world.fault(first, end, Code::UnsafeArithmetic, details))
}

// Both types are below a third one.
fn both_below(world: &World<'_>, a: &FlowType, b: &FlowType, t: &FlowType) -> Result<bool, NoMemory>
    ensures { IfOk result (λ yes. yes ≡ both_below (world_view world.now) a.now b.now t.now) }
{
    Ok(world.is_below(a, t)? && world.is_below(b, t)?)
}

// Both are numbers, or both are strings.
fn may_compare(world: &World<'_>, a: &FlowType, b: &FlowType) -> Result<bool, NoMemory>
    ensures { IfOk result (λ yes. yes ≡ may_compare (world_view world.now) a.now b.now) }
{
    Ok(both_below(world, a, b, &FlowType::Number)? || both_below(world, a, b, &FlowType::Str)?)
}

// A comparison at these tokens is asked to be one of numbers or of strings.
fn ask_comparison(
    world: &World<'_>,
    tokens: (usize, usize),
    a: &FlowType,
    b: &FlowType,
    notes: &mut Notes,
) -> Result<(), NoMemory>
    ensures { OnOk result (notes_view notes.new ≡ compare_asked (world_view world.now) tokens.0 tokens.1 a.now b.now (notes_view notes.old)) }
{
    if may_compare(world, a, b)? {
        return Ok(());
    }
    let details = world.two_types(a, b)?;
    notes.add_fault(world.fault(tokens.0, tokens.1, Code::InvalidCompare, details))
}

// `number | string`
fn number_or_string(world: &World<'_>) -> Result<FlowType, NoMemory>
    ensures { IfOk result (λ t. t ≡ made.Union (made.Number ∷ made.Str ∷ [])) }
{
    let mut all = List::new(world.alloc);
    all.push(FlowType::Number)?;
    all.push(FlowType::Str)?;
    Ok(FlowType::Union(Shared::new(world.alloc, all)?))
}

// The type of a sum, if there is one.
fn sum_type(world: &World<'_>, a: &FlowType, b: &FlowType) -> Result<Option<FlowType>, NoMemory>
    ensures { IfOk result (λ sum. sum ≡ sum_type (world_view world.now) a.now b.now) }
{
    if is_any(a) || is_any(b) {
        return Ok(Some(FlowType::Any));
    }
    if both_below(world, a, b, &FlowType::Number)? {
        return Ok(Some(FlowType::Number));
    }
    let wide = number_or_string(world)?;
    if both_below(world, a, b, &wide)? {
        return Ok(Some(FlowType::Str));
    }
    Ok(None)
}

fn is_any(t: &FlowType) -> bool
    ensures { result ≡ is_any t.now }
{
    matches!(t, FlowType::Any)
}

// The type of a sum at these tokens; one of other types is a fault and `any`.
fn sum(
    world: &World<'_>,
    tokens: (usize, usize),
    a: &FlowType,
    b: &FlowType,
    notes: &mut Notes,
) -> Result<FlowType, NoMemory>
    ensures ty { IfOk result (λ t. t ≡ type_of_sum (sum_type (world_view world.now) a.now b.now)) }
    ensures notes { OnOk result (notes_view notes.new ≡ asked_by_sum (world_view world.now) tokens.0 tokens.1 a.now b.now (sum_type (world_view world.now) a.now b.now) (notes_view notes.old)) }
{
    if let Some(sum) = sum_type(world, a, b)? {
        return Ok(sum);
    }
    let details = world.two_types(a, b)?;
    notes.add_fault(world.fault(tokens.0, tokens.1, Code::UnsafeArithmetic, details))?;
    Ok(FlowType::Any)
}

/// The type of an operator that is none of `&&`, `||` and `??`, whose chain begins at a token, whose
/// left side ends at a second one, and whose right side ends at a third one.
///
/// # Errors
///
/// `NoMemory` where memory is refused.
pub fn operator_type(
    world: &World<'_>,
    operator: Operator,
    tokens: (usize, usize, usize),
    a: &FlowType,
    b: &FlowType,
    notes: &mut Notes,
) -> Result<FlowType, NoMemory>
    ensures ty { IfOk result (λ t. t ≡ type_of_operator (world_view world.now) (operator_view operator) a.now b.now) }
    ensures notes { OnOk result (notes_view notes.new ≡ asked_by_operator (world_view world.now) tokens.0 tokens.1 tokens.2 (operator_view operator) a.now b.now (notes_view notes.old)) }
{
    let (first, at, end) = tokens;
    match operator {
        Operator::Less | Operator::Greater | Operator::LessOrEqual | Operator::GreaterOrEqual => {
            ask_comparison(world, (first, end), a, b, notes)?;
            Ok(FlowType::Boolean)
        }
        Operator::Add => sum(world, (first, end), a, b, notes),
        Operator::Subtract | Operator::Multiply | Operator::Divide | Operator::Remainder => {
            ask_number(world, first, at, a, notes)?;
            ask_number(world, next(at)?, end, b, notes)?;
            Ok(FlowType::Number)
        }
        Operator::Nullish
        | Operator::Or
        | Operator::And
        | Operator::StrictEqual
        | Operator::StrictNotEqual
        | Operator::LooseEqual
        | Operator::LooseNotEqual => Ok(FlowType::Boolean),
    }
}
