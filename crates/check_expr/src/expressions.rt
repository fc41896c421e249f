//! Expressions.
#![tactic(auto, using(crate::proofs::Steps::fits_of))]

ghost use Rattle.std.specs.Prelude.{◌≡◌, ◌∷◌, [], ℕ, Bool, map, reverse, None, OnOk, IfOk};
ghost use Rattle.std.specs.Option.{option_copied, option_map};
ghost use Rattle.js_grammar.specs.Code.{elements as elements_form, fields as fields_form, no_arm, more_arm};
ghost use Rattle.code_tree.specs.View.{expr_view, expr_form_view, chain_expr_view, conditional_expr_view, arm_view, arms_view, exprs_view, fields_view, field_form_view};
ghost use Rattle.code_tree.specs.declared.types.Field.{out-Field};
ghost use Rattle.literal_reads.specs.View.{elements_view, entries_view, candidate_view};
ghost use Rattle.typing.specs.Typing.{read, read_form, read_arms, read_elements, read_fields, read_field};
ghost use Rattle.check_world.specs.View.{world_view};
ghost use Rattle.check_moves.specs.View.{around, scope, now, told};
ghost use Rattle.check_moves.specs.Follows.{Follows, Leaves};
ghost use Rattle.expression_moves.specs.Moves.{chosen_view};
ghost use Rattle.typing.specs.Objects.{entries_of};
ghost use Rattle.check_expr.specs.Tests.{Tested};

use crate::bodies::{read_arrow, read_function};
use crate::literals::entries_of;
use crate::operands::{first_want, read_operands};
use crate::postfixes::read_postfix;
use check_moves::{Read, State};
use check_world::World;
use code_tree::{Arm, ChainExpr, ConditionalExpr, Expr, ExprForm, Field, FieldForm};
use expression_moves::{
    Chosen, ask_all, ask_entry, compare_place, element_want, meet_branches, part, prop_read,
    read_prefixes, read_truth, read_variable, whole_array, whole_object,
};
use fact_ways::Fork;
use flow_values::{List, NoMemory};
use literal_reads::{
    Candidate, Elements, Entries, array_type, candidate_for, elements_for, object_type,
};
use part_steps::next;
use place_tests::{compared, number_type, place_in};
use type_values::{FlowProp, FlowType};

/// Reads an expression, plainly or against a type.
///
/// # Errors
///
/// `NoMemory` where memory is refused. The state may only be dropped then.
#[cycle(reading)]
pub fn read<'t>(
    world: &'t World<'_>,
    state: &mut State,
    e: &Expr,
    want: Option<&'t FlowType>,
) -> Result<Read, NoMemory>
    ensures told { IfOk result (λ r. told r state.new ≡ read (world_view world.now) (expr_view e.now) (scope state.old) (option_copied want.entry) (now state.old)) }
    ensures around { OnOk result (around state.new ≡ around state.old) }
    ensures follows { IfOk result (λ r. Follows None state.old r.fork state.new) }
{
    let read = read_form(world, state, &e.form, e.first, e.end, want)?;
    let noted = state.noted(world, e.first, e.end, read)?;
    Ok(noted)
}

#[cycle(reading)]
fn read_form<'t>(
    world: &'t World<'_>,
    state: &mut State,
    form: &ExprForm,
    first: usize,
    end: usize,
    want: Option<&'t FlowType>,
) -> Result<Read, NoMemory>
    ensures told { IfOk result (λ r. told r state.new ≡ read_form (world_view world.now) first end (expr_form_view form.now) (scope state.old) (option_copied want.entry) (now state.old)) }
    ensures around { OnOk result (around state.new ≡ around state.old) }
    ensures follows { IfOk result (λ r. Follows None state.old r.fork state.new) }
{
    match form {
        ExprForm::Paren(inner) => read(world, state, inner.get(), want),
        ExprForm::Conditional(e) => read_conditional(world, state, e, end, want),
        ExprForm::Array { elements, comma: _ } => {
            read_array(world, state, elements.as_slice(), first, end, want)
        }
        ExprForm::Object { fields, comma: _ } => {
            read_object(world, state, fields.as_slice(), first, end, want)
        }
        _ => {
            let read = read_plain(world, state, form, first, end)?;
            let asked = state.against(world, first, end, want, read)?;
            Ok(asked)
        }
    }
}

// A form that is read against no type.
#[cycle(reading)]
fn read_plain(
    world: &World<'_>,
    state: &mut State,
    form: &ExprForm,
    first: usize,
    end: usize,
) -> Result<Read, NoMemory>
    ensures told { IfOk result (λ r. told r state.new ≡ read_form (world_view world.now) first end (expr_form_view form.now) (scope state.old) None (now state.old)) }
    ensures around { OnOk result (around state.new ≡ around state.old) }
    ensures follows { IfOk result (λ r. Follows None state.old r.fork state.new) }
{
    match form {
        ExprForm::Number(digits) => {
            let ty = number_type(digits)?;
            Ok(state.plainly(ty))
        }
        ExprForm::Str(text) => {
            let ty = FlowType::StrLit(text.share()?);
            Ok(state.plainly(ty))
        }
        ExprForm::Truth(value) => read_truth(state, *value),
        ExprForm::Null => Ok(state.plainly(FlowType::Null)),
        ExprForm::Variable(name) => read_variable(world, state, first, end, name),
        ExprForm::Paren(inner) => read(world, state, inner.get(), None),
        ExprForm::Prefix { marks, operand } => {
            let operand = operand.get();
            let read = read(world, state, operand, None)?;
            let marked = read_prefixes(world, state, marks.as_slice(), operand.first, end, read)?;
            Ok(marked)
        }
        ExprForm::Chain(e) => read_chain(world, state, e, first),
        ExprForm::Conditional(e) => read_conditional(world, state, e, end, None),
        ExprForm::Array { elements, comma: _ } => {
            read_array(world, state, elements.as_slice(), first, end, None)
        }
        ExprForm::Object { fields, comma: _ } => {
            read_object(world, state, fields.as_slice(), first, end, None)
        }
        ExprForm::Postfix(e) => read_postfix(world, state, e, first),
        ExprForm::Function(function) => {
            let ty = read_function(world, state, function.get(), true)?;
            Ok(state.plainly(ty))
        }
        ExprForm::Arrow(arrow) => {
            let ty = read_arrow(world, state, arrow.get())?;
            Ok(state.plainly(ty))
        }
    }
}

// A chain that begins at a token.
#[cycle(reading)]
fn read_chain(
    world: &World<'_>,
    state: &mut State,
    e: &ChainExpr,
    first: usize,
) -> Result<Read, NoMemory>
    ensures told { (end : ℕ) → IfOk result (λ r. told r state.new ≡ read_form (world_view world.now) first end (chain_expr_view e.now) (scope state.old) None (now state.old)) }
    ensures around { OnOk result (around state.new ≡ around state.old) }
    ensures follows { IfOk result (λ r. Follows None state.old r.fork state.new) }
{
    let operands = e.operands.as_slice();
    let left = e.left.get();
    let want = first_want(world, operands)?;
    let comparison = compared(&state.scope, left, operands)?;
    let place = place_in(&state.scope, left)?;
    let first_part = read(&*world, state, left, want.as_ref())?;
    let chain = read_operands(world, state, operands, first, place, first_part)?;
    let compared = compare_place(world, state, comparison, chain)?;
    Ok(compared)
}

// A conditional that ends at a token: each branch and all that follows it.
#[cycle(reading)]
fn read_conditional<'t>(
    world: &'t World<'_>,
    state: &mut State,
    e: &ConditionalExpr,
    end: usize,
    want: Option<&'t FlowType>,
) -> Result<Read, NoMemory>
    ensures told { (first : ℕ) → IfOk result (λ r. told r state.new ≡ read_form (world_view world.now) first end (conditional_expr_view e.now) (scope state.old) (option_copied want.entry) (now state.old)) }
    ensures around { OnOk result (around state.new ≡ around state.old) }
    ensures follows { IfOk result (λ r. Follows None state.old r.fork state.new) }
{
    let chosen = read_arms(world, state, e.arms.as_slice(), want)?;
    let last = read(world, state, e.last.get(), want)?;
    let met = meet_branches(world, state, chosen, end, last)?;
    Ok(met)
}

// The branches of a conditional but the last; what follows them is read where each test is falsy.
#[cycle(reading)]
fn read_arms<'t>(
    world: &'t World<'_>,
    state: &mut State,
    arms: &[Arm],
    want: Option<&'t FlowType>,
) -> Result<Vec<Chosen>, NoMemory>
    ensures now { OnOk result (now state.new ≡ (read_arms (world_view world.now) (arms_view arms.now) (scope state.old) (option_copied want.entry) (now state.old)).now) }
    ensures chosen { IfOk result (λ all. map (chosen_view state.new.facts) (reverse all.items) ≡ reverse (read_arms (world_view world.now) (arms_view arms.now) (scope state.old) (option_copied want.entry) (now state.old)).chosen) }
    ensures around { OnOk result (around state.new ≡ around state.old) }
    ensures leaves { IfOk result (λ all. Leaves state.old (map (λ c. c.fork) (reverse all.items)) None state.new) }
{
    let mut chosen = Vec::new(world.alloc);
    for i in 0..arms.len() {
        let arm = read_arm(world, state, &arms[i], want)?;
        chosen.push(arm)?;
    }
    Ok(chosen)
}

/// A test of a branch or of a loop: what follows is read where it is truthy, and what is handed out
/// has the other way.
#[cycle(reading)]
pub(crate) fn read_test(world: &World<'_>, state: &mut State, test: &Expr) -> Result<Fork, NoMemory>
    ensures { IfOk result (λ k. Tested (read (world_view world.now) (expr_view test.now) (scope state.old) None (now state.old)) state.old k state.new) }
{
    let test = read(world, state, test, None)?;
    let way = part(state, true, test.fork)?;
    Ok(way)
}

// A test and its branch; what follows is read where the test is falsy.
#[cycle(reading)]
fn read_arm<'t>(
    world: &'t World<'_>,
    state: &mut State,
    arm: &Arm,
    want: Option<&'t FlowType>,
) -> Result<Chosen, NoMemory>
    ensures now { OnOk result (now state.new ≡ (read_arms (world_view world.now) (more_arm no_arm (arm_view arm.now)) (scope state.old) (option_copied want.entry) (now state.old)).now) }
    ensures chosen { IfOk result (λ c. chosen_view state.new.facts c ∷ [] ≡ (read_arms (world_view world.now) (more_arm no_arm (arm_view arm.now)) (scope state.old) (option_copied want.entry) (now state.old)).chosen) }
    ensures around { OnOk result (around state.new ≡ around state.old) }
    ensures leaves { IfOk result (λ c. Leaves state.old (c.fork ∷ []) None state.new) }
{
    let fork = read_test(world, state, &arm.test)?;
    let branch = read(world, state, &arm.branch, want)?;
    let ty = state.after(branch)?;
    let way = state.turn(fork)?;
    Ok(Chosen {
        first: arm.first,
        ty,
        fork: way,
    })
}

// An array literal at these tokens.
#[cycle(reading)]
fn read_array<'t>(
    world: &'t World<'_>,
    state: &mut State,
    elements: &[Expr],
    first: usize,
    end: usize,
    want: Option<&'t FlowType>,
) -> Result<Read, NoMemory>
    ensures told { (comma : Bool) → IfOk result (λ r. told r state.new ≡ read_form (world_view world.now) first end (elements_form (exprs_view elements.now) comma) (scope state.old) (option_copied want.entry) (now state.old)) }
    ensures around { OnOk result (around state.new ≡ around state.old) }
    ensures follows { IfOk result (λ r. Follows None state.old r.fork state.new) }
{
    let matched = elements_for(world, elements.len(), want)?;
    let types = read_elements(world, state, elements, matched)?;
    let ty = array_type(world.alloc, types.as_slice())?;
    let whole = whole_array(&matched, want);
    let literal = state.plainly(ty);
    let asked = state.against(world, first, end, whole, literal)?;
    Ok(asked)
}

// The elements of an array literal, in order.
#[cycle(reading)]
fn read_elements<'t>(
    world: &'t World<'_>,
    state: &mut State,
    elements: &[Expr],
    matched: Option<Elements<'t>>,
) -> Result<List<FlowType>, NoMemory>
    ensures read { IfOk result (λ types. record { types = types; now = now state.new } ≡ read_elements (world_view world.now) (exprs_view elements.now) (scope state.old) (option_map elements_view matched.entry) (now state.old)) }
    ensures around { OnOk result (around state.new ≡ around state.old) }
    ensures follows { OnOk result (Follows None state.old None state.new) }
{
    let mut types = List::new(world.alloc);
    for i in 0..elements.len() {
        let want = element_want(&matched, i);
        let element = read(world, state, &elements[i], want)?;
        let ty = state.after(element)?;
        types.push(ty)?;
    }
    Ok(types)
}

// An object literal at these tokens.
#[cycle(reading)]
fn read_object<'t>(
    world: &'t World<'_>,
    state: &mut State,
    fields: &[Field],
    first: usize,
    end: usize,
    want: Option<&'t FlowType>,
) -> Result<Read, NoMemory>
    ensures told { (comma : Bool) → IfOk result (λ r. told r state.new ≡ read_form (world_view world.now) first end (fields_form (fields_view fields.now) comma) (scope state.old) (option_copied want.entry) (now state.old)) }
    ensures around { OnOk result (around state.new ≡ around state.old) }
    ensures follows { IfOk result (λ r. Follows None state.old r.fork state.new) }
{
    let entries = entries_of(world.alloc, fields)?;
    let candidate = candidate_for(world, &entries, want)?;
    let props = read_fields(world, state, fields, &entries, candidate.as_ref())?;
    ask_all(world, state, (first, end), &entries, candidate.as_ref())?;
    let ty = object_type(world.alloc, props.as_slice())?;
    let whole = whole_object(&candidate, want);
    let literal = state.plainly(ty);
    let asked = state.against(world, first, end, whole, literal)?;
    Ok(asked)
}

// The properties of an object literal, in order, against a candidate.
#[cycle(reading)]
fn read_fields(
    world: &World<'_>,
    state: &mut State,
    fields: &[Field],
    entries: &Entries,
    candidate: Option<&Candidate<'_>>,
) -> Result<List<FlowProp>, NoMemory>
    requires { entries_view entries.now ≡ entries_of (fields_view fields.now) }
    ensures read { IfOk result (λ props. record { props = props; now = now state.new } ≡ read_fields (world_view world.now) (fields_view fields.now) (scope state.old) (option_map (λ c. candidate_view c.now) candidate.entry) (entries_view entries.now) (now state.old)) }
    ensures around { OnOk result (around state.new ≡ around state.old) }
    ensures follows { OnOk result (Follows None state.old None state.new) }
{
    let rows = entries.rows();
    let mut props = List::new(world.alloc);
    for i in 0..fields.len() {
        let entry = &rows[i];
        let want = ask_entry(world, state, entries, entry, candidate)?;
        let value = read_field(&*world, state, &fields[i], want.as_ref())?;
        let ty = state.after(value)?;
        let prop = prop_read(world.alloc, &entry.name, &ty)?;
        props.push(prop)?;
    }
    Ok(props)
}

// The value of a property; a name alone is a variable.
#[cycle(reading)]
fn read_field<'t>(
    world: &'t World<'_>,
    state: &mut State,
    field: &Field,
    want: Option<&'t FlowType>,
) -> Result<Read, NoMemory>
    ensures told { IfOk result (λ r. told r state.new ≡ read_field (world_view world.now) (out-Field field.now).first (field_form_view (out-Field field.now).form) (scope state.old) (option_copied want.entry) (now state.old)) }
    ensures around { OnOk result (around state.new ≡ around state.old) }
    ensures follows { IfOk result (λ r. Follows None state.old r.fork state.new) }
{
    match &field.form {
        FieldForm::Shorthand(name) => {
            let first = field.first;
            let end = next(first)?;
            let variable = read_variable(world, state, first, end, name)?;
            let asked = state.against(world, first, end, want, variable)?;
            let noted = state.noted(world, first, end, asked)?;
            Ok(noted)
        }
        FieldForm::Valued { key: _, value } => read(world, state, value, want),
    }
}
