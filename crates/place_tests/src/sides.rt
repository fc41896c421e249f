//! The sides of a comparison: a place that it tests, and what the place is compared with.
#![tactic(auto, unfolding(code_tree::specs::View::expr_view, code_tree::specs::View::expr_form_view))]

ghost use Rattle.std.specs.Prelude.{◌≡◌, IfOk, IfSome, IfNone, length, get_or};
ghost use Rattle.std.specs.Option.{option_map};
ghost use Rattle.typing.specs.Tests.{tested_place, tested_kind, tested_in, tested_in_form, with_number, comparison_with, compared_with, compared_with_form};
ghost use Rattle.typing.specs.Forms.{compared};
ghost use Rattle.js_grammar.specs.Code.{no_operand, more_operand, no_prefix, more_prefix};
ghost use Rattle.code_tree.specs.Flat.{operator_view, prefix_view, prefixes_view};
ghost use Rattle.code_tree.specs.View.{expr_view, expr_form_view, operand_view, operand_form_view, operands_view};
ghost use Rattle.scopes.specs.View.{scope_view};
ghost use Rattle.place_tests.specs.Only.{is_kind_of, tested_behind};
ghost use Rattle.place_tests.specs.View.{tested_view, against_view, comparison_view, with_negated, either_side, operator_compared, form_compared};

use crate::comparison::{Against, Comparison, Equality, Tested};
use crate::literal::is_type_number;
use crate::place::{place_in, place_in_postfix, place_of};
use code_tree::{Expr, ExprForm, Operand, OperandForm, Operator, Prefix, PrefixMark};
use flow_facts::{Lit, Place};
use flow_values::{NoMemory, Text};
use scopes::Scope;

// Whether a mark is `typeof`.
fn is_type_of(mark: &PrefixMark) -> bool
    ensures { result ≡ is_kind_of (more_prefix no_prefix mark.now.at (prefix_view mark.now.prefix)) }
{
    match mark.prefix {
        Prefix::TypeOf => true,
        Prefix::Not | Prefix::Minus | Prefix::Plus => false,
    }
}

// Whether the marks are one `typeof`.
#[tactic(auto, using(crate::proofs::Only::other_marks))]
fn is_kind_of(marks: &[PrefixMark]) -> bool
    ensures { result ≡ is_kind_of (prefixes_view marks.now) }
{
    let [mark] = marks else {
        return false;
    };
    is_type_of(mark)
}

// A place, if it is one, is tested itself.
fn tested_place(place: Option<Place>) -> Option<Tested>
    ensures { option_map tested_view result ≡ tested_place place }
{
    match place {
        Some(place) => Some(Tested::Place(place)),
        None => None,
    }
}

// The kind of a place, if it is one, is tested.
fn tested_kind(place: Option<Place>) -> Option<Tested>
    ensures { option_map tested_view result ≡ tested_kind place }
{
    match place {
        Some(place) => Some(Tested::Kind(place)),
        None => None,
    }
}

// The place that a side of a comparison tests, parentheses round it left out.
#[cycle(tested)]
fn tested_in(scope: &Scope, e: &Expr) -> Result<Option<Tested>, NoMemory>
    ensures { IfOk result (λ tested. option_map tested_view tested ≡ tested_in (scope_view scope.now) (expr_view e.now)) }
{
    tested_in_form(scope, &e.form)
}

// What stands behind marks.
fn tested_behind(
    scope: &Scope,
    marks: &[PrefixMark],
    operand: &Expr,
) -> Result<Option<Tested>, NoMemory>
    ensures { IfOk result (λ tested. option_map tested_view tested ≡ tested_behind (scope_view scope.now) (prefixes_view marks.now) (expr_view operand.now)) }
{
    if is_kind_of(marks) {
        return Ok(tested_kind(place_in(scope, operand)?));
    }
    Ok(None)
}

#[cycle(tested)]
#[tactic(auto, using(crate::proofs::Only::behind_is), unfolding(code_tree::specs::View::expr_view, code_tree::specs::View::expr_form_view, code_tree::specs::View::postfix_expr_view))]
fn tested_in_form(scope: &Scope, form: &ExprForm) -> Result<Option<Tested>, NoMemory>
    ensures { IfOk result (λ tested. option_map tested_view tested ≡ tested_in_form (scope_view scope.now) (expr_form_view form.now)) }
{
    match form {
        ExprForm::Paren(inner) => tested_in(scope, inner.get()),
        ExprForm::Prefix { marks, operand } => {
            tested_behind(scope, marks.as_slice(), operand.get())
        }
        ExprForm::Variable(name) => Ok(tested_place(place_of(scope.variable(name)))),
        ExprForm::Postfix(e) => Ok(tested_place(place_in_postfix(scope, e)?)),
        ExprForm::Number(_)
        | ExprForm::Str(_)
        | ExprForm::Truth(_)
        | ExprForm::Null
        | ExprForm::Array { .. }
        | ExprForm::Object { .. }
        | ExprForm::Function(_)
        | ExprForm::Chain(_)
        | ExprForm::Conditional(_)
        | ExprForm::Arrow(_) => Ok(None),
    }
}

// A number that is a type of its own.
fn with_number(digits: &Text) -> Result<Option<Against>, NoMemory>
    ensures { IfOk result (λ against. option_map against_view against ≡ with_number digits.now) }
{
    if is_type_number(digits.as_bytes()) {
        return Ok(Some(Against::Lit(Lit::Num(digits.share()?))));
    }
    Ok(None)
}

// What a side of a comparison is compared with, parentheses round it left out.
#[cycle(against)]
fn compared_with(scope: &Scope, e: &Expr) -> Result<Option<Against>, NoMemory>
    ensures { IfOk result (λ against. option_map against_view against ≡ compared_with (scope_view scope.now) (expr_view e.now)) }
{
    compared_with_form(scope, &e.form)
}

#[cycle(against)]
fn compared_with_form(scope: &Scope, form: &ExprForm) -> Result<Option<Against>, NoMemory>
    ensures { IfOk result (λ against. option_map against_view against ≡ compared_with_form (scope_view scope.now) (expr_form_view form.now)) }
{
    match form {
        ExprForm::Null => Ok(Some(Against::Null)),
        ExprForm::Variable(name) => Ok(Against::undefined(scope.variable(name))),
        ExprForm::Number(digits) => with_number(digits),
        ExprForm::Str(text) => Ok(Some(Against::Lit(Lit::Str(text.share()?)))),
        ExprForm::Truth(value) => Ok(Some(Against::Lit(Lit::Bool(*value)))),
        ExprForm::Paren(inner) => compared_with(scope, inner.get()),
        ExprForm::Array { .. }
        | ExprForm::Object { .. }
        | ExprForm::Function(_)
        | ExprForm::Postfix(_)
        | ExprForm::Prefix { .. }
        | ExprForm::Chain(_)
        | ExprForm::Conditional(_)
        | ExprForm::Arrow(_) => Ok(None),
    }
}

// One side is tried as the place that the other one is compared with.
fn compared_sides(
    scope: &Scope,
    equality: Equality,
    place: &Expr,
    other: &Expr,
) -> Result<Option<Comparison>, NoMemory>
    ensures { IfOk result (λ c. option_map comparison_view c ≡ with_negated equality.negated (comparison_with equality.strict (tested_in (scope_view scope.now) (expr_view place.now)) (compared_with (scope_view scope.now) (expr_view other.now)))) }
{
    let tested = tested_in(scope, place)?;
    let against = compared_with(scope, other)?;
    Comparison::with(tested, against, equality)
}

// What an operator of equality compares: the left side is tried as the place first.
fn compared_by(
    scope: &Scope,
    equality: Equality,
    left: &Expr,
    right: &Expr,
) -> Result<Option<Comparison>, NoMemory>
    ensures { IfOk result (λ c. option_map comparison_view c ≡ either_side (scope_view scope.now) equality (expr_view left.now) (expr_view right.now)) }
{
    match compared_sides(scope, equality, left, right)? {
        Some(comparison) => Ok(Some(comparison)),
        None => compared_sides(scope, equality, right, left),
    }
}

// What an operator compares.
#[tactic(auto, using(crate::proofs::Only::no_equality))]
fn compared_at(
    scope: &Scope,
    left: &Expr,
    operator: Operator,
    right: &Expr,
) -> Result<Option<Comparison>, NoMemory>
    ensures { IfOk result (λ c. option_map comparison_view c ≡ operator_compared (scope_view scope.now) (expr_view left.now) (operator_view operator) (expr_view right.now)) }
{
    match Equality::of(operator) {
        Some(equality) => compared_by(scope, equality, left, right),
        None => Ok(None),
    }
}

// What an operand compares the first part of its chain with.
#[tactic(auto, unfolding(code_tree::specs::View::operand_form_view, code_tree::specs::View::expr_view))]
fn compared_form(
    scope: &Scope,
    left: &Expr,
    form: &OperandForm,
) -> Result<Option<Comparison>, NoMemory>
    ensures { IfOk result (λ c. option_map comparison_view c ≡ form_compared (scope_view scope.now) (expr_view left.now) (operand_form_view form.now)) }
{
    match form {
        OperandForm::Right { operator, side } => compared_at(scope, left, *operator, side),
        OperandForm::As(_) => Ok(None),
    }
}

// The same, where the operand is the only one.
#[tactic(auto, using(crate::proofs::Only::operand_compared), unfolding(code_tree::specs::View::operand_view, code_tree::specs::View::operand_form_view))]
fn compared_operand(
    scope: &Scope,
    left: &Expr,
    operand: &Operand,
) -> Result<Option<Comparison>, NoMemory>
    ensures { IfOk result (λ c. option_map comparison_view c ≡ compared (scope_view scope.now) (expr_view left.now) (more_operand no_operand (operand_view operand.now))) }
{
    compared_form(scope, left, &operand.form)
}

// The only operand, if there is one alone.
fn only_operand(operands: &[Operand]) -> Option<&Operand>
    ensures some { IfSome result (λ o. (length operands.now ≡ 1) × (o.now ≡ get_or operands.now 0 o.now)) }
    ensures none { IfNone result (length operands.now ≡ 1 → ⊥) }
{
    if operands.len() != 1 {
        return None;
    }
    Some(&operands[0])
}

/// What a chain with one operator compares, and whether its being true says that the sides differ. The
/// left side is tried as the place first. None where it is no operator of equality, or tests no place.
///
/// # Errors
///
/// `NoMemory` where memory is refused.
pub fn compared(
    scope: &Scope,
    left: &Expr,
    operands: &[Operand],
) -> Result<Option<Comparison>, NoMemory>
    ensures { IfOk result (λ c. option_map comparison_view c ≡ compared (scope_view scope.now) (expr_view left.now) (operands_view operands.now)) }
{
    match only_operand(operands) {
        Some(operand) => compared_operand(scope, left, operand),
        None => Ok(None),
    }
}
