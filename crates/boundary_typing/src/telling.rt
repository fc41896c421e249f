// The types that initialisers have by their form alone.
#![tactic(auto, unfolding(code_tree::specs::View::expr_view, code_tree::specs::View::expr_form_view, code_tree::specs::View::chain_expr_view, code_tree::specs::View::arrow_expr_view, code_tree::specs::View::operand_view, code_tree::specs::View::operand_form_view, code_tree::specs::View::function_view, code_tree::specs::View::declaration_view, code_tree::specs::View::operands_view))]

ghost use Rattle.std.specs.Prelude.{◌≡◌, IfOk};
ghost use Rattle.std.specs.Option.{option_map};
ghost use Rattle.js_grammar.specs.Code.{no_operand, more_operand};
ghost use Rattle.local_signatures.specs.Boundary.{cast_type, boundary_value, boundary_form, annotated, boundary_declaration};
ghost use Rattle.type_tree.specs.View.{type_view};
ghost use Rattle.code_tree.specs.View.{expr_view, expr_form_view, chain_expr_view, operand_view, operands_view, declaration_view};

use crate::signing::function_type;
use code_tree::{ChainExpr, Declaration, Expr, ExprForm, Level, Operand, OperandForm};
use flow_values::NoMemory;
use std::alloc::Global;
use tree_typing::{Names, type_of_tree};
use type_tree::TypeTree;
use type_values::FlowType;

// The type of an operand that is `as` and a type.
fn operand_type<N: Names>(
    alloc: Global,
    names: &N,
    operand: &Operand,
) -> Result<Option<FlowType>, NoMemory>
    ensures { IfOk result (λ told. told ≡ cast_type (N.stands_for names.now) (more_operand no_operand (operand_view operand.now))) }
{
    match &operand.form {
        OperandForm::As(tree) => Ok(Some(type_of_tree(alloc, names, tree)?)),
        OperandForm::Right { .. } => Ok(None),
    }
}

// The type behind a last `as`.
#[tactic(auto, using(crate::proofs::Told::cast_last))]
fn cast_type<N: Names>(
    alloc: Global,
    names: &N,
    operands: &[Operand],
) -> Result<Option<FlowType>, NoMemory>
    ensures { IfOk result (λ told. told ≡ cast_type (N.stands_for names.now) (operands_view operands.now)) }
{
    let Some(last) = operands.last() else {
        return Ok(None);
    };
    let told = operand_type(alloc, names, last)?;
    Ok(told)
}

fn chain_type<N: Names>(
    alloc: Global,
    names: &N,
    chain: &ChainExpr,
) -> Result<Option<FlowType>, NoMemory>
    ensures { IfOk result (λ told. told ≡ boundary_form (N.stands_for names.now) (chain_expr_view chain.now)) }
{
    if chain.level == Level::Relation {
        cast_type(alloc, names, chain.operands.as_slice())
    } else {
        Ok(None)
    }
}

/// The type that an expression has by its form alone, parentheses round it left out: that of a
/// literal, of a chain whose last link is `as` and a type, or of a function whose parameters and
/// result all have annotations.
///
/// # Errors
///
/// `NoMemory` where memory is refused.
#[cycle(telling)]
pub fn value_type<N: Names>(
    alloc: Global,
    names: &N,
    value: &Expr,
) -> Result<Option<FlowType>, NoMemory>
    ensures { IfOk result (λ told. told ≡ boundary_value (N.stands_for names.now) (expr_view value.now)) }
{
    form_type(alloc, names, &value.form)
}

#[cycle(telling)]
fn form_type<N: Names>(
    alloc: Global,
    names: &N,
    form: &ExprForm,
) -> Result<Option<FlowType>, NoMemory>
    ensures { IfOk result (λ told. told ≡ boundary_form (N.stands_for names.now) (expr_form_view form.now)) }
{
    match form {
        ExprForm::Number(_) => Ok(Some(FlowType::Number)),
        ExprForm::Str(_) => Ok(Some(FlowType::Str)),
        ExprForm::Truth(_) => Ok(Some(FlowType::Boolean)),
        ExprForm::Null => Ok(Some(FlowType::Null)),
        ExprForm::Paren(inner) => value_type(alloc, names, inner.get()),
        ExprForm::Chain(chain) => chain_type(alloc, names, chain),
        ExprForm::Function(function) => function_type(alloc, names, &function.get().signature),
        ExprForm::Arrow(arrow) => function_type(alloc, names, &arrow.get().signature),
        ExprForm::Variable(_)
        | ExprForm::Array { .. }
        | ExprForm::Object { .. }
        | ExprForm::Postfix(_)
        | ExprForm::Prefix { .. }
        | ExprForm::Conditional(_) => Ok(None),
    }
}

fn annotated_type<N: Names>(
    alloc: Global,
    names: &N,
    annotation: &Option<TypeTree>,
    value: &Expr,
) -> Result<Option<FlowType>, NoMemory>
    ensures { IfOk result (λ told. told ≡ annotated (N.stands_for names.now) (option_map type_view annotation.now) (expr_view value.now)) }
{
    match annotation {
        Some(tree) => Ok(Some(type_of_tree(alloc, names, tree)?)),
        None => value_type(alloc, names, value),
    }
}

/// The type of a variable, by its annotation, or else by the form of its initialiser.
///
/// # Errors
///
/// `NoMemory` where memory is refused.
pub fn declared_type<N: Names>(
    alloc: Global,
    names: &N,
    declaration: &Declaration,
) -> Result<Option<FlowType>, NoMemory>
    ensures { IfOk result (λ told. told ≡ boundary_declaration (N.stands_for names.now) (declaration_view declaration.now)) }
{
    annotated_type(alloc, names, &declaration.annotation, &declaration.value)
}
