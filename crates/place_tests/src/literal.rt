//! The types of literals.
#![tactic(auto, unfolding(code_tree::specs::View::expr_view, code_tree::specs::View::expr_form_view))]

ghost use Rattle.std.specs.Prelude.{◌≡◌, IfOk};
ghost use Rattle.js_grammar.specs.Words.{is_type_number};
ghost use Rattle.typing.specs.Tests.{number_type, literal_type, literal_form_type};
ghost use Rattle.code_tree.specs.View.{expr_view, expr_form_view};

use code_tree::{Expr, ExprForm};
use flow_values::{NoMemory, Text};
use js_token::is_whole;
use type_values::FlowType;

/// Whether the digits of a number are a type of their own: a whole number of at most 15 digits.
pub(crate) fn is_type_number(digits: &[u8]) -> bool
    ensures { result ≡ is_type_number digits.now }
{
    is_whole(digits) && digits.len() <= 15
}

/// The type of a number, by its digits.
///
/// # Errors
///
/// `NoMemory` where memory is refused.
pub fn number_type(digits: &Text) -> Result<FlowType, NoMemory>
    ensures { IfOk result (λ t. t ≡ number_type digits.now) }
{
    if is_type_number(digits.as_bytes()) {
        return Ok(FlowType::NumLit(digits.share()?));
    }
    Ok(FlowType::Number)
}

/// The type of a literal or `null`, parentheses round it left out.
///
/// # Errors
///
/// `NoMemory` where memory is refused.
#[cycle(literals)]
pub fn literal_type(e: &Expr) -> Result<Option<FlowType>, NoMemory>
    ensures { IfOk result (λ t. t ≡ literal_type (expr_view e.now)) }
{
    literal_form_type(&e.form)
}

#[cycle(literals)]
fn literal_form_type(form: &ExprForm) -> Result<Option<FlowType>, NoMemory>
    ensures { IfOk result (λ t. t ≡ literal_form_type (expr_form_view form.now)) }
{
    match form {
        ExprForm::Number(digits) => Ok(Some(number_type(digits)?)),
        ExprForm::Str(text) => Ok(Some(FlowType::StrLit(text.share()?))),
        ExprForm::Truth(value) => Ok(Some(FlowType::BoolLit(*value))),
        ExprForm::Null => Ok(Some(FlowType::Null)),
        ExprForm::Paren(inner) => literal_type(inner.get()),
        ExprForm::Variable(_)
        | ExprForm::Array { .. }
        | ExprForm::Object { .. }
        | ExprForm::Function(_)
        | ExprForm::Postfix(_)
        | ExprForm::Prefix { .. }
        | ExprForm::Chain(_)
        | ExprForm::Conditional(_)
        | ExprForm::Arrow(_) => Ok(None),
    }
}
