//! The places that expressions are.
#![tactic(auto, unfolding(code_tree::specs::View::expr_view, code_tree::specs::View::expr_form_view, code_tree::specs::View::postfix_expr_view, code_tree::specs::View::links_view, code_tree::specs::View::link_view, code_tree::specs::View::link_form_view))]

ghost use Rattle.std.specs.Prelude.{◌≡◌, IfOk};
ghost use Rattle.std.specs.Option.{option_copied, option_map};
ghost use Rattle.flow_facts.specs.Known.{variable_place, property_place};
ghost use Rattle.typing.specs.Tests.{variable_in, variable_in_form, property_of, step_place, place_in, place_in_form};
ghost use Rattle.js_grammar.specs.Code.{no_link, more_link};
ghost use Rattle.code_tree.specs.View.{expr_view, expr_form_view, link_view, links_view, postfix_expr_view};
ghost use Rattle.scopes.specs.View.{scope_view};
ghost use Rattle.place_tests.specs.Only.{only_member};

use code_tree::{Expr, ExprForm, Link, LinkForm, PostfixExpr};
use flow_facts::Place;
use flow_values::{NoMemory, Text};
use scopes::Scope;

/// The place of a variable.
pub fn variable_place(number: u32) -> Place
    ensures { result ≡ variable_place number }
{
    Place {
        prop: None,
        binding: number,
    }
}

/// The place of a variable's property.
///
/// # Errors
///
/// `NoMemory` where memory is refused.
pub fn property_place(number: u32, key: &Text) -> Result<Place, NoMemory>
    ensures { IfOk result (λ place. place ≡ property_place number key.now) }
{
    Ok(Place {
        prop: Some(key.share()?),
        binding: number,
    })
}

/// The variable that has facts and that an expression is, parentheses round it left out.
#[cycle(variables)]
pub fn variable_in(scope: &Scope, e: &Expr) -> Option<u32>
    ensures { result ≡ variable_in (scope_view scope.now) (expr_view e.now) }
{
    variable_in_form(scope, &e.form)
}

#[cycle(variables)]
fn variable_in_form(scope: &Scope, form: &ExprForm) -> Option<u32>
    ensures { result ≡ variable_in_form (scope_view scope.now) (expr_form_view form.now) }
{
    match form {
        ExprForm::Variable(name) => scope.variable(name),
        ExprForm::Paren(inner) => variable_in(scope, inner.get()),
        ExprForm::Number(_)
        | ExprForm::Str(_)
        | ExprForm::Truth(_)
        | ExprForm::Null
        | ExprForm::Array { .. }
        | ExprForm::Object { .. }
        | ExprForm::Function(_)
        | ExprForm::Postfix(_)
        | ExprForm::Prefix { .. }
        | ExprForm::Chain(_)
        | ExprForm::Conditional(_)
        | ExprForm::Arrow(_) => None,
    }
}

// The name of a property, if the link is one.
fn member_name(link: &Link) -> Option<&Text>
    ensures { option_copied result ≡ only_member (more_link no_link (link_view link.now)) }
{
    match &link.form {
        LinkForm::Member(key) => Some(key),
        LinkForm::Index(_) | LinkForm::Call { .. } => None,
    }
}

// The name of a property, where it is the only link.
#[tactic(auto, using(crate::proofs::Only::other_links, crate::proofs::Only::one_link))]
fn only_member(links: &[Link]) -> Option<&Text>
    ensures { option_copied result ≡ only_member (links_view links.now) }
{
    let [link] = links else {
        return None;
    };
    member_name(link)
}

// A property of a variable as a place.
fn property_of(from: Option<u32>, key: &Text) -> Result<Option<Place>, NoMemory>
    ensures { IfOk result (λ place. place ≡ property_of from key.now) }
{
    match from {
        Some(number) => Ok(Some(property_place(number, key)?)),
        None => Ok(None),
    }
}

/// One property step from a variable.
///
/// # Errors
///
/// `NoMemory` where memory is refused.
#[tactic(auto, using(crate::proofs::Only::step_is))]
pub fn step_place(from: Option<u32>, links: &[Link]) -> Result<Option<Place>, NoMemory>
    ensures { IfOk result (λ place. place ≡ step_place from (links_view links.now)) }
{
    match only_member(links) {
        Some(key) => property_of(from, key),
        None => Ok(None),
    }
}

/// The place that an expression is, parentheses round it left out.
///
/// # Errors
///
/// `NoMemory` where memory is refused.
#[cycle(places)]
pub fn place_in(scope: &Scope, e: &Expr) -> Result<Option<Place>, NoMemory>
    ensures { IfOk result (λ place. place ≡ place_in (scope_view scope.now) (expr_view e.now)) }
{
    place_in_form(scope, &e.form)
}

/// The place of a variable that has facts.
pub(crate) fn place_of(number: Option<u32>) -> Option<Place>
    ensures { result ≡ option_map variable_place number }
{
    match number {
        Some(number) => Some(variable_place(number)),
        None => None,
    }
}

/// The place that a postfix expression is: one property step from a variable.
pub(crate) fn place_in_postfix(scope: &Scope, e: &PostfixExpr) -> Result<Option<Place>, NoMemory>
    ensures { IfOk result (λ place. place ≡ place_in_form (scope_view scope.now) (postfix_expr_view e.now)) }
{
    step_place(variable_in(scope, e.base.get()), e.links.as_slice())
}

#[cycle(places)]
fn place_in_form(scope: &Scope, form: &ExprForm) -> Result<Option<Place>, NoMemory>
    ensures { IfOk result (λ place. place ≡ place_in_form (scope_view scope.now) (expr_form_view form.now)) }
{
    match form {
        ExprForm::Variable(name) => Ok(place_of(scope.variable(name))),
        ExprForm::Paren(inner) => place_in(scope, inner.get()),
        ExprForm::Postfix(e) => place_in_postfix(scope, e),
        ExprForm::Number(_)
        | ExprForm::Str(_)
        | ExprForm::Truth(_)
        | ExprForm::Null
        | ExprForm::Array { .. }
        | ExprForm::Object { .. }
        | ExprForm::Function(_)
        | ExprForm::Prefix { .. }
        | ExprForm::Chain(_)
        | ExprForm::Conditional(_)
        | ExprForm::Arrow(_) => Ok(None),
    }
}
