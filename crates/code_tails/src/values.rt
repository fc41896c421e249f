// The expression of a simple statement, and the token behind it.
ghost use Rattle.std.specs.Prelude.{◌≡◌, ◌<◌, ◌∷◌, IfOk};
ghost use Rattle.std.proofs.Common.{cond};
ghost use Rattle.js_grammar.specs.Code.{is_target as may_be_assigned, is_property as ends_property, no_link, more_link};
ghost use Rattle.code_tree.specs.View.{expr_view, link_view, links_view, simple_form_view};
ghost use Rattle.code_law.specs.Bodies.{end_value as value_ended, verb_form as form_of};
ghost use Rattle.code_law.specs.Frames.{in_simple, assigns, want, go, fault};
ghost use Rattle.code_state.specs.Forms.{verb_view};
ghost use Rattle.code_state.specs.Stack.{stack_view};
ghost use Rattle.code_state.specs.Turns.{turn_view};

use code_ends::end_simple;
use code_state::{Frame, Mode, Stack, Turn, ValueFrame, ValueMode, Verb};
use code_tree::{Expr, ExprForm, Link, LinkForm, Simple, SimpleForm};
use flow_values::NoMemory;
use js_token::{Punct, TokenKind};

/// The form of a simple statement with an expression.
fn verb_form(verb: Verb, value: Expr) -> SimpleForm
    ensures { simple_form_view result ≡ form_of (verb_view verb) (expr_view value) }
{
    match verb {
        Verb::Return => SimpleForm::return_value(value),
        Verb::Throw => SimpleForm::throw(value),
        Verb::Assign(target) => SimpleForm::assign(target, value),
        Verb::Evaluate => SimpleForm::evaluate(value),
    }
}

/// Whether a link is a property.
#[tactic(auto, unfolding(code_tree::specs::View::link_view, code_tree::specs::View::link_form_view))]
fn names_property(link: &Link) -> bool
    ensures { result ≡ ends_property (more_link no_link (link_view link.now)) }
{
    match &link.form {
        LinkForm::Member(_) | LinkForm::Index(_) => true,
        LinkForm::Call { .. } => false,
    }
}

/// Whether the last of these links is a property.
#[tactic(auto, using(code_heads::proofs::Empties::last_links))]
fn is_property(links: &[Link]) -> bool
    ensures { result ≡ ends_property (links_view links.now) }
{
    if links.is_empty() {
        return false;
    }
    names_property(&links[links.len() - 1])
}

/// Whether an expression may be assigned to.
#[tactic(auto, unfolding(code_tree::specs::View::expr_view, code_tree::specs::View::expr_form_view, code_tree::specs::View::postfix_expr_view, code_tree::specs::View::link_view, code_tree::specs::View::links_view))]
pub fn is_target(expr: &Expr) -> bool
    ensures { result ≡ may_be_assigned (expr_view expr.now) }
{
    match &expr.form {
        ExprForm::Variable(_) => true,
        ExprForm::Postfix(postfix) => is_property(postfix.links.as_slice()),
        _ => false,
    }
}

/// The token at a place stands behind the expression of a simple statement that begins at `first`.
pub fn end_value(
    at: usize,
    stack: &mut Stack,
    first: usize,
    verb: Verb,
    value: Expr,
    token: &TokenKind,
) -> Result<Turn, NoMemory>
    requires { at < usize.MAX }
    ensures { IfOk result (λ turn. turn_view stack.new turn ≡ value_ended at (stack_view stack.old) first (verb_view verb) (expr_view value) token.now) }
{
    match token {
        TokenKind::Punct(Punct::Semicolon) => {
            end_simple(at, stack, Simple::new(first, at, verb_form(verb, value)))
        }
        TokenKind::Punct(Punct::Assign) => {
            match verb {
                Verb::Evaluate => assign(stack, first, value),
                other => {
                    drop(other);
                    drop(value);
                    Ok(Turn::Fault)
                }
            }
        }
        _ => {
            drop(verb);
            drop(value);
            Ok(Turn::Fault)
        }
    }
}

/// An expression that is all of a statement so far stands before `=`.
fn assign(stack: &mut Stack, first: usize, target: Expr) -> Result<Turn, NoMemory>
    ensures { IfOk result (λ turn. turn_view stack.new turn ≡ cond (may_be_assigned (expr_view target)) (go (in_simple first (assigns (expr_view target)) ∷ stack_view stack.old) want) fault) }
{
    if is_target(&target) {
        stack.push(Frame::Value(ValueFrame::Simple(first, Verb::Assign(target))))?;
        Ok(Turn::Go(Mode::Value(ValueMode::Want)))
    } else {
        drop(target);
        Ok(Turn::Fault)
    }
}
