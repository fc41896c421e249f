// A whole simple statement.
ghost use Rattle.std.specs.Prelude.{◌≡◌, ◌<◌, ◌∷◌, true, IfOk};
ghost use Rattle.code_tree.specs.View.{simple_view};
ghost use Rattle.code_law.specs.Bodies.{end_simple as simple_ended};
ghost use Rattle.code_state.specs.Forms.{body_frame_view};
ghost use Rattle.code_state.specs.Stack.{stack_view, is_open};
ghost use Rattle.code_state.specs.Turns.{turn_view};

use crate::statements::{add_statement, give_body_in};
use code_state::{BodyFrame, Bottom, Stack, Top, Turn};
use code_tree::{Body, Simple, Statement, StatementForm};
use flow_values::NoMemory;
use js_tree::ItemForm;

/// A simple statement is whole, and its semicolon stands at a place.
#[tactic(auto, using(crate::proofs::Given::others))]
pub fn end_simple(at: usize, stack: &mut Stack, simple: Simple) -> Result<Turn, NoMemory>
    requires { at < usize.MAX }
    ensures { IfOk result (λ turn. turn_view stack.new turn ≡ simple_ended at (stack_view stack.old) (simple_view simple)) }
{
    match stack.at_bottom() {
        Some(Bottom::Item(start, _)) => stack.give_item(start, at + 1, ItemForm::Simple(simple)),
        Some(_) => {
            drop(simple);
            Ok(Turn::Fault)
        }
        None => end_inner_simple(at, stack, simple),
    }
}

/// The same, where a form is open.
#[tactic(auto, using(crate::proofs::Given::others))]
fn end_inner_simple(at: usize, stack: &mut Stack, simple: Simple) -> Result<Turn, NoMemory>
    requires room { at < usize.MAX }
    requires inside { is_open (stack_view stack.old) ≡ true }
    ensures { IfOk result (λ turn. turn_view stack.new turn ≡ simple_ended at (stack_view stack.old) (simple_view simple)) }
{
    match stack.take_body() {
        Top::Body(form) => end_simple_in(at, stack, form, simple),
        Top::Other | Top::Bottom => {
            drop(simple);
            Ok(Turn::Fault)
        }
    }
}

/// A simple statement is whole in this form.
#[tactic(auto, using(code_state::proofs::Views::starts))]
fn end_simple_in(
    at: usize,
    stack: &mut Stack,
    form: BodyFrame,
    simple: Simple,
) -> Result<Turn, NoMemory>
    requires { at < usize.MAX }
    ensures { IfOk result (λ turn. turn_view stack.new turn ≡ simple_ended at (body_frame_view form ∷ stack_view stack.old) (simple_view simple)) }
{
    match form {
        BodyFrame::Block(block) => {
            let statement = Statement::new(simple.first, at + 1, StatementForm::simple(simple));
            Ok(Turn::Go(add_statement(block, statement)?))
        }
        BodyFrame::If(so_far, place, test) => {
            let form = BodyFrame::If(so_far, place, test);
            give_body_in(stack, form, at + 1, Body::simple(simple))
        }
        BodyFrame::Else(so_far) => {
            give_body_in(stack, BodyFrame::Else(so_far), at + 1, Body::simple(simple))
        }
        BodyFrame::Loop(first, test) => {
            give_body_in(
                stack,
                BodyFrame::Loop(first, test),
                at + 1,
                Body::simple(simple),
            )
        }
        BodyFrame::Function(heading, signature) => {
            drop(heading);
            drop(signature);
            drop(simple);
            Ok(Turn::Fault)
        }
        BodyFrame::Arrow(signature) => {
            drop(signature);
            drop(simple);
            Ok(Turn::Fault)
        }
    }
}
