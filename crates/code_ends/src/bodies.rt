// A whole block.
ghost use Rattle.std.specs.Prelude.{◌≡◌, ◌∷◌, IfOk};
ghost use Rattle.code_tree.specs.View.{block_view};
ghost use Rattle.code_law.specs.Bodies.{give_block as block_given};
ghost use Rattle.code_state.specs.Forms.{body_frame_view};
ghost use Rattle.code_state.specs.Stack.{stack_view};
ghost use Rattle.code_state.specs.Turns.{turn_view};

use crate::items::give_function;
use crate::statements::{add_statement, give_body_in};
use code_state::{BodyFrame, Heading, Mode, Stack, Top, Turn, ValueMode};
use code_tree::{ArrowBody, Block, Body, Expr, ExprForm, Function, Statement, StatementForm};
use flow_values::NoMemory;
use std::alloc::Global;

/// A block is whole, up to `end`.
#[tactic(auto, using(crate::proofs::Given::others))]
pub fn give_block(
    alloc: Global,
    stack: &mut Stack,
    end: usize,
    block: Block,
) -> Result<Turn, NoMemory>
    ensures { IfOk result (λ turn. turn_view stack.new turn ≡ block_given end (stack_view stack.old) (block_view block)) }
{
    match stack.take_body() {
        Top::Body(form) => give_block_in(alloc, stack, form, end, block),
        Top::Other | Top::Bottom => Ok(Turn::Fault),
    }
}

/// A block is whole in this form.
#[tactic(auto, using(code_state::proofs::Views::starts))]
fn give_block_in(
    alloc: Global,
    stack: &mut Stack,
    form: BodyFrame,
    end: usize,
    block: Block,
) -> Result<Turn, NoMemory>
    ensures { IfOk result (λ turn. turn_view stack.new turn ≡ block_given end (body_frame_view form ∷ stack_view stack.old) (block_view block)) }
{
    match form {
        BodyFrame::Function(heading, signature) => {
            let Heading { kind, first, name } = heading;
            let function = Function::new(first, end, name, signature.into_inner(), block);
            give_function(alloc, stack, kind, end, function)
        }
        BodyFrame::Arrow(signature) => {
            let signature = signature.into_inner();
            let first = signature.first;
            let form = ExprForm::arrow(alloc, signature, ArrowBody::block(block))?;
            let arrow = Expr::new(first, end, form);
            Ok(Turn::Go(Mode::Value(ValueMode::Settled(arrow))))
        }
        BodyFrame::Block(so_far) => {
            let statement = Statement::new(block.first, end, StatementForm::block(block));
            Ok(Turn::Go(add_statement(so_far, statement)?))
        }
        BodyFrame::If(so_far, place, test) => {
            let form = BodyFrame::If(so_far, place, test);
            give_body_in(stack, form, end, Body::block(block))
        }
        BodyFrame::Else(so_far) => {
            give_body_in(stack, BodyFrame::Else(so_far), end, Body::block(block))
        }
        BodyFrame::Loop(first, test) => {
            give_body_in(stack, BodyFrame::Loop(first, test), end, Body::block(block))
        }
    }
}
