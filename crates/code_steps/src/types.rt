// A whole type inside code.
ghost use Rattle.std.specs.Prelude.{◌≡◌, ◌<◌, IfOk};
ghost use Rattle.type_tree.specs.View.{type_view};
ghost use Rattle.code_tree.specs.Flat.{binder_view, parameters_view};
ghost use Rattle.code_tree.specs.View.{expr_view, operands_view};
ghost use Rattle.code_law.specs.Frames.{result_type, declared_type, cast_type};
ghost use Rattle.code_law.specs.Expressions.{after_type as type_step, takes_function as may_take_function};
ghost use Rattle.code_state.specs.Forms.{waiting_view, owner_view};
ghost use Rattle.code_state.specs.Stack.{stack_view};
ghost use Rattle.code_state.specs.Turns.{turn_view};

use code_chains::end_chain;
use code_heads::{add_parameter, open_body};
use code_state::{
    Declared, Frame, Mode, OpenChain, OpenParameters, Owner, Stack, Turn, ValueFrame, ValueMode,
    Waiting,
};
use code_tails::settle;
use code_tree::{Level, Operand, OperandForm, Signature};
use flow_values::NoMemory;
use js_token::{Punct, TokenKind};
use std::alloc::Global;
use type_tree::TypeTree;

/// Whether a function type may stand outside brackets.
pub fn takes_function(waiting: &Waiting) -> bool
    ensures { result ≡ may_take_function (waiting_view waiting.now) }
{
    match waiting {
        Waiting::Output(so_far, _) => {
            match so_far.owner {
                Owner::Arrow => false,
                Owner::Function(_) => true,
            }
        }
        Waiting::Parameter(..) | Waiting::Declared(_) | Waiting::Cast(..) => true,
    }
}

/// The type of a signature's result is whole.
fn end_output(
    alloc: Global,
    at: usize,
    stack: &mut Stack,
    so_far: OpenParameters,
    comma: bool,
    ty: TypeTree,
    token: &TokenKind,
) -> Result<Turn, NoMemory>
    requires { at < usize.MAX }
    ensures { IfOk result (λ turn. turn_view stack.new turn ≡ type_step at (stack_view stack.old) (result_type (owner_view so_far.owner) so_far.first (parameters_view so_far.parameters) comma) (type_view ty) token.now) }
{
    let OpenParameters {
        owner,
        first,
        parameters,
    } = so_far;
    let signature = Signature::new(first, at, parameters, comma, Some(ty));
    open_body(alloc, at, stack, owner, signature, token)
}

/// The type of a declaration is whole.
fn end_declared(
    at: usize,
    stack: &mut Stack,
    declared: Declared,
    ty: TypeTree,
    token: &TokenKind,
) -> Result<Turn, NoMemory>
    ensures { IfOk result (λ turn. turn_view stack.new turn ≡ type_step at (stack_view stack.old) (declared_type declared.first (binder_view declared.binder) declared.name) (type_view ty) token.now) }
{
    match token {
        TokenKind::Punct(Punct::Assign) => {
            stack.push(Frame::Value(ValueFrame::Declaration(declared, Some(ty))))?;
            Ok(Turn::Go(Mode::Value(ValueMode::Want)))
        }
        _ => {
            drop(ty);
            Ok(Turn::Fault)
        }
    }
}

/// The type of a cast is whole.
fn end_cast(
    alloc: Global,
    at: usize,
    stack: &mut Stack,
    so_far: OpenChain,
    place: usize,
    ty: TypeTree,
    token: &TokenKind,
) -> Result<Turn, NoMemory>
    requires { at < usize.MAX }
    ensures { IfOk result (λ turn. turn_view stack.new turn ≡ type_step at (stack_view stack.old) (cast_type so_far.first (expr_view so_far.left) (operands_view so_far.operands) place) (type_view ty) token.now) }
{
    let OpenChain {
        first,
        left,
        operands,
        ..
    } = so_far;
    let so_far = OpenChain {
        first,
        level: Level::Relation,
        left,
        operands,
    };
    let operand = Operand::new(place, at, OperandForm::as_type(ty));
    let expr = end_chain(at, so_far, operand)?;
    settle(alloc, at, stack, expr, token)
}

/// A type is whole, and the token at a place comes after it.
pub fn after_type(
    alloc: Global,
    at: usize,
    stack: &mut Stack,
    waiting: Waiting,
    ty: TypeTree,
    token: &TokenKind,
) -> Result<Turn, NoMemory>
    requires { at < usize.MAX }
    ensures { IfOk result (λ turn. turn_view stack.new turn ≡ type_step at (stack_view stack.old) (waiting_view waiting) (type_view ty) token.now) }
{
    match waiting {
        Waiting::Parameter(named, optional) => add_parameter(at, named, optional, Some(ty), token),
        Waiting::Output(so_far, comma) => end_output(alloc, at, stack, so_far, comma, ty, token),
        Waiting::Declared(declared) => end_declared(at, stack, declared, ty, token),
        Waiting::Cast(so_far, place) => end_cast(alloc, at, stack, so_far, place, ty, token),
    }
}
