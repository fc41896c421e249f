// What stands before and behind the parameters of a function or an arrow.
ghost use Rattle.std.specs.Prelude.{◌≡◌, ◌<◌, IfOk};
ghost use Rattle.code_tree.specs.Flat.{parameters_view, signature_view};
ghost use Rattle.code_law.specs.Expressions.{function_step, open_body as body_step, end_step, arrow_step};
ghost use Rattle.js_grammar.specs.Code.{no_stmt};
ghost use Rattle.code_law.specs.Frames.{statements_start};
ghost use Rattle.code_state.specs.Forms.{kind_view, owner_view, mode_view};
ghost use Rattle.code_state.specs.Stack.{stack_view};
ghost use Rattle.code_state.specs.Turns.{turn_view, Gives};

use crate::parameters::open_parameters;
use crate::values::begin_inside;
use code_state::{
    BodyFrame, Frame, FunctionKind, HeadMode, Heading, Mode, OpenBlock, OpenParameters, Owner,
    Stack, StatementMode, TailFrame, Turn, Waiting,
};
use code_tree::Signature;
use flow_values::{Boxed, List, NoMemory};
use js_token::{Punct, TokenKind, is_reserved};
use std::alloc::Global;

/// A token behind `function` at a place.
pub fn begin_function(
    alloc: Global,
    at: usize,
    kind: FunctionKind,
    first: usize,
    token: &TokenKind,
) -> Result<Turn, NoMemory>
    ensures { IfOk result (λ turn. Gives turn (λ k. function_step at k (kind_view kind) first token.now)) }
{
    match token {
        TokenKind::Name(word) => {
            if is_reserved(word.as_bytes()) {
                Ok(Turn::Fault)
            } else {
                let name = Some(word.share()?);
                let owner = Owner::Function(Heading { kind, first, name });
                Ok(Turn::Go(Mode::Head(HeadMode::Open(owner))))
            }
        }
        _ => {
            match kind {
                FunctionKind::Statement => Ok(Turn::Fault),
                FunctionKind::Value | FunctionKind::Default => {
                    let name = None;
                    let owner = Owner::Function(Heading { kind, first, name });
                    Ok(open_parameters(alloc, at, owner, token))
                }
            }
        }
    }
}

/// A block of statements, none so far, that begins at a place.
#[tactic(auto, using(code_state::proofs::Pushes::nothings))]
pub fn open_block(alloc: Global, first: usize) -> Mode
    ensures { mode_view result ≡ statements_start first no_stmt }
{
    Mode::Statement(StatementMode::Start(OpenBlock {
        first,
        statements: List::new(alloc),
    }))
}

/// A signature is whole, and the token at a place comes after it.
pub fn open_body(
    alloc: Global,
    at: usize,
    stack: &mut Stack,
    owner: Owner,
    signature: Signature,
    token: &TokenKind,
) -> Result<Turn, NoMemory>
    ensures { IfOk result (λ turn. turn_view stack.new turn ≡ body_step at (stack_view stack.old) (owner_view owner) (signature_view signature) token.now) }
{
    match owner {
        Owner::Arrow => {
            match token {
                TokenKind::Punct(Punct::Arrow) => {
                    let signature = Boxed::new(alloc, signature)?;
                    Ok(Turn::Go(Mode::Head(HeadMode::Arrow(signature))))
                }
                _ => Ok(Turn::Fault),
            }
        }
        Owner::Function(heading) => {
            match token {
                TokenKind::Punct(Punct::OpenBrace) => {
                    let signature = Boxed::new(alloc, signature)?;
                    stack.push(Frame::Body(BodyFrame::Function(heading, signature)))?;
                    Ok(Turn::Go(open_block(alloc, at)))
                }
                _ => Ok(Turn::Fault),
            }
        }
    }
}

/// A token behind the parameters, with a comma behind the last or not.
pub fn after_parameters(
    alloc: Global,
    at: usize,
    stack: &mut Stack,
    so_far: OpenParameters,
    comma: bool,
    token: &TokenKind,
) -> Result<Turn, NoMemory>
    ensures { IfOk result (λ turn. turn_view stack.new turn ≡ end_step at (stack_view stack.old) (owner_view so_far.owner) so_far.first (parameters_view so_far.parameters) comma token.now) }
{
    match token {
        TokenKind::Punct(Punct::Colon) => Ok(Turn::Type(Waiting::Output(so_far, comma))),
        _ => {
            let OpenParameters {
                owner,
                first,
                parameters,
            } = so_far;
            let signature = Signature::new(first, at, parameters, comma, None);
            open_body(alloc, at, stack, owner, signature, token)
        }
    }
}

/// A token behind `=>`.
pub fn after_arrow(
    alloc: Global,
    at: usize,
    stack: &mut Stack,
    signature: Boxed<Signature>,
    token: &TokenKind,
) -> Result<Turn, NoMemory>
    requires { at < usize.MAX }
    ensures { IfOk result (λ turn. turn_view stack.new turn ≡ arrow_step at (stack_view stack.old) (signature_view signature) token.now) }
{
    match token {
        TokenKind::Punct(Punct::OpenBrace) => {
            stack.push(Frame::Body(BodyFrame::Arrow(signature)))?;
            Ok(Turn::Go(open_block(alloc, at)))
        }
        _ => {
            let frame = Frame::Tail(TailFrame::Arrow(signature));
            begin_inside(alloc, at, stack, frame, token)
        }
    }
}
