// A whole expression in a branch, a declaration or a test, or with no form open, and the token that ends it.
ghost use Rattle.std.specs.Prelude.{◌≡◌, ◌<◌, ◌∷◌, IfOk};
ghost use Rattle.std.specs.Option.{option_map};
ghost use Rattle.js_token.specs.declared.token.TokenKind.TheVariants.{Punct as a_mark};
ghost use Rattle.js_token.specs.declared.punct.Punct.TheVariants.{Colon as a_colon};
ghost use Rattle.type_tree.specs.View.{type_view};
ghost use Rattle.code_tree.specs.Flat.{binder_view};
ghost use Rattle.code_tree.specs.View.{expr_view, arms_view, branches_view};
ghost use Rattle.code_law.specs.Frames.{in_branch, in_declaration, in_if_test, in_loop_test};
ghost use Rattle.code_law.specs.Ladder.{close as close_step};
ghost use Rattle.code_state.specs.Stack.{stack_view, lowest};
ghost use Rattle.code_state.specs.Turns.{turn_view};

use crate::items::give_declaration;
use code_state::{
    BodyFrame, Bottom, Declared, Frame, Mode, OpenIf, Stack, StatementMode, TailFrame, Turn,
    ValueMode,
};
use code_tree::{Arm, Declaration, Expr};
use flow_values::{List, NoMemory};
use js_token::{Punct, TokenKind};
use js_tree::{ExportForm, ItemForm};
use type_tree::TypeTree;

/// A branch of a conditional is whole, and the colon at a place stands behind it.
#[tactic(auto, using(code_state::proofs::Pushes::pushes, code_state::proofs::Views::starts))]
fn end_branch(
    at: usize,
    stack: &mut Stack,
    first: usize,
    mut arms: List<Arm>,
    test: Expr,
    branch: Expr,
) -> Result<Turn, NoMemory>
    requires { at < usize.MAX }
    ensures { IfOk result (λ turn. turn_view stack.new turn ≡ close_step at (in_branch first (arms_view arms) (expr_view test) ∷ stack_view stack.old) (expr_view branch) (a_mark a_colon)) }
{
    arms.push(Arm::new(test.first, at + 1, test, branch))?;
    stack.push(Frame::Tail(TailFrame::Last(first, arms)))?;
    Ok(Turn::Go(Mode::Value(ValueMode::Want)))
}

/// The branch of a conditional that begins at `first` is whole behind its arms so far and this test, and the token at a place comes after it.
pub fn close_branch(
    at: usize,
    stack: &mut Stack,
    first: usize,
    arms: List<Arm>,
    test: Expr,
    branch: Expr,
    token: &TokenKind,
) -> Result<Turn, NoMemory>
    requires { at < usize.MAX }
    ensures { IfOk result (λ turn. turn_view stack.new turn ≡ close_step at (in_branch first (arms_view arms) (expr_view test) ∷ stack_view stack.old) (expr_view branch) token.now) }
{
    match token {
        TokenKind::Punct(Punct::Colon) => end_branch(at, stack, first, arms, test, branch),
        _ => Ok(Turn::Fault),
    }
}

/// The value of a declaration of this type is whole, and the token at a place comes after it.
pub fn close_declared(
    at: usize,
    stack: &mut Stack,
    declared: Declared,
    annotation: Option<TypeTree>,
    expr: Expr,
    token: &TokenKind,
) -> Result<Turn, NoMemory>
    requires { at < usize.MAX }
    ensures { IfOk result (λ turn. turn_view stack.new turn ≡ close_step at (in_declaration declared.first (binder_view declared.binder) declared.name (option_map type_view annotation) ∷ stack_view stack.old) (expr_view expr) token.now) }
{
    match token {
        TokenKind::Punct(Punct::Semicolon) => {
            let Declared {
                first,
                binder,
                name,
            } = declared;
            let declaration = Declaration::new(first, at, binder, name, annotation, expr);
            give_declaration(stack, first, at + 1, declaration)
        }
        _ => Ok(Turn::Fault),
    }
}

/// The test of an `if` at `place` is whole, behind its branches so far, and a token comes after it.
pub fn close_if_test(
    at: usize,
    stack: &mut Stack,
    so_far: OpenIf,
    place: usize,
    test: Expr,
    token: &TokenKind,
) -> Result<Turn, NoMemory>
    ensures { IfOk result (λ turn. turn_view stack.new turn ≡ close_step at (in_if_test so_far.first (branches_view so_far.branches) place ∷ stack_view stack.old) (expr_view test) token.now) }
{
    match token {
        TokenKind::Punct(Punct::CloseParen) => {
            stack.push(Frame::Body(BodyFrame::If(so_far, place, test)))?;
            Ok(Turn::Go(Mode::Statement(StatementMode::Body)))
        }
        _ => Ok(Turn::Fault),
    }
}

/// The test of a loop that begins at `first` is whole, and a token comes after it.
pub fn close_loop_test(
    at: usize,
    stack: &mut Stack,
    first: usize,
    test: Expr,
    token: &TokenKind,
) -> Result<Turn, NoMemory>
    ensures { IfOk result (λ turn. turn_view stack.new turn ≡ close_step at (in_loop_test first ∷ stack_view stack.old) (expr_view test) token.now) }
{
    match token {
        TokenKind::Punct(Punct::CloseParen) => {
            stack.push(Frame::Body(BodyFrame::Loop(first, test)))?;
            Ok(Turn::Go(Mode::Statement(StatementMode::Body)))
        }
        _ => Ok(Turn::Fault),
    }
}

/// An expression is whole, no form is open, and the token at a place comes after it.
pub fn close_bottom(
    at: usize,
    stack: &mut Stack,
    expr: Expr,
    token: &TokenKind,
) -> Result<Turn, NoMemory>
    requires { at < usize.MAX }
    ensures { IfOk result (λ turn. turn_view stack.new turn ≡ close_step at (lowest stack.old) (expr_view expr) token.now) }
{
    match stack.bottom {
        Bottom::Nothing => Ok(Turn::Whole(expr)),
        Bottom::Item(..) => Ok(Turn::Fault),
        Bottom::Default(first) => {
            match token {
                TokenKind::Punct(Punct::Semicolon) => {
                    let form = ItemForm::Export(ExportForm::Default(expr));
                    stack.give_item(first, at + 1, form)
                }
                _ => Ok(Turn::Fault),
            }
        }
    }
}
