// A word behind `(`, and the token behind it.
ghost use Rattle.std.specs.Prelude.{◌≡◌, ◌<◌, ◌∷◌, IfOk};
ghost use Rattle.js_grammar.specs.Code.{ex, variable, no_link};
ghost use Rattle.code_law.specs.Frames.{in_parens};
ghost use Rattle.code_law.specs.Expressions.{links_step, paren_word_step};
ghost use Rattle.code_state.specs.Stack.{stack_view};
ghost use Rattle.code_state.specs.Turns.{turn_view};

use code_groups::first_parameter;
use code_state::{Frame, GroupMode, InnerFrame, Linked, Mode, ParenWord, Stack, Turn, Waiting};
use code_tails::after_links;
use code_tree::{Expr, ExprForm};
use flow_values::{List, NoMemory};
use js_token::{Punct, TokenKind};
use std::alloc::Global;

/// A word behind `(` is a variable, and a token comes after it.
#[tactic(auto, using(code_state::proofs::Pushes::nothings))]
fn after_variable(
    alloc: Global,
    at: usize,
    stack: &mut Stack,
    word: ParenWord,
    token: &TokenKind,
) -> Result<Turn, NoMemory>
    requires { at < usize.MAX }
    ensures { IfOk result (λ turn. turn_view stack.new turn ≡ links_step at (in_parens word.first ∷ stack_view stack.old) (ex word.start at (variable word.name)) no_link token.now) }
{
    let ParenWord { first, start, name } = word;
    stack.push(Frame::Inner(InnerFrame::Paren(first)))?;
    let linked = Linked {
        base: Expr::new(start, at, ExprForm::variable(name)),
        links: List::new(alloc),
    };
    after_links(alloc, at, stack, linked, token)
}

/// A token behind a word behind `(`.
pub fn after_paren_word(
    alloc: Global,
    at: usize,
    stack: &mut Stack,
    word: ParenWord,
    token: &TokenKind,
) -> Result<Turn, NoMemory>
    requires { at < usize.MAX }
    ensures { IfOk result (λ turn. turn_view stack.new turn ≡ paren_word_step at (stack_view stack.old) word.first word.start word.name token.now) }
{
    match token {
        TokenKind::Punct(Punct::Colon) => {
            if stack.takes_arrow() {
                let parameter = first_parameter(alloc, word);
                Ok(Turn::Type(Waiting::Parameter(parameter, false)))
            } else {
                Ok(Turn::Fault)
            }
        }
        TokenKind::Punct(Punct::Question) => {
            Ok(Turn::Go(Mode::Group(GroupMode::ParenMark(word, at))))
        }
        _ => after_variable(alloc, at, stack, word, token),
    }
}
