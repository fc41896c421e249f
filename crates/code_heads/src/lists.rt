// The ends of lists, and what follows an expression.
ghost use Rattle.std.specs.Prelude.{◌≡◌, ◌<◌, IfOk};
ghost use Rattle.js_grammar.specs.Code.{no_link, more_link};
ghost use Rattle.code_tree.specs.View.{expr_view, exprs_view, links_view, link_view, fields_view};
ghost use Rattle.code_law.specs.Frames.{array_row, call_row, after_links};
ghost use Rattle.code_law.specs.Ladder.{close_row as row_closed, after_item as item_step, close_fields as fields_closed, after_field as field_step};
ghost use Rattle.code_state.specs.Forms.{mode_view, row_view};
ghost use Rattle.code_state.specs.Turns.{Gives};

use code_state::{GroupMode, Linked, Mode, OpenFields, Row, Turn, ValueMode};
use code_tree::{Expr, ExprForm, Link, LinkForm};
use flow_values::{Boxed, List, NoMemory};
use js_token::{Punct, TokenKind};
use std::alloc::Global;

/// An expression that links may follow.
#[tactic(auto, using(code_state::proofs::Pushes::nothings))]
pub fn primary(alloc: Global, base: Expr) -> Mode
    ensures { mode_view result ≡ after_links (expr_view base) no_link }
{
    Mode::Value(ValueMode::Links(Linked {
        base,
        links: List::new(alloc),
    }))
}

/// A link joins an expression.
#[tactic(auto, using(code_state::proofs::Pushes::pushes))]
pub fn add_link(linked: Linked, link: Link) -> Result<Mode, NoMemory>
    ensures { IfOk result (λ mode. mode_view mode ≡ after_links (expr_view linked.base) (more_link (links_view linked.links) (link_view link))) }
{
    let Linked { base, mut links } = linked;
    links.push(link)?;
    Ok(Mode::Value(ValueMode::Links(Linked { base, links })))
}

/// The bracket at a place ends a list, with a comma before it or not.
pub fn close_row(
    alloc: Global,
    at: usize,
    row: Row,
    elements: List<Expr>,
    comma: bool,
) -> Result<Mode, NoMemory>
    requires { at < usize.MAX }
    ensures { IfOk result (λ mode. mode_view mode ≡ row_closed at (row_view row) (exprs_view elements) comma) }
{
    match row {
        Row::Array(first) => {
            let form = ExprForm::array(elements, comma);
            Ok(primary(alloc, Expr::new(first, at + 1, form)))
        }
        Row::Call(linked, first) => {
            let form = LinkForm::call(elements, comma);
            add_link(linked.into_inner(), Link::new(first, at + 1, form))
        }
    }
}

/// The token behind an element of an array that begins at a place.
fn after_array_element(
    alloc: Global,
    at: usize,
    first: usize,
    elements: List<Expr>,
    token: &TokenKind,
) -> Result<Turn, NoMemory>
    requires { at < usize.MAX }
    ensures { IfOk result (λ turn. Gives turn (λ k. item_step at k (array_row first) (exprs_view elements) token.now)) }
{
    let row = Row::Array(first);
    match token {
        TokenKind::Punct(Punct::Comma) => {
            Ok(Turn::Go(Mode::Value(ValueMode::RowStart(row, elements))))
        }
        TokenKind::Punct(Punct::CloseBracket) => {
            Ok(Turn::Go(close_row(alloc, at, row, elements, false)?))
        }
        _ => Ok(Turn::Fault),
    }
}

/// The token behind an argument of a call.
fn after_argument(
    alloc: Global,
    at: usize,
    linked: Boxed<Linked>,
    first: usize,
    arguments: List<Expr>,
    token: &TokenKind,
) -> Result<Turn, NoMemory>
    requires { at < usize.MAX }
    ensures { IfOk result (λ turn. Gives turn (λ k. item_step at k (call_row (expr_view linked.base) (links_view linked.links) first) (exprs_view arguments) token.now)) }
{
    let row = Row::Call(linked, first);
    match token {
        TokenKind::Punct(Punct::Comma) => {
            Ok(Turn::Go(Mode::Value(ValueMode::RowStart(row, arguments))))
        }
        TokenKind::Punct(Punct::CloseParen) => {
            Ok(Turn::Go(close_row(alloc, at, row, arguments, false)?))
        }
        _ => Ok(Turn::Fault),
    }
}

/// The token behind an element or an argument.
pub fn after_element(
    alloc: Global,
    at: usize,
    row: Row,
    elements: List<Expr>,
    token: &TokenKind,
) -> Result<Turn, NoMemory>
    requires { at < usize.MAX }
    ensures { IfOk result (λ turn. Gives turn (λ k. item_step at k (row_view row) (exprs_view elements) token.now)) }
{
    match row {
        Row::Array(first) => after_array_element(alloc, at, first, elements, token),
        Row::Call(linked, first) => after_argument(alloc, at, linked, first, elements, token),
    }
}

/// The brace at a place ends an object, with a comma before it or not.
pub fn close_fields(alloc: Global, at: usize, so_far: OpenFields, comma: bool) -> Mode
    requires { at < usize.MAX }
    ensures { mode_view result ≡ fields_closed at so_far.first (fields_view so_far.fields) comma }
{
    let OpenFields { first, fields } = so_far;
    let form = ExprForm::object(fields, comma);
    primary(alloc, Expr::new(first, at + 1, form))
}

/// The token behind a property.
pub fn after_field(alloc: Global, at: usize, so_far: OpenFields, token: &TokenKind) -> Turn
    requires { at < usize.MAX }
    ensures { Gives result (λ k. field_step at k so_far.first (fields_view so_far.fields) token.now) }
{
    match token {
        TokenKind::Punct(Punct::CloseBrace) => Turn::Go(close_fields(alloc, at, so_far, false)),
        TokenKind::Punct(Punct::Comma) => Turn::Go(Mode::Group(GroupMode::FieldStart(so_far))),
        _ => Turn::Fault,
    }
}
