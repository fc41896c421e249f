// Where an item begins, and what holds code.
ghost use Rattle.std.specs.Prelude.{◌≡◌, ◌<◌, ◌∷◌, [], codes, IfOk};
ghost use Rattle.js_grammar.specs.Code.{ex, variable, no_link};
ghost use Rattle.code_law.specs.Frames.{in_simple, in_item, evaluates, plain_item, in_default};
ghost use Rattle.item_steps.specs.Turns.{item_turn};
ghost use Rattle.type_tree.specs.View.{type_view};
ghost use Rattle.js_tree.specs.View.{item_form_view, alias_view as alias_tree_view, export_list_view};
ghost use Rattle.code_law.specs.Expressions.{after_type, links_step, want_step, wrap_alias as wrapped_alias};
ghost use Rattle.code_law.specs.Machine.{step as machine_step};
ghost use Rattle.code_law.specs.Modules.{top_word as top_step, items_step, type_word_step, alias_step, export_word as export_word_step, export_step, exports_step, default_step, end_item as item_ended};
ghost use Rattle.code_state.specs.Forms.{wrap_view, alias_view, ending_view, export_mode_view, item_mode_view};
ghost use Rattle.code_state.specs.Stack.{stack_view, items_before};
ghost use Rattle.code_state.specs.Turns.{turn_view};
ghost use Rattle.code_words.specs.Words.{statement_word_view};

use crate::exports::{after_export_from, after_export_type, are_local};
use crate::imports::import_token;
use crate::names::{begin_exported, names_token};
use code_heads::{begin_simple, begin_value, simple_word};
use code_state::{
    AliasHead, Bottom, Ending, ExportMode, Frame, FunctionKind, HeadMode, ImportMode, ItemMode,
    Linked, Mode, Stack, StatementMode, Turn, ValueFrame, Verb, Wrap,
};
use code_tails::after_links;
use code_tree::{Expr, ExprForm};
use code_words::{StatementWord, may_alias, statement_word};
use flow_values::{List, NoMemory, Text};
use js_token::{Punct, TokenKind};
use js_tree::{Alias, ExportForm, ExportList, ItemForm};
use std::alloc::Global;
use type_tree::TypeTree;

/// A word of this class where an item begins.
fn top_word(
    alloc: Global,
    at: usize,
    stack: &mut Stack,
    word: &Text,
    class: StatementWord,
) -> Result<Turn, NoMemory>
    requires { at < usize.MAX }
    ensures { IfOk result (λ turn. turn_view stack.new turn ≡ top_step at [] (items_before stack.old) word.now (statement_word_view class)) }
{
    match class {
        StatementWord::Binds(binder) => {
            stack.begin(Bottom::Item(at, Wrap::Plain));
            Ok(Turn::Go(Mode::Statement(StatementMode::Binder(at, binder))))
        }
        StatementWord::Function => {
            stack.begin(Bottom::Item(at, Wrap::Plain));
            let kind = FunctionKind::Statement;
            Ok(Turn::Go(Mode::Head(HeadMode::Function(kind, at))))
        }
        StatementWord::Import => Ok(Turn::Item(ItemMode::Import(ImportMode::Start(at)))),
        StatementWord::Export => Ok(Turn::Item(ItemMode::Export(ExportMode::Start(at)))),
        StatementWord::Plain => {
            if word.as_bytes() == b"type".as_slice() {
                Ok(Turn::Item(ItemMode::Type(at)))
            } else {
                stack.begin(Bottom::Item(at, Wrap::Plain));
                simple_word(alloc, at, stack, word, StatementWord::Plain)
            }
        }
        _ => Ok(Turn::Fault),
    }
}

/// A token where an item may begin.
fn begin_item(
    alloc: Global,
    at: usize,
    stack: &mut Stack,
    token: &TokenKind,
) -> Result<Turn, NoMemory>
    requires { at < usize.MAX }
    ensures { IfOk result (λ turn. turn_view stack.new turn ≡ items_step at [] (items_before stack.old) token.now) }
{
    match token {
        TokenKind::Punct(Punct::PlusPlus) => Ok(Turn::Items),
        TokenKind::Name(word) => {
            let class = statement_word(word.as_bytes());
            top_word(alloc, at, stack, word, class)
        }
        _ => {
            stack.begin(Bottom::Item(at, Wrap::Plain));
            begin_simple(alloc, at, stack, token)
        }
    }
}

/// The semicolon behind an item that holds no code.
fn end_item(
    at: usize,
    stack: &mut Stack,
    first: usize,
    ending: Ending,
    token: &TokenKind,
) -> Result<Turn, NoMemory>
    requires { at < usize.MAX }
    ensures { IfOk result (λ turn. turn_view stack.new turn ≡ item_ended at [] first (items_before stack.old) (ending_view ending) token.now) }
{
    match token {
        TokenKind::Punct(Punct::Semicolon) => {
            let form = match ending {
                Ending::Import(form, specifier) => ItemForm::Import { form, specifier },
                Ending::Names(types, list) => ItemForm::Export(ExportForm::Names { types, list }),
                Ending::From(types, list, specifier) => {
                    ItemForm::Export(ExportForm::From {
                        types,
                        list,
                        specifier,
                    })
                }
            };
            stack.give_item(first, at + 1, form)
        }
        _ => Ok(Turn::Fault),
    }
}

/// A word of this class behind `export`.
fn export_word(
    at: usize,
    stack: &mut Stack,
    first: usize,
    word: &Text,
    class: StatementWord,
) -> Result<Turn, NoMemory>
    ensures { IfOk result (λ turn. turn_view stack.new turn ≡ export_word_step at [] first (items_before stack.old) word.now (statement_word_view class)) }
{
    match class {
        StatementWord::Binds(binder) => {
            stack.begin(Bottom::Item(first, Wrap::Exported));
            Ok(Turn::Go(Mode::Statement(StatementMode::Binder(at, binder))))
        }
        StatementWord::Function => {
            stack.begin(Bottom::Item(first, Wrap::Exported));
            let kind = FunctionKind::Statement;
            Ok(Turn::Go(Mode::Head(HeadMode::Function(kind, at))))
        }
        _ => {
            if word.as_bytes() == b"type".as_slice() {
                Ok(Turn::Item(ItemMode::Export(ExportMode::Type(first, at))))
            } else if word.as_bytes() == b"default".as_slice() {
                Ok(Turn::Item(ItemMode::Export(ExportMode::Default(first))))
            } else {
                Ok(Turn::Fault)
            }
        }
    }
}

/// A token behind `export`.
fn after_export(
    alloc: Global,
    at: usize,
    stack: &mut Stack,
    first: usize,
    token: &TokenKind,
) -> Result<Turn, NoMemory>
    ensures { IfOk result (λ turn. turn_view stack.new turn ≡ export_step at [] first (items_before stack.old) token.now) }
{
    match token {
        TokenKind::Name(word) => {
            let class = statement_word(word.as_bytes());
            export_word(at, stack, first, word, class)
        }
        TokenKind::Punct(Punct::OpenBrace) => {
            Ok(Turn::Item(begin_exported(alloc, first, false, at)))
        }
        _ => Ok(Turn::Fault),
    }
}

/// A token behind exported names.
fn after_exports(
    at: usize,
    stack: &mut Stack,
    first: usize,
    types: bool,
    list: ExportList,
    token: &TokenKind,
) -> Result<Turn, NoMemory>
    requires { at < usize.MAX }
    ensures { IfOk result (λ turn. turn_view stack.new turn ≡ exports_step at [] first (items_before stack.old) types (export_list_view list) token.now) }
{
    match token {
        TokenKind::Name(word) => {
            if word.as_bytes() == b"from".as_slice() {
                let mode = ExportMode::From(first, types, list);
                Ok(Turn::Item(ItemMode::Export(mode)))
            } else {
                Ok(Turn::Fault)
            }
        }
        _ => {
            if are_local(&list) {
                end_item(at, stack, first, Ending::Names(types, list), token)
            } else {
                Ok(Turn::Fault)
            }
        }
    }
}

/// An expression behind `export default` begins.
fn begin_default(
    alloc: Global,
    at: usize,
    stack: &mut Stack,
    first: usize,
    token: &TokenKind,
) -> Result<Turn, NoMemory>
    requires { at < usize.MAX }
    ensures { IfOk result (λ turn. turn_view stack.new turn ≡ want_step at (in_default first (items_before stack.old) ∷ []) token.now) }
{
    stack.begin(Bottom::Default(first));
    begin_value(alloc, at, stack, token)
}

/// A token behind `export default`.
fn after_default(
    alloc: Global,
    at: usize,
    stack: &mut Stack,
    first: usize,
    token: &TokenKind,
) -> Result<Turn, NoMemory>
    requires { at < usize.MAX }
    ensures { IfOk result (λ turn. turn_view stack.new turn ≡ default_step at [] first (items_before stack.old) token.now) }
{
    match token {
        TokenKind::Name(word) => {
            if statement_word(word.as_bytes()) == StatementWord::Function {
                stack.begin(Bottom::Item(first, Wrap::Default));
                let kind = FunctionKind::Default;
                Ok(Turn::Go(Mode::Head(HeadMode::Function(kind, at))))
            } else {
                begin_default(alloc, at, stack, first, token)
            }
        }
        _ => begin_default(alloc, at, stack, first, token),
    }
}

/// The variable `type` begins an item.
#[tactic(auto, using(code_state::proofs::Pushes::nothings))]
fn after_type_variable(
    alloc: Global,
    at: usize,
    stack: &mut Stack,
    first: usize,
    token: &TokenKind,
) -> Result<Turn, NoMemory>
    requires { at < usize.MAX }
    ensures { IfOk result (λ turn. turn_view stack.new turn ≡ links_step at (in_simple first evaluates ∷ in_item first plain_item (items_before stack.old) ∷ []) (ex first at (variable (codes "type"))) no_link token.now) }
{
    stack.begin(Bottom::Item(first, Wrap::Plain));
    stack.push(Frame::Value(ValueFrame::Simple(first, Verb::Evaluate)))?;
    let name = Text::from_bytes(alloc, b"type".as_slice())?;
    let linked = Linked {
        base: Expr::new(first, at, ExprForm::variable(name)),
        links: List::new(alloc),
    };
    after_links(alloc, at, stack, linked, token)
}

/// A token behind `type` where an item begins: a name makes it an alias.
fn after_type_word(
    alloc: Global,
    at: usize,
    stack: &mut Stack,
    first: usize,
    token: &TokenKind,
) -> Result<Turn, NoMemory>
    requires { at < usize.MAX }
    ensures { IfOk result (λ turn. turn_view stack.new turn ≡ type_word_step at [] first (items_before stack.old) token.now) }
{
    match token {
        TokenKind::Name(word) => {
            if may_alias(word.as_bytes()) {
                Ok(Turn::Item(ItemMode::Alias(AliasHead {
                    first,
                    wrap: Wrap::Plain,
                    start: first,
                    name: word.share()?,
                })))
            } else {
                Ok(Turn::Fault)
            }
        }
        _ => after_type_variable(alloc, at, stack, first, token),
    }
}

/// A token behind an alias's name.
fn after_alias_name(head: AliasHead, token: &TokenKind) -> Turn
    ensures { (s : Stack) → turn_view s result ≡ alias_step [] head.first (wrap_view head.wrap) (items_before s) head.start head.name token.now }
{
    match token {
        TokenKind::Punct(Punct::Assign) => Turn::Alias(head),
        _ => Turn::Fault,
    }
}

/// An alias as an item.
fn wrap_alias(wrap: Wrap, alias: Alias) -> ItemForm
    ensures { item_form_view result ≡ wrapped_alias (wrap_view wrap) (alias_tree_view alias) }
{
    match wrap {
        Wrap::Plain => ItemForm::Alias(alias),
        Wrap::Exported | Wrap::Default => ItemForm::Export(ExportForm::Alias(alias)),
    }
}

/// The type of an alias is whole, and the token at a place comes after it.
pub fn after_alias(
    at: usize,
    stack: &mut Stack,
    head: AliasHead,
    ty: TypeTree,
    token: &TokenKind,
) -> Result<Turn, NoMemory>
    requires { at < usize.MAX }
    ensures { IfOk result (λ turn. turn_view stack.new turn ≡ after_type at [] (alias_view (items_before stack.old) head) (type_view ty) token.now) }
{
    match token {
        TokenKind::Punct(Punct::Semicolon) => {
            let AliasHead {
                first,
                wrap,
                start,
                name,
            } = head;
            let alias = Alias {
                first: start,
                end: at,
                name,
                ty,
            };
            stack.give_item(first, at + 1, wrap_alias(wrap, alias))
        }
        _ => Ok(Turn::Fault),
    }
}

/// What comes next in an item that holds no code yet.
fn turn_of(mode: Option<ItemMode>) -> Turn
    ensures { (s : Stack) → turn_view s result ≡ item_turn (items_before s) mode }
{
    match mode {
        Some(mode) => Turn::Item(mode),
        None => Turn::Fault,
    }
}

/// A token inside of an export that holds no code yet.
fn export_token(
    alloc: Global,
    at: usize,
    stack: &mut Stack,
    mode: ExportMode,
    token: &TokenKind,
) -> Result<Turn, NoMemory>
    requires { at < usize.MAX }
    ensures { IfOk result (λ turn. turn_view stack.new turn ≡ machine_step at [] (export_mode_view (items_before stack.old) mode) token.now) }
{
    match mode {
        ExportMode::Start(first) => after_export(alloc, at, stack, first, token),
        ExportMode::Type(first, start) => {
            Ok(turn_of(after_export_type(alloc, at, first, start, token)?))
        }
        ExportMode::List(first, types, list) => {
            after_exports(at, stack, first, types, list, token)
        }
        ExportMode::From(first, types, list) => {
            Ok(turn_of(after_export_from(first, types, list, token)?))
        }
        ExportMode::Default(first) => after_default(alloc, at, stack, first, token),
    }
}

/// Takes the token at a place, where an item begins or holds no code yet.
pub fn step(
    alloc: Global,
    at: usize,
    stack: &mut Stack,
    mode: ItemMode,
    token: &TokenKind,
) -> Result<Turn, NoMemory>
    requires { at < usize.MAX }
    ensures { IfOk result (λ turn. turn_view stack.new turn ≡ machine_step at [] (item_mode_view (items_before stack.old) mode) token.now) }
{
    match mode {
        ItemMode::Start => begin_item(alloc, at, stack, token),
        ItemMode::Type(first) => after_type_word(alloc, at, stack, first, token),
        ItemMode::Alias(head) => Ok(after_alias_name(head, token)),
        ItemMode::Import(mode) => Ok(turn_of(import_token(alloc, at, mode, token)?)),
        ItemMode::Names(mode) => Ok(turn_of(names_token(at, mode, token)?)),
        ItemMode::Export(mode) => export_token(alloc, at, stack, mode, token),
        ItemMode::End(first, ending) => end_item(at, stack, first, ending, token),
    }
}
