// Imports.
ghost use Rattle.std.specs.Prelude.{◌≡◌, IfOk, []};
ghost use Rattle.js_grammar.specs.Items.{Items};
ghost use Rattle.js_tree.specs.View.{import_form_view};
ghost use Rattle.code_law.specs.Modules.{import_step, import_word_step, import_comma_step, from_step, source_step};
ghost use Rattle.code_law.specs.Machine.{step as machine_step};
ghost use Rattle.code_state.specs.Forms.{import_mode_view};
ghost use Rattle.item_steps.specs.Turns.{item_turn};

use crate::names::begin_imported;
use code_state::{Ending, ImportMode, ItemMode, Opening};
use flow_values::{NoMemory, Text};
use js_token::{Punct, TokenKind, is_reserved};
use js_tree::ImportForm;
use std::alloc::Global;

/// A token behind `import`.
fn import_start(
    alloc: Global,
    at: usize,
    first: usize,
    token: &TokenKind,
) -> Result<Option<ItemMode>, NoMemory>
    ensures { IfOk result (λ mode. (is : Items) → item_turn is mode ≡ import_step at [] first is token.now) }
{
    match token {
        TokenKind::Str(specifier) => {
            let ending = Ending::Import(ImportForm::Only, specifier.share()?);
            Ok(Some(ItemMode::End(first, ending)))
        }
        TokenKind::Name(word) => {
            if is_reserved(word.as_bytes()) {
                return Ok(None);
            }
            let word = word.share()?;
            Ok(Some(ItemMode::Import(ImportMode::Word(first, word))))
        }
        TokenKind::Punct(Punct::OpenBrace) => {
            Ok(Some(begin_imported(alloc, first, Opening::Names, at)))
        }
        _ => Ok(None),
    }
}

/// A token where `from` stands.
fn from_word(first: usize, form: ImportForm, token: &TokenKind) -> Option<ItemMode>
    ensures { (is : Items) → item_turn is result ≡ from_step [] first is (import_form_view form) token.now }
{
    let TokenKind::Name(word) = token else {
        return None;
    };
    if word.as_bytes() == b"from".as_slice() {
        Some(ItemMode::Import(ImportMode::From(first, form)))
    } else {
        None
    }
}

/// A token behind `import` and a word: `import type` before a brace imports types.
fn after_import_word(
    alloc: Global,
    at: usize,
    first: usize,
    word: Text,
    token: &TokenKind,
) -> Option<ItemMode>
    ensures { (is : Items) → item_turn is result ≡ import_word_step at [] first is word token.now }
{
    match token {
        TokenKind::Punct(Punct::OpenBrace) => {
            if word.as_bytes() == b"type".as_slice() {
                Some(begin_imported(alloc, first, Opening::Types, at))
            } else {
                None
            }
        }
        TokenKind::Punct(Punct::Comma) => Some(ItemMode::Import(ImportMode::Comma(first, word))),
        _ => from_word(first, ImportForm::Default(word), token),
    }
}

/// A token behind `import`, a name and a comma.
fn after_import_comma(
    alloc: Global,
    at: usize,
    first: usize,
    name: Text,
    token: &TokenKind,
) -> Option<ItemMode>
    ensures { (is : Items) → item_turn is result ≡ import_comma_step at [] first is name token.now }
{
    match token {
        TokenKind::Punct(Punct::OpenBrace) => {
            Some(begin_imported(alloc, first, Opening::Both(name), at))
        }
        _ => None,
    }
}

/// A token behind `from`.
fn after_from(
    first: usize,
    form: ImportForm,
    token: &TokenKind,
) -> Result<Option<ItemMode>, NoMemory>
    ensures { IfOk result (λ mode. (is : Items) → item_turn is mode ≡ source_step [] first is (import_form_view form) token.now) }
{
    match token {
        TokenKind::Str(specifier) => {
            let ending = Ending::Import(form, specifier.share()?);
            Ok(Some(ItemMode::End(first, ending)))
        }
        _ => Ok(None),
    }
}

/// A token inside of an import.
pub fn import_token(
    alloc: Global,
    at: usize,
    mode: ImportMode,
    token: &TokenKind,
) -> Result<Option<ItemMode>, NoMemory>
    ensures { IfOk result (λ next. (is : Items) → item_turn is next ≡ machine_step at [] (import_mode_view is mode) token.now) }
{
    match mode {
        ImportMode::Start(first) => import_start(alloc, at, first, token),
        ImportMode::Word(first, word) => Ok(after_import_word(alloc, at, first, word, token)),
        ImportMode::Comma(first, name) => Ok(after_import_comma(alloc, at, first, name, token)),
        ImportMode::List(first, form) => Ok(from_word(first, form, token)),
        ImportMode::From(first, form) => after_from(first, form, token),
    }
}
