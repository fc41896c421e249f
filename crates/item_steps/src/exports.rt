// Exports that hold no code.
ghost use Rattle.std.specs.Prelude.{◌≡◌, IfOk, []};
ghost use Rattle.std.specs.List.{list_all};
ghost use Rattle.js_grammar.specs.Items.{Items};
ghost use Rattle.js_tree.specs.View.{export_list_view};
ghost use Rattle.code_law.specs.Modules.{export_type_step, exports_from_step, are_local as all_local};
ghost use Rattle.item_steps.specs.Names.{is_name};
ghost use Rattle.item_steps.specs.Turns.{item_turn};

use crate::names::begin_exported;
use code_state::{AliasHead, Ending, ItemMode, Wrap};
use code_words::may_alias;
use flow_values::NoMemory;
use js_token::{Punct, TokenKind, is_reserved};
use js_tree::{ExportList, Exported};
use std::alloc::Global;

/// A token behind `export` and `type` at this place.
pub fn after_export_type(
    alloc: Global,
    at: usize,
    first: usize,
    start: usize,
    token: &TokenKind,
) -> Result<Option<ItemMode>, NoMemory>
    ensures { IfOk result (λ mode. (is : Items) → item_turn is mode ≡ export_type_step at [] first is start token.now) }
{
    match token {
        TokenKind::Name(word) => {
            if !may_alias(word.as_bytes()) {
                return Ok(None);
            }
            Ok(Some(ItemMode::Alias(AliasHead {
                first,
                wrap: Wrap::Exported,
                start,
                name: word.share()?,
            })))
        }
        TokenKind::Punct(Punct::OpenBrace) => Ok(Some(begin_exported(alloc, first, true, at))),
        _ => Ok(None),
    }
}

/// A token behind exported names and `from`.
pub fn after_export_from(
    first: usize,
    types: bool,
    list: ExportList,
    token: &TokenKind,
) -> Result<Option<ItemMode>, NoMemory>
    ensures { IfOk result (λ mode. (is : Items) → item_turn is mode ≡ exports_from_step [] first is types (export_list_view list) token.now) }
{
    match token {
        TokenKind::Str(specifier) => {
            let ending = Ending::From(types, list, specifier.share()?);
            Ok(Some(ItemMode::End(first, ending)))
        }
        _ => Ok(None),
    }
}

/// Whether what is exported is a name.
fn is_local(name: &Exported) -> bool
    ensures { result ≡ is_name name.now }
{
    !is_reserved(name.name.as_bytes())
}

fn all_names(names: &[Exported]) -> bool
    ensures { result ≡ list_all is_name names.now }
{
    names.iter().all(|name| is_local(name))
}

/// Whether each of what is exported from this module is a name.
#[tactic(auto, using(crate::proofs::Listings::are_names_view))]
pub fn are_local(list: &ExportList) -> bool
    ensures { result ≡ all_local (export_list_view list.now) }
{
    all_names(list.names.as_slice())
}
