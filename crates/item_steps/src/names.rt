// Names in braces.
ghost use Rattle.std.specs.Prelude.{◌≡◌, ◌<◌, IfOk, [], true, false};
ghost use Rattle.js_grammar.specs.Items.{Items, no_imported, no_exported};
ghost use Rattle.code_law.specs.Frames.{importing, exporting, listing as listing_of, names_start, opens_exports};
ghost use Rattle.code_law.specs.Modules.{end_names as ended, names_step, pair_step, name_step, as_step};
ghost use Rattle.code_law.specs.Machine.{step as machine_step};
ghost use Rattle.code_state.specs.Forms.{opening_view, names_view, listing_view, item_mode_view, names_mode_view};
ghost use Rattle.item_steps.specs.Names.{with_name, any_name, takes_word as may_take, name_ends};
ghost use Rattle.item_steps.specs.Turns.{item_turn};

use code_state::{ExportMode, ImportMode, ItemMode, Listing, Names, NamesMode, Opening};
use flow_values::{List, NoMemory, Text};
use js_token::{Punct, TokenKind, is_reserved};
use js_tree::{ExportList, Exported, ImportForm, ImportList, Imported};
use std::alloc::Global;

/// Imported names in braces begin.
#[tactic(auto, using(crate::proofs::Listings::nothings))]
pub fn begin_imported(alloc: Global, first: usize, opening: Opening, start: usize) -> ItemMode
    ensures { (is : Items) → item_mode_view is result ≡ names_start (listing_of first is (opening_view opening) start (importing no_imported)) }
{
    let names = Names::Imported(List::new(alloc));
    ItemMode::Names(NamesMode::Start(Listing {
        first,
        opening,
        start,
        names,
    }))
}

/// Exported names in braces begin, behind `type` or not.
#[tactic(auto, using(crate::proofs::Listings::nothings))]
pub fn begin_exported(alloc: Global, first: usize, types: bool, start: usize) -> ItemMode
    ensures { (is : Items) → item_mode_view is result ≡ names_start (listing_of first is (opens_exports types) start (exporting no_exported)) }
{
    let names = Names::Exported(List::new(alloc));
    ItemMode::Names(NamesMode::Start(Listing {
        first,
        opening: Opening::Exports(types),
        start,
        names,
    }))
}

/// Puts a word behind the names so far, and a word behind `as` or none, up to a place.
#[tactic(auto, using(crate::proofs::Listings::pushes))]
fn add_name(
    names: Names,
    first: usize,
    end: usize,
    word: Text,
    renamed: Option<Text>,
) -> Result<Names, NoMemory>
    ensures { IfOk result (λ more. names_view more ≡ with_name (names_view names) first end word renamed) }
{
    match names {
        Names::Imported(mut list) => {
            list.push(match renamed {
                None => {
                    Imported {
                        first,
                        end,
                        renamed: None,
                        name: word,
                    }
                }
                Some(name) => {
                    Imported {
                        first,
                        end,
                        renamed: Some(word),
                        name,
                    }
                }
            })?;
            Ok(Names::Imported(list))
        }
        Names::Exported(mut list) => {
            list.push(Exported {
                first,
                end,
                name: word,
                renamed,
            })?;
            Ok(Names::Exported(list))
        }
    }
}

/// Whether a name stands in the braces.
#[tactic(auto, using(crate::proofs::Listings::empties))]
fn has_names(names: &Names) -> bool
    ensures { result ≡ any_name (names_view names.now) }
{
    match names {
        Names::Imported(names) => !names.as_slice().is_empty(),
        Names::Exported(names) => !names.as_slice().is_empty(),
    }
}

/// Whether a word may stand for a name in the braces: what is imported gets a name, what is exported may be any word.
fn takes_word(names: &Names, word: &[u8]) -> bool
    ensures { result ≡ may_take (names_view names.now) word.now }
{
    match names {
        Names::Imported(_) => !is_reserved(word),
        Names::Exported(_) => true,
    }
}

/// The brace at this place ends the names, with a comma behind the last or not.
fn end_names(at: usize, listing: Listing, comma: bool) -> Option<ItemMode>
    requires { at < usize.MAX }
    ensures { (is : Items) → item_turn is result ≡ ended at [] (listing_view is listing) comma }
{
    let Listing {
        first,
        opening,
        start,
        names,
    } = listing;
    let end = at + 1;
    match names {
        Names::Imported(names) => {
            let names = ImportList {
                first: start,
                end,
                names,
                comma,
            };
            let form = match opening {
                Opening::Names => ImportForm::Names(names),
                Opening::Both(default) => ImportForm::Both { default, names },
                Opening::Types => ImportForm::Types(names),
                Opening::Exports(_) => return None,
            };
            Some(ItemMode::Import(ImportMode::List(first, form)))
        }
        Names::Exported(names) => {
            let Opening::Exports(types) = opening else {
                return None;
            };
            let list = ExportList {
                first: start,
                end,
                names,
                comma,
            };
            Some(ItemMode::Export(ExportMode::List(first, types, list)))
        }
    }
}

/// A token where a name may begin.
#[tactic(auto, using(crate::proofs::Listings::listings))]
fn name_start(at: usize, listing: Listing, token: &TokenKind) -> Result<Option<ItemMode>, NoMemory>
    requires { at < usize.MAX }
    ensures { IfOk result (λ mode. (is : Items) → item_turn is mode ≡ names_step at [] (listing_view is listing) token.now) }
{
    match token {
        TokenKind::Punct(Punct::CloseBrace) => {
            let comma = has_names(&listing.names);
            Ok(end_names(at, listing, comma))
        }
        TokenKind::Name(word) => {
            let word = word.share()?;
            Ok(Some(ItemMode::Names(NamesMode::Name(listing, at, word))))
        }
        _ => Ok(None),
    }
}

/// A token behind a name.
fn after_pair(at: usize, listing: Listing, token: &TokenKind) -> Option<ItemMode>
    requires { at < usize.MAX }
    ensures { (is : Items) → item_turn is result ≡ pair_step at [] (listing_view is listing) token.now }
{
    match token {
        TokenKind::Punct(Punct::CloseBrace) => end_names(at, listing, false),
        TokenKind::Punct(Punct::Comma) => Some(ItemMode::Names(NamesMode::Start(listing))),
        _ => None,
    }
}

/// A token behind a name at this place that no `as` follows.
#[tactic(auto, using(crate::proofs::Listings::listings))]
fn end_name(
    at: usize,
    listing: Listing,
    place: usize,
    word: Text,
    token: &TokenKind,
) -> Result<Option<ItemMode>, NoMemory>
    requires { at < usize.MAX }
    ensures { IfOk result (λ mode. (is : Items) → item_turn is mode ≡ name_ends at (listing_view is listing) place word token.now) }
{
    if !takes_word(&listing.names, word.as_bytes()) {
        return Ok(None);
    }
    let Listing {
        first,
        opening,
        start,
        names,
    } = listing;
    let names = add_name(names, place, at, word, None)?;
    let listing = Listing {
        first,
        opening,
        start,
        names,
    };
    Ok(after_pair(at, listing, token))
}

/// A token behind a word at this place.
fn after_name(
    at: usize,
    listing: Listing,
    place: usize,
    word: Text,
    token: &TokenKind,
) -> Result<Option<ItemMode>, NoMemory>
    requires { at < usize.MAX }
    ensures { IfOk result (λ mode. (is : Items) → item_turn is mode ≡ name_step at [] (listing_view is listing) place word token.now) }
{
    match token {
        TokenKind::Name(next) => {
            if next.as_bytes() == b"as".as_slice() {
                Ok(Some(ItemMode::Names(NamesMode::As(listing, place, word))))
            } else {
                Ok(None)
            }
        }
        _ => end_name(at, listing, place, word, token),
    }
}

/// A token behind a word at this place, and `as`.
#[tactic(auto, using(crate::proofs::Listings::listings))]
fn after_as(
    at: usize,
    listing: Listing,
    place: usize,
    word: Text,
    token: &TokenKind,
) -> Result<Option<ItemMode>, NoMemory>
    requires { at < usize.MAX }
    ensures { IfOk result (λ mode. (is : Items) → item_turn is mode ≡ as_step at [] (listing_view is listing) place word token.now) }
{
    match token {
        TokenKind::Name(name) => {
            if !takes_word(&listing.names, name.as_bytes()) {
                return Ok(None);
            }
            let Listing {
                first,
                opening,
                start,
                names,
            } = listing;
            let names = add_name(names, place, at + 1, word, Some(name.share()?))?;
            Ok(Some(ItemMode::Names(NamesMode::Pair(Listing {
                first,
                opening,
                start,
                names,
            }))))
        }
        _ => Ok(None),
    }
}

/// A token among names in braces.
pub fn names_token(
    at: usize,
    mode: NamesMode,
    token: &TokenKind,
) -> Result<Option<ItemMode>, NoMemory>
    requires { at < usize.MAX }
    ensures { IfOk result (λ next. (is : Items) → item_turn is next ≡ machine_step at [] (names_mode_view is mode) token.now) }
{
    match mode {
        NamesMode::Start(listing) => name_start(at, listing, token),
        NamesMode::Name(listing, start, word) => after_name(at, listing, start, word, token),
        NamesMode::As(listing, start, word) => after_as(at, listing, start, word, token),
        NamesMode::Pair(listing) => Ok(after_pair(at, listing, token)),
    }
}
