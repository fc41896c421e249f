//! Types from their texts.

ghost use Rattle.std.specs.Prelude.{◌≡◌, IfOk};
ghost use Rattle.type_values.specs.declared.types.FlowType as made;

use flow_values::{NoMemory, Path, Text};
use js_lexer::lex;
use std::alloc::Global;
use tree_typing::{Names, type_of_tree};
use type_parser::read_type;
use type_values::FlowType;

// A module in which every name is an alias.
#[derive(Clone, Copy)]
struct OneModule<'a> {
    path: &'a Path,
}

impl<'a> Names for OneModule<'a> {
    ghost stands_for = { λ of name. made.Ref of.path.now name };

    fn type_of_name(&self, _alloc: Global, name: &Text) -> Result<FlowType, NoMemory> {
        Ok(FlowType::Ref {
            module: self.path.share()?,
            name: name.share()?,
        })
    }
}

/// The type that a text spells, where every name is an alias of the module at `home`; none where the
/// whole text is no type.
///
/// # Errors
///
/// `NoMemory` where memory is refused.
pub(crate) fn type_in_text(
    alloc: Global,
    home: &Path,
    text: &str,
) -> Result<Option<FlowType>, NoMemory> {
    let Ok(tokens) = lex(alloc, text.as_bytes()) else {
        return Ok(None);
    };
    let Ok((tree, end)) = read_type(alloc, tokens.as_slice(), 0, true) else {
        return Ok(None);
    };
    if end < tokens.len() {
        return Ok(None);
    }
    Ok(Some(type_of_tree(alloc, &OneModule { path: home }, &tree)?))
}
