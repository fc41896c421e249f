ghost use Rattle.std.specs.Prelude.{◌≡◌, IfOk};
ghost use Rattle.tree_types.specs.TreeTypes.{key_text, last_of_each};
ghost use Rattle.type_tree.specs.View.{key_view};

use flow_values::{List, NoMemory, Text};
use std::alloc::Global;
use std::collections::BTreeSet;
use type_tree::{Key, KeyForm};
use type_values::FlowProp;

/// The text of a key: the word that it is, or what its string stands for.
pub fn key_text(key: &Key) -> &Text
    ensures { result.now ≡ key_text (key_view key.now) }
{
    match &key.form {
        KeyForm::Word(word) => word,
        KeyForm::Str(text) => text,
    }
}

/// Of the properties of one key the last one, at its own place. They are looked at from the last one
/// on, and the keys so far are kept in order, so that no key is compared with all of them.
///
/// # Errors
///
/// `NoMemory` where memory is refused.
pub fn last_of_each(alloc: Global, props: &[FlowProp]) -> Result<List<FlowProp>, NoMemory>
    ensures { IfOk result (λ kept. kept ≡ last_of_each props.now) }
{
    let mut keys = BTreeSet::new(alloc);
    let mut kept = Vec::new(alloc);
    for i in (0..props.len()).rev() {
        let prop = &props[i];
        if !keys.insert(prop.key.as_bytes())? {
            continue;
        }
        kept.push(prop.share()?)?;
    }
    kept.reverse();
    Ok(List::from_vec(kept))
}
