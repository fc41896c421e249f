//! The properties of an object literal.
#![tactic(auto, unfolding(code_tree::specs::View::field_view, code_tree::specs::View::field_form_view))]

ghost use Rattle.std.specs.Prelude.{◌≡◌, IfOk};
ghost use Rattle.tree_types.specs.TreeTypes.{key_text};
ghost use Rattle.code_tree.specs.View.{fields_view, field_form_view};
ghost use Rattle.code_tree.specs.declared.types.Field.{out-Field};
ghost use Rattle.literal_reads.specs.View.{entries_view};
ghost use Rattle.literal_reads.specs.Keys.{entry_view};
ghost use Rattle.typing.specs.Objects.{entries_of, entry_of};

use code_tree::{Field, FieldForm};
use flow_values::NoMemory;
use literal_reads::{Entries, Entry};
use part_steps::next;
use place_tests::literal_type;
use std::alloc::Global;
use tree_typing::key_text;

// A property that begins at a token.
#[tactic(auto, using(crate::proofs::Fronts::entry_valued), unfolding(code_tree::specs::View::field_view, code_tree::specs::View::field_form_view))]
fn entry_of(field: &Field) -> Result<Entry, NoMemory>
    ensures { IfOk result (λ entry. entry_view entry ≡ entry_of (field_form_view (out-Field field.now).form) (out-Field field.now).first) }
{
    match &field.form {
        FieldForm::Shorthand(name) => Ok(Entry {
            first: field.first,
            end: next(field.first)?,
            name: name.share()?,
            literal: None,
        }),
        FieldForm::Valued { key, value } => Ok(Entry {
            first: key.first,
            end: key.end,
            name: key_text(key).share()?,
            literal: literal_type(value)?,
        }),
    }
}

/// The properties of a literal, in order.
///
/// # Errors
///
/// `NoMemory` where memory is refused.
#[tactic(auto, using(crate::proofs::Fronts::entries_all), unfolding(code_tree::specs::View::field_view, code_tree::specs::View::field_form_view))]
pub(crate) fn entries_of(alloc: Global, fields: &[Field]) -> Result<Entries, NoMemory>
    ensures { IfOk result (λ entries. entries_view entries ≡ entries_of (fields_view fields.now)) }
{
    let mut entries = Entries::new(alloc);
    for i in 0..fields.len() {
        let entry = entry_of(&fields[i])?;
        entries.add(entry)?;
    }
    Ok(entries)
}
