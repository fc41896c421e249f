// The tokens of trees. They are written from the last to the first, as the grammar says what each
// form is spelled with before the tokens that follow it.
mod code;
mod items;
mod signatures;
mod tail;
mod types;

pub use items::spell;
