//! The trees of items and modules, and the tokens that a module is spelled with. What tree of the
//! grammar a value stands for is `module_view` of `specs/View.antt`.
#![tactic(auto)]

mod items;
mod spelling;

pub use items::{
    Alias, ExportForm, ExportList, Exported, ImportForm, ImportList, Imported, Item, ItemForm,
    Module,
};
pub use spelling::spell;
