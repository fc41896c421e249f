// The trees of items and modules. Each node has the numbers of its first token and of the token
// behind its last.
use code_tree::{Declaration, Expr, Function, Simple};
use flow_values::{List, Text};
use type_tree::TypeTree;

/// `name`, or `renamed as name`.
#[derive(Drop)]
pub struct Imported {
    pub first: usize,
    pub end: usize,
    /// What the other module calls it, where `as` stands.
    pub renamed: Option<Text>,
    /// What it is called here.
    pub name: Text,
}

/// Imported names in braces, with a comma behind the last or not.
#[derive(Drop)]
pub struct ImportList {
    pub first: usize,
    pub end: usize,
    pub names: List<Imported>,
    pub comma: bool,
}

/// `name`, or `name as renamed`.
#[derive(Drop)]
pub struct Exported {
    pub first: usize,
    pub end: usize,
    /// What it is called here, or in the module that it comes from.
    pub name: Text,
    /// What the other modules call it, where `as` stands.
    pub renamed: Option<Text>,
}

/// Exported names in braces, with a comma behind the last or not.
#[derive(Drop)]
pub struct ExportList {
    pub first: usize,
    pub end: usize,
    pub names: List<Exported>,
    pub comma: bool,
}

/// What stands between `import` and the specifier.
#[derive(Drop)]
pub enum ImportForm {
    /// `a from`
    Default(Text),
    /// `a, {b, c as d} from`
    Both { default: Text, names: ImportList },
    /// `{b, c as d} from`
    Names(ImportList),
    /// `type {B, C as D} from`
    Types(ImportList),
    /// Nothing.
    Only,
}

/// `type name = ty`, without its semicolon.
#[derive(Drop)]
pub struct Alias {
    pub first: usize,
    pub end: usize,
    pub name: Text,
    pub ty: TypeTree,
}

/// What stands behind `export`.
#[derive(Drop)]
pub enum ExportForm {
    Declaration(Declaration),
    Function(Function),
    Alias(Alias),
    /// `{a, b as c};`, behind `type` or not.
    Names {
        types: bool,
        list: ExportList,
    },
    /// `{a, b as c} from './d';`, behind `type` or not.
    From {
        types: bool,
        list: ExportList,
        specifier: Text,
    },
    /// `default function name() { .. }`, with a name or none.
    DefaultFunction(Function),
    /// `default e;`
    Default(Expr),
}

/// An item of a module, with its semicolon where it has one.
#[derive(Drop)]
pub struct Item {
    pub first: usize,
    pub end: usize,
    pub form: ItemForm,
}

/// The forms of items.
#[derive(Drop)]
pub enum ItemForm {
    Import { form: ImportForm, specifier: Text },
    Export(ExportForm),
    Declaration(Declaration),
    Function(Function),
    Alias(Alias),
    /// An assignment, or an expression alone.
    Simple(Simple),
}

/// A module: its items, in order.
#[derive(Drop)]
pub struct Module {
    pub first: usize,
    pub end: usize,
    pub items: List<Item>,
}
