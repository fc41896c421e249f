use flow_values::Text;
use type_values::FlowType;

/// The tokens at which an export is a fault where it tells no type.
#[derive(Clone, Copy)]
pub enum Place {
    /// The name behind the token of this number, the first one of a declaration.
    Name(usize),
    /// The tokens from one number to another, without the latter.
    Whole(usize, usize),
}

/// What an export tells.
#[derive(Drop)]
pub enum Told<'a> {
    /// A value: its type where the boundary tells one.
    Value(Option<FlowType>, Place),
    /// An alias of the module.
    Alias(&'a Text),
    /// An import: its local name, the specifier, the name there (`None` is the default export), and
    /// whether it is a type.
    Import {
        local: &'a Text,
        specifier: &'a Text,
        name: Option<&'a Text>,
        is_type: bool,
    },
    /// An export of another module.
    Elsewhere {
        specifier: &'a Text,
        name: &'a Text,
        is_type: bool,
    },
    /// No binding, or one of the other kind.
    Nothing,
}

/// What an export says.
#[derive(Drop)]
pub enum Said<'a> {
    /// What it tells itself.
    Own(Told<'a>),
    /// What the module's binding of this name tells as a value.
    Name(&'a Text),
}
