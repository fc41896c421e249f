// How far a module has been read.
ghost use Rattle.std.specs.Prelude.{◌≡◌};
ghost use Rattle.js_parser.specs.declared.reading.Halt.TheVariants.{NoMemory as no_memory};

use code_state::{AliasHead, ItemMode, Mode, Waiting};
use flow_values::{Boxed, NoMemory};
use type_parser::Mode as TypeMode;

/// What may come next: in an item's code, in a type there, where an item begins, or in the type of an alias. It is moved at each
/// token, so what belongs to a type is boxed.
#[derive(Drop)]
pub enum Reading {
    Code(Mode),
    Type(Boxed<Waiting>, Boxed<TypeMode>),
    Item(ItemMode),
    Alias(AliasHead, Boxed<TypeMode>),
}

/// Why nothing comes next: the token is no part of the module, the items ended before it, or memory was refused.
#[derive(Clone, Copy, Debug, PartialEq, Eq)]
pub enum Halt {
    Stop,
    Items,
    NoMemory,
}

impl From<NoMemory> for Halt {
    ghost from_gives = { λ _ e. e ≡ no_memory };

    fn from(_: NoMemory) -> Halt {
        Halt::NoMemory
    }
}
