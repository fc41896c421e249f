ghost use Rattle.std.specs.Prelude.{◌≡◌, List, ℕ, IfOk, unwrap_or};
ghost use Rattle.std.specs.Option.{is_some};
ghost use Rattle.check_values.specs.Rows.{row_at};
ghost use Rattle.tree_types.specs.TreeTypes.{named_types, type_at};
ghost use Rattle.type_values.specs.declared.types.FlowType.{FlowType};

use flow_values::{NoMemory, Text};
use std::alloc::Global;
use type_values::FlowType;

/// What the names of a module stand for as types, where they are no type's own names.
pub trait Names {
    /// The type that each name stands for.
    ghost stands_for: { Self → List ℕ → FlowType };

    /// The type that a name stands for.
    ///
    /// # Errors
    ///
    /// `NoMemory` where memory is refused.
    fn type_of_name(&self, alloc: Global, name: &Text) -> Result<FlowType, NoMemory>
        ensures { IfOk result (λ t. t ≡ stands_for self.now name.now) };
}

// The type whose own name this is.
fn base_type(word: &[u8]) -> Option<FlowType>
    ensures { result ≡ row_at named_types word.now }
{
    if b"any".as_slice() == word {
        Some(FlowType::Any)
    } else if b"mixed".as_slice() == word {
        Some(FlowType::Mixed)
    } else if b"empty".as_slice() == word {
        Some(FlowType::Empty)
    } else if b"number".as_slice() == word {
        Some(FlowType::Number)
    } else if b"string".as_slice() == word {
        Some(FlowType::Str)
    } else if b"boolean".as_slice() == word {
        Some(FlowType::Boolean)
    } else {
        None
    }
}

// The type that a name stands for, a type's own name or another.
pub fn type_of_word<N: Names>(alloc: Global, names: &N, word: &Text) -> Result<FlowType, NoMemory>
    ensures { IfOk result (λ t. t ≡ type_at (N.stands_for names.now) word.now) }
{
    match base_type(word.as_bytes()) {
        Some(own) => Ok(own),
        None => names.type_of_name(alloc, word),
    }
}

/// Whether a word is a type's own name.
pub fn is_type_name(word: &[u8]) -> bool
    ensures { result ≡ is_some (row_at named_types word.now) }
{
    base_type(word).is_some()
}
