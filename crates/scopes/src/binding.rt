//! What names are bound to.
ghost use Rattle.std.specs.Prelude.{◌≡◌, ◌≤◌, ◌^◌, IfOk, OnErr};
ghost use Rattle.flow_facts.specs.Known.{numbered, is_constant_number};
ghost use Rattle.typing.specs.Names.{number_at, is_constant_kind, has_facts_kind};
ghost use Rattle.typing.specs.Statements.{is_shared_kind};

use check_values::Code;
use flow_values::{NoMemory, Text};
use type_values::FlowType;

/// What a name is, which tells whether it may be assigned and has facts.
#[derive(Clone, Copy, Debug, PartialEq, Eq)]
pub enum Kind {
    /// An import, a function, a `const`, or a name of the prelude.
    Constant,
    /// A `let` or a parameter.
    Changing,
    /// One that is assigned in a function inside its own: it has no facts, nor have its properties.
    Shared,
    /// A type, which is no value.
    TypeName,
}

impl Kind {
    ghost use Rattle.scopes.specs.Rows.{kind_view};

    /// Whether it may not be assigned.
    pub fn is_constant(self) -> bool
        ensures { result ≡ is_constant_kind (kind_view self) }
    {
        match self {
            Kind::Constant => true,
            Kind::Changing | Kind::Shared | Kind::TypeName => false,
        }
    }

    /// Whether it is assigned in a function inside its own.
    pub fn is_shared(self) -> bool
        ensures { result ≡ is_shared_kind (kind_view self) }
    {
        match self {
            Kind::Shared => true,
            Kind::Constant | Kind::Changing | Kind::TypeName => false,
        }
    }

    /// Whether the places of such a name have facts.
    pub fn has_facts(self) -> bool
        ensures { result ≡ has_facts_kind (kind_view self) }
    {
        match self {
            Kind::Constant | Kind::Changing => true,
            Kind::Shared | Kind::TypeName => false,
        }
    }
}

/// A name of a scope. Its number names its place in the facts; its depth is how many functions stand
/// round its scope; its type is known once its declaration was read, and before where it is annotated.
#[derive(Debug, Drop)]
pub struct Binding {
    pub name: Text,
    pub number: u32,
    pub kind: Kind,
    pub depth: usize,
    pub is_read: bool,
    pub declared: Option<FlowType>,
}

impl Binding {
    /// The number of the n-th variable, constant or not: that of a constant is odd.
    ///
    /// # Errors
    ///
    /// `NoMemory` where n is 2^31 or more.
    #[tactic(auto, using(crate::proofs::Numbers::odd_number, crate::proofs::Numbers::even_number))]
    pub fn numbered(is_constant: bool, n: usize) -> Result<u32, NoMemory>
        ensures number { IfOk result (λ number. number ≡ numbered is_constant n) }
        ensures kind { IfOk result (λ number. is_constant_number number ≡ is_constant) }
        ensures err { OnErr result (2 ^ 31 ≤ n) }
    {
        let Ok(n) = u32::try_from(n) else {
            return Err(NoMemory);
        };
        if n >= 1 << 31 {
            return Err(NoMemory);
        }
        if is_constant {
            return Ok(n + n + 1);
        }
        Ok(n + n)
    }

    /// The number of a name that is bound at a token, to a constant or not.
    ///
    /// # Errors
    ///
    /// `NoMemory` where the token's number is 2^31 - 5 or more.
    pub fn number_at(is_constant: bool, token: usize) -> Result<u32, NoMemory>
        ensures { IfOk result (λ number. number ≡ number_at is_constant token) }
    {
        let Some(n) = token.checked_add(5) else {
            return Err(NoMemory);
        };
        Binding::numbered(is_constant, n)
    }
}

/// A variable that a name means: its number and what it is.
#[derive(Clone, Copy, Debug, PartialEq, Eq)]
pub struct Variable {
    pub number: u32,
    pub kind: Kind,
}

/// What a name means in an expression: a variable and its declared type, or a fault.
#[derive(Debug, Drop)]
pub enum Meaning {
    Variable(Variable, FlowType),
    NoVariable(Code),
}
