//! What the names of a module mean as types.
ghost use Rattle.std.specs.Prelude.{◌≡◌, not, List, ℕ, None, OnOk, OnErr, IfOk};
ghost use Rattle.std.specs.Option.{is_some};
ghost use Rattle.std.specs.Str.{bytes_eq};
ghost use Rattle.typing.specs.TypeFaults.{type_meant};

use check_values::Code;
use flow_values::{NoMemory, Text};
use std::alloc::Global;
use std::collections::BTreeMap;
use tree_typing::Names;
use type_values::FlowType;

/// What a name means as a type: a type, or a fault.
#[derive(Debug, Drop)]
pub enum TypeMeaning {
    Type(FlowType),
    NoType(Code),
}

/// What each name of a module means as a type. A name that is not among them is bound nowhere.
#[derive(Drop)]
pub struct TypeScope {
    rows: BTreeMap<Text, TypeMeaning>,
}

impl TypeScope {
    ghost use Rattle.check_world.specs.View.{meaning_view, fault_code, row_of, meaning_in, with_row};

    /// No names.
    #[tactic(auto, unfolding(crate::specs::View::row_of))]
    pub fn new(alloc: Global) -> TypeScope
        ensures { (name : List ℕ) → row_of result name ≡ None }
    {
        TypeScope {
            rows: BTreeMap::new(alloc),
        }
    }

    /// Gives a name a meaning, where it has none, and says whether it had none.
    ///
    /// # Errors
    ///
    /// `NoMemory` where memory is refused. The names then stay.
    #[tactic(auto, using(crate::proofs::NameRows::row_stays, crate::proofs::NameRows::row_added), unfolding(crate::specs::View::row_of))]
    pub fn add(&mut self, name: Text, meaning: TypeMeaning) -> Result<bool, NoMemory>
        ensures added { IfOk result (λ added. added ≡ not (is_some (row_of self.old name))) }
        ensures rows { OnOk result ((other : List ℕ) → row_of self.new other ≡ with_row (row_of self.old other) (bytes_eq name other) meaning) }
        ensures err { OnErr result ((other : List ℕ) → row_of self.new other ≡ row_of self.old other) }
    {
        if self.rows.get(&name).is_some() {
            return Ok(false);
        }
        self.rows.insert(name, meaning)?;
        Ok(true)
    }

    /// What a name means as a type.
    ///
    /// # Errors
    ///
    /// `NoMemory` where memory is refused.
    #[tactic(auto, unfolding(crate::specs::View::row_of))]
    pub fn meaning(&self, name: &Text) -> Result<TypeMeaning, NoMemory>
        ensures { IfOk result (λ meaning. meaning_view meaning ≡ meaning_in self.now name.now) }
    {
        match self.rows.get(name) {
            Some(TypeMeaning::Type(t)) => Ok(TypeMeaning::Type(t.share()?)),
            Some(TypeMeaning::NoType(code)) => Ok(TypeMeaning::NoType(*code)),
            None => Ok(TypeMeaning::NoType(Code::CannotResolveName)),
        }
    }

    /// The fault of a name that means no type.
    #[tactic(auto, unfolding(crate::specs::View::row_of))]
    pub fn fault(&self, name: &Text) -> Option<Code>
        ensures { result ≡ fault_code (meaning_in self.now name.now) }
    {
        match self.rows.get(name) {
            Some(TypeMeaning::Type(_)) => None,
            Some(TypeMeaning::NoType(code)) => Some(*code),
            None => Some(Code::CannotResolveName),
        }
    }
}

impl Names for TypeScope {
    ghost use Rattle.check_world.specs.View.{meaning_in};

    ghost stands_for = { λ scope name. type_meant (meaning_in scope name) };

    #[tactic(auto, unfolding(crate::specs::View::row_of))]
    fn type_of_name(&self, _alloc: Global, name: &Text) -> Result<FlowType, NoMemory> {
        match self.rows.get(name) {
            Some(TypeMeaning::Type(t)) => t.share(),
            _ => Ok(FlowType::Any),
        }
    }
}
