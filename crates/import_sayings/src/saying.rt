//! What a module says of one of its exports.
ghost use Rattle.std.specs.Prelude.{◌≡◌, IfOk};
ghost use Rattle.errors_by_reach.specs.module_errors.specs.Program.{says_it, value_said, type_said, wrong_import};
ghost use Rattle.import_sayings.specs.View.{saying_view};

use check_values::{Code, Export};
use flow_values::NoMemory;
use type_values::FlowType;

/// What a module says of one of its exports: nothing, where there is no such module or it is broken;
/// that it lacks it; or what it is.
#[derive(Clone, Copy, Debug)]
pub enum Saying<'j> {
    Nothing,
    Lacks,
    Says(&'j Export),
}

impl Saying<'_> {
    /// The type of an imported value.
    ///
    /// # Errors
    ///
    /// `NoMemory` where memory is refused.
    pub fn value(&self) -> Result<FlowType, NoMemory>
        ensures { IfOk result (λ t. t ≡ value_said (saying_view self.now)) }
    {
        match self {
            Saying::Nothing | Saying::Lacks => Ok(FlowType::Any),
            Saying::Says(export) => value_of(export),
        }
    }

    /// The type that an imported type's name stands for.
    ///
    /// # Errors
    ///
    /// `NoMemory` where memory is refused.
    pub fn type_name(&self) -> Result<FlowType, NoMemory>
        ensures { IfOk result (λ t. t ≡ type_said (saying_view self.now)) }
    {
        match self {
            Saying::Nothing | Saying::Lacks => Ok(FlowType::Any),
            Saying::Says(export) => alias_of(export),
        }
    }

    /// What is wrong with asking for a type (true) or a value.
    pub fn wrong(&self, is_type: bool) -> Option<Code>
        ensures { result ≡ wrong_import is_type (saying_view self.now) }
    {
        match self {
            Saying::Nothing => None,
            Saying::Lacks => Some(Code::MissingExport),
            Saying::Says(export) => wrong_kind(is_type, export),
        }
    }
}

// The type of a value, and `any` for other exports.
fn value_of(export: &Export) -> Result<FlowType, NoMemory>
    ensures { IfOk result (λ t. t ≡ value_said (says_it export.now)) }
{
    match export {
        Export::Value(t) => t.share(),
        Export::Alias { module: _, name: _ } | Export::Unknown | Export::Cyclic => {
            Ok(FlowType::Any)
        }
    }
}

// The name of an alias, and `any` for other exports.
fn alias_of(export: &Export) -> Result<FlowType, NoMemory>
    ensures { IfOk result (λ t. t ≡ type_said (says_it export.now)) }
{
    match export {
        Export::Alias { module, name } => Ok(FlowType::Ref {
            module: module.share()?,
            name: name.share()?,
        }),
        Export::Value(_) | Export::Unknown | Export::Cyclic => Ok(FlowType::Any),
    }
}

// An export of the other kind than what is asked for, or one whose chain comes back, is wrong.
fn wrong_kind(is_type: bool, export: &Export) -> Option<Code>
    ensures { result ≡ wrong_import is_type (says_it export.now) }
{
    match export {
        Export::Value(_) => {
            if is_type {
                Some(Code::ValueAsType)
            } else {
                None
            }
        }
        Export::Alias { module: _, name: _ } => {
            if is_type {
                None
            } else {
                Some(Code::TypeAsValue)
            }
        }
        Export::Unknown => None,
        Export::Cyclic => Some(Code::RecursiveDefinition),
    }
}
