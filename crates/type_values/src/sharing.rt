ghost use Rattle.std.specs.Prelude.{◌≡◌, IfOk};

use crate::{FlowProp, FlowType, Param};
use flow_values::NoMemory;

impl FlowType {
    /// An equal type that shares all its parts: no part is copied or walked, so that it takes the same time for each type.
    ///
    /// # Errors
    ///
    /// `NoMemory` where a part has 2^63 - 1 owners.
    pub fn share(&self) -> Result<FlowType, NoMemory>
        ensures { IfOk result (λ copy. copy ≡ self.now) }
    {
        match self {
            FlowType::Any => Ok(FlowType::Any),
            FlowType::Mixed => Ok(FlowType::Mixed),
            FlowType::Empty => Ok(FlowType::Empty),
            FlowType::Number => Ok(FlowType::Number),
            FlowType::Str => Ok(FlowType::Str),
            FlowType::Boolean => Ok(FlowType::Boolean),
            FlowType::Null => Ok(FlowType::Null),
            FlowType::Void => Ok(FlowType::Void),
            FlowType::StrLit(text) => Ok(FlowType::StrLit(text.share()?)),
            FlowType::NumLit(text) => Ok(FlowType::NumLit(text.share()?)),
            FlowType::BoolLit(b) => Ok(FlowType::BoolLit(*b)),
            FlowType::Union(all) => Ok(FlowType::Union(all.share()?)),
            FlowType::Object { exact, props } => Ok(FlowType::Object {
                exact: *exact,
                props: props.share()?,
            }),
            FlowType::Tuple(all) => Ok(FlowType::Tuple(all.share()?)),
            FlowType::Array(element) => Ok(FlowType::Array(element.share()?)),
            FlowType::ReadArray(element) => Ok(FlowType::ReadArray(element.share()?)),
            FlowType::Function { params, result } => Ok(FlowType::Function {
                params: params.share()?,
                result: result.share()?,
            }),
            FlowType::Ref { module, name } => Ok(FlowType::Ref {
                module: module.share()?,
                name: name.share()?,
            }),
        }
    }
}

impl FlowProp {
    /// An equal property that shares all its parts.
    ///
    /// # Errors
    ///
    /// `NoMemory` where a part has 2^63 - 1 owners.
    pub fn share(&self) -> Result<FlowProp, NoMemory>
        ensures { IfOk result (λ copy. copy ≡ self.now) }
    {
        Ok(FlowProp {
            key: self.key.share()?,
            variance: self.variance,
            optional: self.optional,
            ty: self.ty.share()?,
        })
    }
}

impl Param {
    /// An equal parameter that shares all its parts.
    ///
    /// # Errors
    ///
    /// `NoMemory` where a part has 2^63 - 1 owners.
    pub fn share(&self) -> Result<Param, NoMemory>
        ensures { IfOk result (λ copy. copy ≡ self.now) }
    {
        Ok(Param {
            optional: self.optional,
            ty: self.ty.share()?,
        })
    }
}
