//! Properties and parameters that may be absent.
ghost use Rattle.std.specs.Prelude.{◌≡◌, IfOk};
ghost use Rattle.type_terms.specs.Optional.{eff};

use flow_values::{List, NoMemory, Shared};
use std::alloc::Global;
use type_values::FlowType;

/// The effective type of a property or parameter of type `t`: the union of `t` and `void`, in that
/// order, where it is optional, and else `t`.
///
/// # Errors
///
/// `NoMemory` where memory is refused.
pub fn eff(alloc: Global, optional: bool, t: &FlowType) -> Result<FlowType, NoMemory>
    ensures { IfOk result (λ all. all ≡ eff optional t.now) }
{
    if !optional {
        return t.share();
    }
    let mut all = List::new(alloc);
    all.push(t.share()?)?;
    all.push(FlowType::Void)?;
    Ok(FlowType::Union(Shared::new(alloc, all)?))
}
