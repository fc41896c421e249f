//! Calls of each member.
ghost use Rattle.std.specs.Prelude.{◌≡◌, ◌++◌, ◌∷◌, [], OnOk, IfOk, codes};
ghost use Rattle.std.specs.Fmt.{decimal};
ghost use Rattle.std.specs.Option.{option_copied};
ghost use Rattle.type_values.specs.declared.types.FlowType.{out-FlowType};
ghost use Rattle.type_values.specs.declared.types.FlowType.TheOpen as level;
ghost use Rattle.check_world.specs.View.{world_view};
ghost use Rattle.typing.specs.Members.{param_at, arity_fits, one_function, may_lack, member_called, misfit, misfits, member_misfits, args_faults, at_callee};
ghost use Rattle.member_steps.specs.View.{step_view, call_view, argument_view, arguments_view, levels_seen};

use crate::step::Step;
use check_values::{Code, Fault};
use check_world::World;
use flow_values::{List, NoMemory, Text};
use type_terms::{brief, eff};
use type_values::{FlowType, Param};

/// An argument that was read, at these tokens.
#[derive(Debug, Drop)]
pub struct Argument {
    pub first: usize,
    pub end: usize,
    pub ty: FlowType,
}

/// A call at the tokens from one number up to another, whose callee ends at a third one, with its type
/// and the arguments.
#[derive(Clone, Copy)]
pub struct Call<'t> {
    pub first: usize,
    pub callee_end: usize,
    pub end: usize,
    pub callee_type: &'t FlowType,
    pub arguments: &'t [Argument],
}

/// What the k-th parameter takes, where there is one: an optional one `void` too.
///
/// # Errors
///
/// `NoMemory` where memory is refused.
pub fn param_at(world: &World<'_>, params: &[Param], k: usize) -> Result<Option<FlowType>, NoMemory>
    ensures { IfOk result (λ want. want ≡ param_at params.now k) }
{
    match params.get(k) {
        None => Ok(None),
        Some(param) => Ok(Some(eff(world.alloc, param.optional, &param.ty)?)),
    }
}

// A parameter without argument takes `void`.
fn may_lack(world: &World<'_>, param: &Param) -> Result<bool, NoMemory>
    ensures { IfOk result (λ yes. yes ≡ may_lack (world_view world.now) param.now) }
{
    let taken = eff(world.alloc, param.optional, &param.ty)?;
    world.is_below(&FlowType::Void, &taken)
}

// Each argument has a parameter, and each parameter without argument takes `void`.
fn arity_fits(world: &World<'_>, count: usize, params: &[Param]) -> Result<bool, NoMemory>
    ensures { IfOk result (λ yes. yes ≡ arity_fits (world_view world.now) count params.now) }
{
    if count > params.len() {
        return Ok(false);
    }
    for k in count..params.len() {
        if !may_lack(world, &params[k])? {
            return Ok(false);
        }
    }
    Ok(true)
}

// The numbers of arguments and of parameters.
fn arity_details(world: &World<'_>, count: usize, params: usize) -> Result<Text, NoMemory>
    ensures { IfOk result (λ text. text ≡ decimal count ++ (codes " " ++ decimal params)) }
{
    let text = format!(in world.alloc; "{count} {params}")?;
    Text::from_bytes(world.alloc, text.as_bytes())
}

// A fault at the callee.
fn callee_fails(world: &World<'_>, call: &Call<'_>, code: Code) -> Result<Step, NoMemory>
    ensures { IfOk result (λ step. step_view step ≡ at_callee (world_view world.now) (call_view call.now) code) }
{
    let details = brief(world.alloc, call.callee_type)?;
    let fault = world.fault(call.first, call.callee_end, code, details);
    Step::fails(world.alloc, fault)
}

// Calling a function.
fn call_function(
    world: &World<'_>,
    call: &Call<'_>,
    params: &[Param],
    output: &FlowType,
) -> Result<Step, NoMemory>
    ensures { IfOk result (λ step. step_view step ≡ member_called (world_view world.now) (call_view call.now) (level.Function params.now output.now)) }
{
    if arity_fits(world, call.arguments.len(), params)? {
        return Ok(Step::gives(world.alloc, output.share()?));
    }
    let details = arity_details(world, call.arguments.len(), params.len())?;
    let fault = world.fault(call.first, call.end, Code::IncompatibleArity, details);
    Step::fails(world.alloc, fault)
}

/// Calling a member.
///
/// # Errors
///
/// `NoMemory` where memory is refused.
pub fn call_member(world: &World<'_>, call: &Call<'_>, member: &FlowType) -> Result<Step, NoMemory>
    ensures { IfOk result (λ step. step_view step ≡ member_called (world_view world.now) (call_view call.now) (out-FlowType member.now)) }
{
    match member {
        FlowType::Any => Ok(Step::gives(world.alloc, FlowType::Any)),
        FlowType::Function { params, result } => {
            call_function(world, call, params.as_slice(), result.get())
        }
        FlowType::Null | FlowType::Void | FlowType::Mixed => {
            callee_fails(world, call, Code::IncompatibleUse)
        }
        _ => callee_fails(world, call, Code::NotAFunction),
    }
}

// The parameters of a member, where it is a function.
fn params_of(member: &FlowType) -> Option<&[Param]>
    ensures { option_copied result ≡ one_function (out-FlowType member.now ∷ []) }
{
    match member {
        FlowType::Function { params, result: _ } => Some(params.as_slice()),
        _ => None,
    }
}

/// The parameters of the one member, where it is a function.
#[tactic(auto, using(crate::proofs::Calls::one_function_none, crate::proofs::Calls::one_function_more))]
pub fn one_function<'t>(members: &[&'t FlowType]) -> Option<&'t [Param]>
    ensures { option_copied result ≡ one_function (levels_seen members.now) }
{
    match members {
        [member] => params_of(*member),
        _ => None,
    }
}

// Adds the fault of an argument that is not below what its parameter takes.
fn add_misfit(
    world: &World<'_>,
    argument: &Argument,
    want: Option<FlowType>,
    faults: &mut List<Fault>,
) -> Result<(), NoMemory>
    ensures { OnOk result (faults.new ≡ faults.old ++ misfit (world_view world.now) (argument_view argument.now) want) }
{
    let Some(want) = want else {
        return Ok(());
    };
    if world.is_below(&argument.ty, &want)? {
        return Ok(());
    }
    let details = world.two_types(&argument.ty, &want)?;
    let code = Code::IncompatibleType;
    faults.push(world.fault(argument.first, argument.end, code, details))
}

// Adds the faults of the arguments that are not below what a function's parameters take.
#[tactic(auto, using(crate::proofs::Calls::misfits_next))]
fn add_misfits(
    world: &World<'_>,
    params: &[Param],
    arguments: &[Argument],
    faults: &mut List<Fault>,
) -> Result<(), NoMemory>
    ensures { OnOk result (faults.new ≡ faults.old ++ misfits (world_view world.now) params.now 0 (arguments_view arguments.now)) }
{
    for k in 0..arguments.len() {
        let argument = &arguments[k];
        let want = param_at(world, params, k)?;
        add_misfit(world, argument, want, faults)?;
    }
    Ok(())
}

// Adds the faults of the arguments at a member, where it is a function.
fn add_member_misfits(
    world: &World<'_>,
    member: &FlowType,
    arguments: &[Argument],
    faults: &mut List<Fault>,
) -> Result<(), NoMemory>
    ensures { OnOk result (faults.new ≡ faults.old ++ member_misfits (world_view world.now) (arguments_view arguments.now) (out-FlowType member.now)) }
{
    match member {
        FlowType::Function { params, result: _ } => {
            add_misfits(world, params.as_slice(), arguments, faults)
        }
        _ => Ok(()),
    }
}

/// The faults of arguments that were read plainly, which fit each function; those of the one function
/// were read against its parameters.
///
/// # Errors
///
/// `NoMemory` where memory is refused.
#[tactic(auto, using(crate::proofs::Calls::args_one, crate::proofs::Calls::args_each, crate::proofs::Calls::member_next))]
pub fn argument_faults(
    world: &World<'_>,
    members: &[&FlowType],
    arguments: &[Argument],
) -> Result<List<Fault>, NoMemory>
    ensures { IfOk result (λ faults. faults ≡ args_faults (world_view world.now) (levels_seen members.now) (arguments_view arguments.now)) }
{
    let mut faults = List::new(world.alloc);
    if one_function(members).is_some() {
        return Ok(faults);
    }
    for i in 0..members.len() {
        let member = members[i];
        add_member_misfits(world, member, arguments, &mut faults)?;
    }
    Ok(faults)
}
