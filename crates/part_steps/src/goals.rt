//! Assignments on parts that were read.
ghost use Rattle.std.specs.Prelude.{◌≡◌, ◌++◌, [], map, IfOk, OnOk};
ghost use Rattle.std.specs.List.{filter_map};
ghost use Rattle.std.specs.Option.{option_copied, option_to_list};
ghost use Rattle.check_world.specs.View.{world_view, notes_view, levels_seen};
ghost use Rattle.scopes.specs.View.{scope_view};
ghost use Rattle.scopes.specs.Rows.{kind_view};
ghost use Rattle.member_steps.specs.View.{part_view};
ghost use Rattle.typing.specs.Names.{Binding, meaning_of};
ghost use Rattle.typing.specs.Members.{property_written, index_written, target_of_prop, target_of_index, steps_faults};
ghost use Rattle.typing.specs.Statements.{set_nothing, goal_want, variable_goal, variable_goal_of, variable_named, property_target};
ghost use Rattle.part_steps.specs.Goals.{goal_of_property, goal_of_element, asked_every};
ghost use Rattle.part_steps.specs.View.{goal_view, target_view};

use crate::members::read_properties;
use crate::tokens::next;
use check_values::{Code, Fault};
use check_world::{Notes, World};
use flow_facts::Place;
use flow_values::{List, NoMemory, Text};
use member_steps::{Details, Part, target_of_index, target_of_prop, write_index, write_property};
use place_tests::variable_place;
use scopes::{Meaning, Scope, Variable};
use type_values::FlowType;

/// What an assignment sets.
#[derive(Drop)]
pub enum Target {
    Nothing,
    /// A place of this declared type.
    Place(Place, FlowType),
    /// A property of this name, of what is no place.
    Property(Text),
    Element,
}

/// A target once its parts were read: the types that a value is read against, where there is one, or
/// else asked to be below each; the faults; and what is set.
#[derive(Drop)]
pub struct Goal {
    pub wants: List<FlowType>,
    pub faults: List<Fault>,
    pub target: Target,
}

impl Goal {
    // A target that sets nothing.
    fn nothing(world: &World<'_>) -> Goal
        ensures { goal_view result ≡ record { wants = []; faults = []; target = set_nothing } }
    {
        Goal {
            wants: List::new(world.alloc),
            faults: List::new(world.alloc),
            target: Target::Nothing,
        }
    }

    /// The one type that the value is read against.
    pub fn want(&self) -> Option<&FlowType>
        ensures { option_copied result ≡ goal_want (goal_view self.now) }
    {
        match self.wants.as_slice() {
            [want] => Some(want),
            _ => None,
        }
    }
}

/// A variable as a target, at this token. A name that means no variable is a fault.
///
/// # Errors
///
/// `NoMemory` where memory is refused.
pub fn variable_goal(
    world: &World<'_>,
    scope: &Scope,
    token: usize,
    name: &Text,
    notes: &mut Notes,
) -> Result<Goal, NoMemory>
    ensures goal { IfOk result (λ g. goal_view g ≡ variable_goal (world_view world.now) token name.now (meaning_of (scope_view scope.now) name.now)) }
    ensures notes { OnOk result (notes_view notes.new ≡ variable_named (world_view world.now) token name.now (meaning_of (scope_view scope.now) name.now) (notes_view notes.old)) }
{
    match scope.meaning(name)? {
        Meaning::NoVariable(code) => {
            notes.name_at(world, token, code, name)?;
            Ok(Goal::nothing(world))
        }
        Meaning::Variable(variable, declared) => {
            goal_of_variable(world, token, name, variable, declared)
        }
    }
}

// A variable of a declared type as a target.
fn goal_of_variable(
    world: &World<'_>,
    token: usize,
    name: &Text,
    variable: Variable,
    declared: FlowType,
) -> Result<Goal, NoMemory>
    ensures { (b : Binding) → variable.number ≡ b.number → kind_view variable.kind ≡ b.kind → IfOk result (λ g. goal_view g ≡ variable_goal_of (world_view world.now) token name.now b declared) }
{
    let mut goal = Goal::nothing(world);
    if variable.kind.is_constant() {
        let fault = world.token_fault(token, Code::ReassignConst, name.share()?);
        goal.faults.push(fault)?;
        return Ok(goal);
    }
    goal.wants.push(declared.share()?)?;
    if variable.kind.has_facts() {
        goal.target = Target::Place(variable_place(variable.number), declared);
    }
    Ok(goal)
}

// What a property of an object sets.
fn target_of_property(
    key: &Text,
    declared: FlowType,
    place: Option<Place>,
) -> Result<Target, NoMemory>
    ensures { IfOk result (λ t. target_view t ≡ property_target key.now declared place) }
{
    match place {
        None => Ok(Target::Property(key.share()?)),
        Some(place) => Ok(Target::Place(place, declared)),
    }
}

// What the members with a property take.
#[tactic(auto, using(crate::proofs::Steps::wants_more, crate::proofs::Steps::all_wants))]
fn property_wants(
    world: &World<'_>,
    key: &Text,
    members: &[&FlowType],
) -> Result<List<FlowType>, NoMemory>
    ensures { IfOk result (λ wants. wants ≡ filter_map (target_of_prop key.now) (levels_seen members.now)) }
{
    let mut wants = List::new(world.alloc);
    for i in 0..members.len() {
        add_want(
            target_of_prop(world, key.as_bytes(), members[i])?,
            &mut wants,
        )?;
    }
    Ok(wants)
}

// The faults of the members where a property is written.
#[tactic(auto, using(crate::proofs::Steps::faults_more, crate::proofs::Steps::all_faults))]
fn property_faults(
    world: &World<'_>,
    part: &Part<'_>,
    key: &Text,
    members: &[&FlowType],
) -> Result<List<Fault>, NoMemory>
    ensures { IfOk result (λ faults. faults ≡ steps_faults (map (property_written (world_view world.now) (part_view part.now) key.now) (levels_seen members.now))) }
{
    let mut faults = List::new(world.alloc);
    for i in 0..members.len() {
        let written = write_property(world, part, key.as_bytes(), members[i])?;
        faults.append(written.faults)?;
    }
    Ok(faults)
}

/// The property `.key` of an object of a type, as a target: the chain begins at a token, the object
/// ends at a second one, and the property at a third one.
///
/// # Errors
///
/// `NoMemory` where memory is refused.
pub fn property_goal(
    world: &World<'_>,
    tokens: (usize, usize, usize),
    key: &Text,
    place: Option<Place>,
    object_type: &FlowType,
) -> Result<Goal, NoMemory>
    ensures { IfOk result (λ g. goal_view g ≡ goal_of_property (world_view world.now) tokens.0 tokens.1 tokens.2 key.now place object_type.now) }
{
    let (first, at, end) = tokens;
    let part = Part {
        object_first: first,
        object_end: at,
        object_type,
        first: next(at)?,
        end,
        details: Details::Key(key),
    };
    let all = world.members(object_type)?;
    let members = all.as_slice();
    let declared = read_properties(world, &part, key, members)?.ty(world.alloc)?;
    Ok(Goal {
        wants: property_wants(world, key, members)?,
        faults: property_faults(world, &part, key, members)?,
        target: target_of_property(key, declared, place)?,
    })
}

// What the members with an element take.
#[tactic(auto, using(crate::proofs::Steps::wants_more, crate::proofs::Steps::all_wants))]
fn index_wants(
    world: &World<'_>,
    index: &FlowType,
    members: &[&FlowType],
) -> Result<List<FlowType>, NoMemory>
    ensures { IfOk result (λ wants. wants ≡ filter_map (target_of_index (world_view world.now) index.now) (levels_seen members.now)) }
{
    let mut wants = List::new(world.alloc);
    for i in 0..members.len() {
        add_want(target_of_index(world, index, members[i])?, &mut wants)?;
    }
    Ok(wants)
}

// The faults of the members where an element is written.
#[tactic(auto, using(crate::proofs::Steps::faults_more, crate::proofs::Steps::all_faults))]
fn index_faults(
    world: &World<'_>,
    part: &Part<'_>,
    index: &FlowType,
    members: &[&FlowType],
) -> Result<List<Fault>, NoMemory>
    ensures { IfOk result (λ faults. faults ≡ steps_faults (map (index_written (world_view world.now) (part_view part.now) index.now) (levels_seen members.now))) }
{
    let mut faults = List::new(world.alloc);
    for i in 0..members.len() {
        let written = write_index(world, part, index, members[i])?;
        faults.append(written.faults)?;
    }
    Ok(faults)
}

/// The element of an index of some type, at these tokens, as a target: the chain begins at a token,
/// and the object ends at a second one.
///
/// # Errors
///
/// `NoMemory` where memory is refused.
pub fn element_goal(
    world: &World<'_>,
    object: (usize, usize),
    tokens: (usize, usize),
    index: &FlowType,
    object_type: &FlowType,
) -> Result<Goal, NoMemory>
    ensures { IfOk result (λ g. goal_view g ≡ goal_of_element (world_view world.now) object.0 object.1 tokens.0 tokens.1 index.now object_type.now) }
{
    let part = Part {
        object_first: object.0,
        object_end: object.1,
        object_type,
        first: tokens.0,
        end: tokens.1,
        details: Details::Index(index),
    };
    let all = world.members(object_type)?;
    let members = all.as_slice();
    Ok(Goal {
        wants: index_wants(world, index, members)?,
        faults: index_faults(world, &part, index, members)?,
        target: Target::Element,
    })
}

// One more type, if there is one.
fn add_want(want: Option<FlowType>, wants: &mut List<FlowType>) -> Result<(), NoMemory>
    ensures { OnOk result (wants.new ≡ wants.old ++ option_to_list want) }
{
    match want {
        Some(want) => wants.push(want),
        None => Ok(()),
    }
}

/// A value at these tokens, which was read plainly, is asked to be below each of several types.
///
/// # Errors
///
/// `NoMemory` where memory is refused.
#[tactic(auto, using(crate::proofs::Steps::asked_more, crate::proofs::Steps::asked_once, crate::proofs::Steps::asked_each_one))]
pub fn ask_each(
    world: &World<'_>,
    tokens: (usize, usize),
    wants: &[FlowType],
    ty: &FlowType,
    notes: &mut Notes,
) -> Result<(), NoMemory>
    ensures { OnOk result (notes_view notes.new ≡ asked_every (world_view world.now) tokens.0 tokens.1 wants.now ty.now (notes_view notes.old)) }
{
    if wants.len() == 1 {
        return Ok(());
    }
    for i in 0..wants.len() {
        notes.ask(world, tokens.0, tokens.1, &wants[i], ty)?;
    }
    Ok(())
}
