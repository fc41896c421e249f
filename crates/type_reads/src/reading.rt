//! The faults of each form of a type, from left to right.
#![tactic(auto, unfolding(type_tree::specs::View::type_view, type_tree::specs::View::pre_view, type_tree::specs::View::core_view, type_tree::specs::View::base_view, type_tree::specs::View::form_view, type_tree::specs::View::param_view, type_tree::specs::View::prop_view, type_tree::specs::View::pres_view, type_tree::specs::View::params_view, type_tree::specs::View::types_view, type_tree::specs::View::props_view))]

ghost use Rattle.std.specs.Prelude.{◌≡◌, ◌++◌, ◌∷◌, [], List, OnOk};
ghost use Rattle.std.specs.Option.{option_map};
ghost use Rattle.check_world.specs.View.{world_view, notes_view};
ghost use Rattle.check_values.specs.Rows.{Bytes};
ghost use Rattle.tree_types.specs.TreeTypes.{key_text};
ghost use Rattle.type_reads.specs.Keys.{HasAll};
ghost use Rattle.type_tree.specs.View.{type_view, pre_view, core_view, base_view, form_view, prop_view, param_view, pres_view, params_view, types_view, props_view, key_view};
ghost use Rattle.typing.specs.TypeFaults.{name_read, key_read, type_read, members_read, member_read, core_read, base_read, form_read, prop_read, key_of_prop, types_read, params_read, param_read, props_read, annotation_read};

use check_values::Code;
use check_world::{Notes, World};
use flow_values::{NoMemory, Text};
use std::collections::BTreeSet;
use tree_typing::{is_type_name, key_text};
use type_terms::show_key;
use type_tree::{
    BaseForm, BaseTree, CoreTree, FunctionType, Key, NamedParam, ParamTree, PreTree, PropTree,
    TypeTree,
};

/// Notes the faults of the names in a tree of a type.
///
/// # Errors
///
/// `NoMemory` where memory is refused. Some of the faults may be noted then.
#[cycle(reading)]
pub fn read_type(world: &World<'_>, tree: &TypeTree, notes: &mut Notes) -> Result<(), NoMemory>
    ensures { OnOk result (notes_view notes.new ≡ type_read (world_view world.now) (type_view tree.now) (notes_view notes.old)) }
{
    read_members(world, tree.members.as_slice(), notes)
}

/// Notes the faults of the names in an annotation, if there is one.
///
/// # Errors
///
/// `NoMemory` where memory is refused. Some of the faults may be noted then.
pub fn read_annotation(
    world: &World<'_>,
    annotation: &Option<TypeTree>,
    notes: &mut Notes,
) -> Result<(), NoMemory>
    ensures { OnOk result (notes_view notes.new ≡ annotation_read (world_view world.now) (option_map type_view annotation.now) (notes_view notes.old)) }
{
    match annotation {
        None => Ok(()),
        Some(tree) => read_type(world, tree, notes),
    }
}

#[cycle(reading)]
#[tactic(auto, using(crate::proofs::InOrder::members_none, crate::proofs::InOrder::members_next, crate::proofs::InOrder::members_all))]
fn read_members(world: &World<'_>, members: &[PreTree], notes: &mut Notes) -> Result<(), NoMemory>
    ensures { OnOk result (notes_view notes.new ≡ members_read (world_view world.now) (pres_view members.now) (notes_view notes.old)) }
{
    for i in 0..members.len() {
        read_member(world, &members[i], notes)?;
    }
    Ok(())
}

#[cycle(reading)]
fn read_member(world: &World<'_>, member: &PreTree, notes: &mut Notes) -> Result<(), NoMemory>
    ensures { OnOk result (notes_view notes.new ≡ member_read (world_view world.now) (pre_view member.now) (notes_view notes.old)) }
{
    read_core(world, &member.core, notes)
}

#[cycle(reading)]
fn read_core(world: &World<'_>, core: &CoreTree, notes: &mut Notes) -> Result<(), NoMemory>
    ensures { OnOk result (notes_view notes.new ≡ core_read (world_view world.now) (core_view core.now) (notes_view notes.old)) }
{
    match core {
        CoreTree::Function(function) => read_function(world, function, notes),
        CoreTree::Post(post) => read_base(world, &post.base, notes),
    }
}

#[cycle(reading)]
fn read_function(
    world: &World<'_>,
    function: &FunctionType,
    notes: &mut Notes,
) -> Result<(), NoMemory>
    ensures { OnOk result (notes_view notes.new ≡ core_read (world_view world.now) (core_view (CoreTree.Function function.now)) (notes_view notes.old)) }
{
    read_params(world, function.params.as_slice(), notes)?;
    read_type(world, function.result.get(), notes)
}

#[cycle(reading)]
#[tactic(auto, using(crate::proofs::InOrder::params_none, crate::proofs::InOrder::params_next, crate::proofs::InOrder::params_all))]
fn read_params(world: &World<'_>, params: &[ParamTree], notes: &mut Notes) -> Result<(), NoMemory>
    ensures { OnOk result (notes_view notes.new ≡ params_read (world_view world.now) (params_view params.now) (notes_view notes.old)) }
{
    for i in 0..params.len() {
        read_param(world, &params[i], notes)?;
    }
    Ok(())
}

#[cycle(reading)]
fn read_param(world: &World<'_>, param: &ParamTree, notes: &mut Notes) -> Result<(), NoMemory>
    ensures { OnOk result (notes_view notes.new ≡ param_read (world_view world.now) (param_view param.now) (notes_view notes.old)) }
{
    match param {
        ParamTree::Plain(tree) => read_type(world, tree, notes),
        ParamTree::Named(named) => read_named(world, named, notes),
    }
}

#[cycle(reading)]
fn read_named(world: &World<'_>, param: &NamedParam, notes: &mut Notes) -> Result<(), NoMemory>
    ensures { OnOk result (notes_view notes.new ≡ param_read (world_view world.now) (param_view (ParamTree.Named param.now)) (notes_view notes.old)) }
{
    read_type(world, &param.ty, notes)
}

// A name at these tokens, be it a type's own or one of the module's.
#[tactic(auto, using(crate::proofs::InOrder::means_type, crate::proofs::InOrder::means_none))]
fn read_name(
    world: &World<'_>,
    first: usize,
    end: usize,
    name: &Text,
    notes: &mut Notes,
) -> Result<(), NoMemory>
    ensures { OnOk result (notes_view notes.new ≡ name_read (world_view world.now) first end name.now (notes_view notes.old)) }
{
    if is_type_name(name.as_bytes()) {
        return Ok(());
    }
    match world.name_fault(name) {
        None => Ok(()),
        Some(code) => notes.name_fault(world.fault(first, end, code, name.share()?)),
    }
}

#[cycle(reading)]
fn read_base(world: &World<'_>, base: &BaseTree, notes: &mut Notes) -> Result<(), NoMemory>
    ensures { OnOk result (notes_view notes.new ≡ base_read (world_view world.now) (base_view base.now) (notes_view notes.old)) }
{
    read_form(world, base.first, base.end, &base.form, notes)
}

#[cycle(reading)]
fn read_form(
    world: &World<'_>,
    first: usize,
    end: usize,
    form: &BaseForm,
    notes: &mut Notes,
) -> Result<(), NoMemory>
    ensures { OnOk result (notes_view notes.new ≡ form_read (world_view world.now) first end (form_view form.now) (notes_view notes.old)) }
{
    match form {
        BaseForm::Name(name) => read_name(world, first, end, name, notes),
        BaseForm::Array {
            read_only: _,
            element,
        } => read_type(world, element.get(), notes),
        BaseForm::Paren(inner) => read_type(world, inner.get(), notes),
        BaseForm::Tuple { types, comma: _ } => read_types(world, types.as_slice(), notes),
        BaseForm::Object { props, ending: _ } => read_props(world, props.as_slice(), notes),
        BaseForm::Str(_)
        | BaseForm::Number(_)
        | BaseForm::Null
        | BaseForm::Void
        | BaseForm::Truth(_) => Ok(()),
    }
}

#[cycle(reading)]
#[tactic(auto, using(crate::proofs::InOrder::types_none, crate::proofs::InOrder::types_next, crate::proofs::InOrder::types_all))]
fn read_types(world: &World<'_>, types: &[TypeTree], notes: &mut Notes) -> Result<(), NoMemory>
    ensures { OnOk result (notes_view notes.new ≡ types_read (world_view world.now) (types_view types.now) (notes_view notes.old)) }
{
    for i in 0..types.len() {
        read_type(world, &types[i], notes)?;
    }
    Ok(())
}

// A key that stands before already is a fault. `before` has the keys before it, and then this one too.
#[tactic(auto, using(crate::proofs::InOrder::key_more))]
fn read_key(
    world: &World<'_>,
    key: &Key,
    before: &mut BTreeSet<Text>,
    notes: &mut Notes,
) -> Result<(), NoMemory>
    ensures read { OnOk result ((keys : List Bytes) → HasAll before.old keys → notes_view notes.new ≡ key_read (world_view world.now) keys (key_view key.now) (notes_view notes.old)) }
    ensures keys { OnOk result ((keys : List Bytes) → HasAll before.old keys → HasAll before.new (keys ++ key_text (key_view key.now) ∷ [])) }
{
    let text = key_text(key);
    if before.insert(text.share()?)? {
        return Ok(());
    }
    let shown = show_key(world.alloc, text.as_bytes())?;
    notes.name_fault(world.fault(key.first, key.end, Code::NameAlreadyBound, shown))
}

#[cycle(reading)]
#[tactic(auto, using(crate::proofs::InOrder::keys_none, crate::proofs::InOrder::props_none, crate::proofs::InOrder::props_next, crate::proofs::InOrder::keys_next, crate::proofs::InOrder::props_all))]
fn read_props(world: &World<'_>, props: &[PropTree], notes: &mut Notes) -> Result<(), NoMemory>
    ensures { OnOk result (notes_view notes.new ≡ props_read (world_view world.now) (props_view props.now) (notes_view notes.old)) }
{
    let mut before = BTreeSet::new(world.alloc);
    for i in 0..props.len() {
        read_prop(world, &props[i], &mut before, notes)?;
    }
    Ok(())
}

#[cycle(reading)]
fn read_prop(
    world: &World<'_>,
    prop: &PropTree,
    before: &mut BTreeSet<Text>,
    notes: &mut Notes,
) -> Result<(), NoMemory>
    ensures read { OnOk result ((keys : List Bytes) → HasAll before.old keys → notes_view notes.new ≡ prop_read (world_view world.now) keys (prop_view prop.now) (notes_view notes.old)) }
    ensures keys { OnOk result ((keys : List Bytes) → HasAll before.old keys → HasAll before.new (keys ++ key_of_prop (prop_view prop.now) ∷ [])) }
{
    read_key(world, &prop.key, before, notes)?;
    read_type(world, &prop.ty, notes)
}
