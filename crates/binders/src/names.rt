//! The names of parameters, declarations and functions.
#![tactic(auto, unfolding(code_tree::specs::Flat::parameter_view, code_tree::specs::Flat::signature_view))]

ghost use Rattle.std.specs.Prelude.{◌≡◌, List, OnOk, IfOk};
ghost use Rattle.check_world.specs.View.{world_view};
ghost use Rattle.code_tree.specs.Flat.{parameter_view, signature_view, binder_view};
ghost use Rattle.js_grammar.specs.Code.{no_stmt, more_stmt};
ghost use Rattle.code_tree.specs.View.{declaration_view, function_view, statement_view, statements_view};
ghost use Rattle.scopes.specs.Rows.{kind_view, binding_view};
ghost use Rattle.scopes.specs.View.{IsHeight};
ghost use Rattle.typing.specs.Changes.{Change};
ghost use Rattle.typing.specs.Functions.{changing_kind, kind_by, bind, parameter_binding, bind_sig, bind_declaration, function_binding, bind_function, bind_stmts};
ghost use Rattle.binders.specs.View.{bound_since, Binds, TellsInner};

use crate::binding::bind;
use crate::signatures::{annotated, function_type, param_type};
use check_world::{Notes, World};
use code_tree::{Binder, Declaration, Function, Parameter, Signature, Statement, StatementForm};
use flow_values::{NoMemory, Text};
use part_steps::{is_const, next};
use scopes::{Binding, Height, Kind, Scope};
use std::collections::BTreeSet;
use type_terms::eff;
use type_values::FlowType;

// A variable that changes has no facts where it is assigned in an inner function.
fn changing_kind(set_inside: &BTreeSet<Text>, name: &Text) -> Kind
    ensures { (changes : List Change) → TellsInner set_inside.now changes → kind_view result ≡ changing_kind changes name.now }
{
    if set_inside.contains(name) {
        Kind::Shared
    } else {
        Kind::Changing
    }
}

// A `const` is constant, and a `let` may change.
fn kind_by(set_inside: &BTreeSet<Text>, binder: Binder, name: &Text) -> Kind
    ensures { (changes : List Change) → TellsInner set_inside.now changes → kind_view result ≡ kind_by changes (binder_view binder) name.now }
{
    match binder {
        Binder::Const => Kind::Constant,
        Binder::Let => changing_kind(set_inside, name),
    }
}

// A parameter in its function's scope; an optional one may be `void`.
fn bind_parameter(
    world: &World<'_>,
    scope: &mut Scope,
    notes: &mut Notes,
    since: Height,
    parameter: &Parameter,
    set_inside: &BTreeSet<Text>,
) -> Result<(), NoMemory>
    requires { IsHeight since scope.old }
    ensures bound { (changes : List Change) → TellsInner set_inside.now changes → OnOk result (bound_since since scope.new notes.new ≡ bind (world_view world.now) parameter.now.first (parameter_binding (world_view world.now) scope.old.depth changes (parameter_view parameter.now)) (bound_since since scope.old notes.old)) }
    ensures binds { OnOk result (Binds since scope.old scope.new) }
{
    let own = param_type(world, &parameter.annotation)?;
    let declared = eff(world.alloc, parameter.optional, &own)?;
    let binding = Binding {
        name: parameter.name.share()?,
        number: Binding::number_at(false, parameter.first)?,
        kind: changing_kind(set_inside, &parameter.name),
        depth: scope.depth,
        is_read: true,
        declared: Some(declared),
    };
    bind(world, scope, notes, since, parameter.first, binding)
}

/// Binds the parameters of a function, in its scope.
///
/// # Errors
///
/// `NoMemory` where memory is refused.
#[tactic(auto, using(crate::proofs::InOrder::parameters_bound_none, crate::proofs::Bindings::binds_nothing), unfolding(code_tree::specs::Flat::signature_view))]
pub fn bind_signature(
    world: &World<'_>,
    scope: &mut Scope,
    notes: &mut Notes,
    since: Height,
    signature: &Signature,
    set_inside: &BTreeSet<Text>,
) -> Result<(), NoMemory>
    requires { IsHeight since scope.old }
    ensures bound { (changes : List Change) → TellsInner set_inside.now changes → OnOk result (bound_since since scope.new notes.new ≡ bind_sig (world_view world.now) scope.old.depth changes (signature_view signature.now) (bound_since since scope.old notes.old)) }
    ensures binds { OnOk result (Binds since scope.old scope.new) }
{
    let parameters = signature.parameters.as_slice();
    for i in 0..parameters.len() {
        bind_parameter(world, scope, notes, since, &parameters[i], set_inside)?;
    }
    Ok(())
}

/// Binds what a declaration binds, before it was read.
///
/// # Errors
///
/// `NoMemory` where memory is refused.
#[tactic(auto, unfolding(code_tree::specs::View::declaration_view))]
pub fn bind_declaration(
    world: &World<'_>,
    scope: &mut Scope,
    notes: &mut Notes,
    since: Height,
    declaration: &Declaration,
    set_inside: &BTreeSet<Text>,
) -> Result<(), NoMemory>
    requires { IsHeight since scope.old }
    ensures bound { (changes : List Change) → TellsInner set_inside.now changes → OnOk result (bound_since since scope.new notes.new ≡ bind_declaration (world_view world.now) scope.old.depth changes (declaration_view declaration.now) (bound_since since scope.old notes.old)) }
    ensures binds { OnOk result (Binds since scope.old scope.new) }
{
    let token = next(declaration.first)?;
    let binding = Binding {
        name: declaration.name.share()?,
        number: Binding::number_at(is_const(declaration.binder), token)?,
        kind: kind_by(set_inside, declaration.binder, &declaration.name),
        depth: scope.depth,
        is_read: false,
        declared: annotated(world, &declaration.annotation)?,
    };
    bind(world, scope, notes, since, token, binding)
}

/// A function of this name at a token, whose body was not read: without annotation its result is `any`.
///
/// # Errors
///
/// `NoMemory` where memory is refused.
pub fn function_binding(
    world: &World<'_>,
    depth: usize,
    token: usize,
    name: &Text,
    signature: &Signature,
) -> Result<Binding, NoMemory>
    ensures { IfOk result (λ b. binding_view b ≡ function_binding (world_view world.now) depth token name.now (signature_view signature.now)) }
{
    Ok(Binding {
        name: name.share()?,
        number: Binding::number_at(true, token)?,
        kind: Kind::Constant,
        depth,
        is_read: true,
        declared: Some(function_type(world, signature, FlowType::Any)?),
    })
}

/// Binds what a function's declaration binds, which may be used before it.
///
/// # Errors
///
/// `NoMemory` where memory is refused.
#[tactic(auto, using(crate::proofs::Bindings::binds_nothing), unfolding(code_tree::specs::View::function_view))]
pub fn bind_function(
    world: &World<'_>,
    scope: &mut Scope,
    notes: &mut Notes,
    since: Height,
    function: &Function,
) -> Result<(), NoMemory>
    requires { IsHeight since scope.old }
    ensures bound { OnOk result (bound_since since scope.new notes.new ≡ bind_function (world_view world.now) scope.old.depth (function_view function.now) (bound_since since scope.old notes.old)) }
    ensures binds { OnOk result (Binds since scope.old scope.new) }
{
    let Some(name) = &function.name else {
        return Ok(());
    };
    let token = next(function.first)?;
    let binding = function_binding(world, scope.depth, token, name, &function.signature)?;
    bind(world, scope, notes, since, token, binding)
}

// What a statement binds.
#[tactic(auto, using(crate::proofs::Bindings::binds_nothing), unfolding(code_tree::specs::View::statement_view, code_tree::specs::View::statement_form_view, code_tree::specs::View::declaration_view, code_tree::specs::View::function_view))]
fn bind_statement(
    world: &World<'_>,
    scope: &mut Scope,
    notes: &mut Notes,
    since: Height,
    statement: &Statement,
    set_inside: &BTreeSet<Text>,
) -> Result<(), NoMemory>
    requires { IsHeight since scope.old }
    ensures bound { (changes : List Change) → TellsInner set_inside.now changes → OnOk result (bound_since since scope.new notes.new ≡ bind_stmts (world_view world.now) scope.old.depth changes (more_stmt no_stmt (statement_view statement.now)) (bound_since since scope.old notes.old)) }
    ensures binds { OnOk result (Binds since scope.old scope.new) }
{
    match &statement.form {
        StatementForm::Declaration(declaration) => {
            bind_declaration(world, scope, notes, since, declaration, set_inside)
        }
        StatementForm::Function(function) => bind_function(world, scope, notes, since, function),
        StatementForm::Simple(_)
        | StatementForm::If(_)
        | StatementForm::While(_)
        | StatementForm::Block(_) => Ok(()),
    }
}

/// Binds what statements bind in the scope in which they stand, which changes in these ways.
///
/// # Errors
///
/// `NoMemory` where memory is refused.
#[tactic(auto, using(crate::proofs::InOrder::statements_bound_none, crate::proofs::Bindings::binds_nothing))]
pub fn bind_statements(
    world: &World<'_>,
    scope: &mut Scope,
    notes: &mut Notes,
    since: Height,
    statements: &[Statement],
    set_inside: &BTreeSet<Text>,
) -> Result<(), NoMemory>
    requires { IsHeight since scope.old }
    ensures bound { (changes : List Change) → TellsInner set_inside.now changes → OnOk result (bound_since since scope.new notes.new ≡ bind_stmts (world_view world.now) scope.old.depth changes (statements_view statements.now) (bound_since since scope.old notes.old)) }
    ensures binds { OnOk result (Binds since scope.old scope.new) }
{
    for i in 0..statements.len() {
        bind_statement(world, scope, notes, since, &statements[i], set_inside)?;
    }
    Ok(())
}
