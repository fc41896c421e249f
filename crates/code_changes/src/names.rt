//! The names that parameters and statements bind.
#![tactic(auto, using(crate::proofs::Lists::declares, crate::proofs::Lists::from_none, crate::proofs::Lists::from_two), unfolding(code_tree::specs::View::statement_view, code_tree::specs::View::statement_form_view, code_tree::specs::View::declaration_view, code_tree::specs::View::function_view, code_tree::specs::Flat::signature_view, code_tree::specs::Flat::parameter_view))]

ghost use Rattle.std.specs.Prelude.{◌≡◌, ◌++◌, OnOk, IfOk};
ghost use Rattle.typing.specs.Changes.{declared_in, parameter_names, name_list, names_of_sig};
ghost use Rattle.code_tree.specs.Flat.{parameters_view, signature_view};
ghost use Rattle.code_tree.specs.View.{statement_view, statements_view};
ghost use Rattle.code_changes.specs.Declaring.{declared_by_statement};

use code_tree::{Parameter, Signature, Statement, StatementForm};
use flow_values::{List, NoMemory, Text};
use std::alloc::Global;

// Adds a name, if there is one.
fn add_name(name: &Option<Text>, own: &mut List<Text>) -> Result<(), NoMemory>
    ensures { OnOk result (own.new ≡ own.old ++ name_list name.now) }
{
    match name {
        Some(name) => own.push(name.share()?),
        None => Ok(()),
    }
}

// Adds the names of parameters.
fn add_parameters(parameters: &[Parameter], own: &mut List<Text>) -> Result<(), NoMemory>
    ensures { OnOk result (own.new ≡ own.old ++ parameter_names (parameters_view parameters.now)) }
{
    for i in 0..parameters.len() {
        own.push(parameters[i].name.share()?)?;
    }
    Ok(())
}

// Adds the names of a function's parameters.
fn add_signature(signature: &Signature, own: &mut List<Text>) -> Result<(), NoMemory>
    ensures { OnOk result (own.new ≡ own.old ++ names_of_sig (signature_view signature.now)) }
{
    add_parameters(signature.parameters.as_slice(), own)
}

// Adds the name that a statement declares, if it declares one.
fn add_declared(statement: &Statement, own: &mut List<Text>) -> Result<(), NoMemory>
    ensures { OnOk result (own.new ≡ own.old ++ declared_by_statement (statement_view statement.now)) }
{
    match &statement.form {
        StatementForm::Declaration(declaration) => own.push(declaration.name.share()?),
        StatementForm::Function(function) => add_name(&function.name, own),
        StatementForm::Simple(_)
        | StatementForm::If(_)
        | StatementForm::While(_)
        | StatementForm::Block(_) => Ok(()),
    }
}

// Adds the names that statements declare.
fn add_declared_in(all: &[Statement], own: &mut List<Text>) -> Result<(), NoMemory>
    ensures { OnOk result (own.new ≡ own.old ++ declared_in (statements_view all.now)) }
{
    for i in 0..all.len() {
        add_declared(&all[i], own)?;
    }
    Ok(())
}

/// The name of a function, if it has one.
///
/// # Errors
///
/// `NoMemory` where memory is refused.
pub(crate) fn name_of_function(alloc: Global, name: &Option<Text>) -> Result<List<Text>, NoMemory>
    ensures { IfOk result (λ own. own ≡ name_list name.now) }
{
    let mut own = List::new(alloc);
    add_name(name, &mut own)?;
    Ok(own)
}

/// The names that a function binds: its parameters', and those that its body declares.
///
/// # Errors
///
/// `NoMemory` where memory is refused.
pub(crate) fn names_of_function(
    alloc: Global,
    signature: &Signature,
    statements: &[Statement],
) -> Result<List<Text>, NoMemory>
    ensures { IfOk result (λ own. own ≡ names_of_sig (signature_view signature.now) ++ declared_in (statements_view statements.now)) }
{
    let mut own = List::new(alloc);
    add_signature(signature, &mut own)?;
    add_declared_in(statements, &mut own)?;
    Ok(own)
}

/// The names of an arrow's parameters.
///
/// # Errors
///
/// `NoMemory` where memory is refused.
pub(crate) fn names_of_signature(
    alloc: Global,
    signature: &Signature,
) -> Result<List<Text>, NoMemory>
    ensures { IfOk result (λ own. own ≡ names_of_sig (signature_view signature.now)) }
{
    let mut own = List::new(alloc);
    add_signature(signature, &mut own)?;
    Ok(own)
}

/// The names that the statements of a block declare.
///
/// # Errors
///
/// `NoMemory` where memory is refused.
pub(crate) fn names_of_block(
    alloc: Global,
    statements: &[Statement],
) -> Result<List<Text>, NoMemory>
    ensures { IfOk result (λ own. own ≡ declared_in (statements_view statements.now)) }
{
    let mut own = List::new(alloc);
    add_declared_in(statements, &mut own)?;
    Ok(own)
}
