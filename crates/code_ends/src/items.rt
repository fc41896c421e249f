// A whole declaration or function: an item or a statement.
ghost use Rattle.std.specs.Prelude.{◌≡◌, IfOk};
ghost use Rattle.code_law.specs.Frames.{is_statement, is_default};
ghost use Rattle.code_tree.specs.View.{declaration_view, function_view};
ghost use Rattle.js_tree.specs.View.{item_form_view};
ghost use Rattle.code_law.specs.Bodies.{wrap_declaration as wrapped_declaration, wrap_function as wrapped_function, give_declaration as declaration_given, give_function as function_given};
ghost use Rattle.code_state.specs.Forms.{wrap_view, kind_view};
ghost use Rattle.code_state.specs.Stack.{stack_view};
ghost use Rattle.code_state.specs.Turns.{turn_view};

use crate::statements::give_statement;
use code_state::{Bottom, FunctionKind, Linked, Mode, Stack, Turn, ValueMode, Wrap};
use code_tree::{Declaration, Expr, ExprForm, Function, StatementForm};
use flow_values::{List, NoMemory};
use js_tree::{ExportForm, ItemForm};
use std::alloc::Global;

/// A declaration as an item.
fn wrap_declaration(wrap: Wrap, declaration: Declaration) -> ItemForm
    ensures { item_form_view result ≡ wrapped_declaration (wrap_view wrap) (declaration_view declaration) }
{
    match wrap {
        Wrap::Plain => ItemForm::Declaration(declaration),
        Wrap::Exported | Wrap::Default => ItemForm::Export(ExportForm::Declaration(declaration)),
    }
}

/// A function as an item.
fn wrap_function(wrap: Wrap, function: Function) -> ItemForm
    ensures { item_form_view result ≡ wrapped_function (wrap_view wrap) (function_view function) }
{
    match wrap {
        Wrap::Plain => ItemForm::Function(function),
        Wrap::Exported => ItemForm::Export(ExportForm::Function(function)),
        Wrap::Default => ItemForm::Export(ExportForm::DefaultFunction(function)),
    }
}

/// A declaration is whole that begins at `first`, and its semicolon, up to `end`.
#[tactic(auto, using(crate::proofs::Given::opens, code_state::proofs::Views::starts))]
pub fn give_declaration(
    stack: &mut Stack,
    first: usize,
    end: usize,
    declaration: Declaration,
) -> Result<Turn, NoMemory>
    ensures { IfOk result (λ turn. turn_view stack.new turn ≡ declaration_given end (stack_view stack.old) first (declaration_view declaration)) }
{
    match stack.at_bottom() {
        Some(Bottom::Item(start, wrap)) => {
            stack.give_item(start, end, wrap_declaration(wrap, declaration))
        }
        Some(_) => Ok(Turn::Fault),
        None => give_statement(stack, first, end, StatementForm::declaration(declaration)),
    }
}

/// A function is an item or a statement, up to `end`.
#[tactic(auto, using(crate::proofs::Given::opens, code_state::proofs::Views::starts))]
fn give_statement_function(
    stack: &mut Stack,
    end: usize,
    function: Function,
) -> Result<Turn, NoMemory>
    ensures { IfOk result (λ turn. turn_view stack.new turn ≡ function_given end (stack_view stack.old) is_statement (function_view function)) }
{
    match stack.at_bottom() {
        Some(Bottom::Item(start, wrap)) => {
            stack.give_item(start, end, wrap_function(wrap, function))
        }
        Some(_) => Ok(Turn::Fault),
        None => {
            let first = function.first;
            give_statement(stack, first, end, StatementForm::function(function))
        }
    }
}

/// A function behind `default` is an item, up to `end`.
#[tactic(auto, using(crate::proofs::Given::opens, code_state::proofs::Views::starts))]
fn give_default_function(
    stack: &mut Stack,
    end: usize,
    function: Function,
) -> Result<Turn, NoMemory>
    ensures { IfOk result (λ turn. turn_view stack.new turn ≡ function_given end (stack_view stack.old) is_default (function_view function)) }
{
    match stack.at_bottom() {
        Some(Bottom::Item(start, wrap)) => {
            stack.give_item(start, end, wrap_function(wrap, function))
        }
        _ => Ok(Turn::Fault),
    }
}

/// A function is whole, up to `end`.
#[tactic(auto, using(code_state::proofs::Pushes::nothings, code_state::proofs::Views::starts))]
pub fn give_function(
    alloc: Global,
    stack: &mut Stack,
    kind: FunctionKind,
    end: usize,
    function: Function,
) -> Result<Turn, NoMemory>
    ensures { IfOk result (λ turn. turn_view stack.new turn ≡ function_given end (stack_view stack.old) (kind_view kind) (function_view function)) }
{
    match kind {
        FunctionKind::Value => {
            let first = function.first;
            let form = ExprForm::function(alloc, function)?;
            Ok(Turn::Go(Mode::Value(ValueMode::Links(Linked {
                base: Expr::new(first, end, form),
                links: List::new(alloc),
            }))))
        }
        FunctionKind::Statement => give_statement_function(stack, end, function),
        FunctionKind::Default => give_default_function(stack, end, function),
    }
}
