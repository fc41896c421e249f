//! Trees of modules, as far as two texts that look alike could have others: a union behind `=>` in a type, braces behind `=>`.
use code_tree::{ArrowBody, Expr, ExprForm};
use flow_values::NoMemory;
use js_lexer::lex;
use js_parser::read_module;
use js_tree::{ItemForm, Module};
use std::alloc::Global;
use std::io;
use type_parser::ParseFault;
use type_tree::{CoreTree, TypeTree};

// The number of members of a function type's result.
fn members_of_result(ty: &TypeTree) -> Option<usize> {
    match ty.members.as_slice() {
        [only] => match &only.core {
            CoreTree::Function(function) => Some(function.result.get().members.len()),
            CoreTree::Post(_) => None,
        },
        _ => None,
    }
}

// Whether an arrow has a block.
fn has_block(value: &Expr) -> Option<bool> {
    match &value.form {
        ExprForm::Arrow(arrow) => match arrow.get().body {
            ArrowBody::Block(_) => Some(true),
            ArrowBody::Value(_) => Some(false),
        },
        _ => None,
    }
}

fn add_item(out: &mut String, item: &ItemForm) -> Result<(), NoMemory> {
    match item {
        ItemForm::Alias(alias) => match members_of_result(&alias.ty) {
            Some(count) => write!(out, "a function type to {count}")?,
            None => out.push_str("another type")?,
        },
        ItemForm::Declaration(declaration) => match has_block(&declaration.value) {
            Some(true) => out.push_str("an arrow with a block")?,
            Some(false) => out.push_str("an arrow with a value")?,
            None => out.push_str("another value")?,
        },
        _ => out.push_str("another item")?,
    }
    Ok(())
}

fn add_items(out: &mut String, module: &Module) -> Result<(), NoMemory> {
    if module.items.is_empty() {
        out.push_str("none")?;
    }
    let mut between = "";
    for item in module.items.as_slice() {
        out.push_str(between)?;
        add_item(out, &item.form)?;
        between = " ¦ ";
    }
    Ok(())
}

// The items of a line's module, or the number of the token at which its fault stands.
fn answer(alloc: Global, line: &str) -> Result<String, NoMemory> {
    let mut out = String::new(alloc);
    let Ok(tokens) = lex(alloc, line.as_bytes()) else {
        out.push_str("no tokens")?;
        return Ok(out);
    };
    match read_module(alloc, tokens.as_slice()) {
        Ok(module) => add_items(&mut out, &module)?,
        Err(ParseFault::At { token }) => write!(out, "at {token}")?,
        Err(ParseFault::NoMemory) => return Err(NoMemory),
    }
    Ok(out)
}

/// Prints a line, a TAB and the items of its module.
pub(crate) fn report(rt: &impl Print, alloc: Global, line: &str) -> io::Result<()> {
    match answer(alloc, line) {
        Ok(text) => println!(rt; "{line}\t{text}"),
        Err(NoMemory) => println!(rt; "no memory"),
    }
}
