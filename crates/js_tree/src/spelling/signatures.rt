// The tokens of signatures, prefixes and operators.
#![tactic(auto, using(crate::proofs::CodeLists::flat_lists), unfolding(code_tree::specs::Flat::parameter_view, code_tree::specs::Flat::signature_view))]

ghost use Rattle.std.specs.Prelude.{◌≡◌, OnOk};
ghost use Rattle.std.specs.Option.{option_map};
ghost use Rattle.js_grammar.specs.CodeSpelling.{mark_of, spell_prefixes, binder_word, spell_annotation, spell_name, spell_parameter, spell_parameters, spell_sig};
ghost use Rattle.type_tree.specs.View.{type_view};
ghost use Rattle.code_tree.specs.Flat.{prefixes_view, operator_view, binder_view, parameter_view, parameters_view, signature_view};

use crate::spelling::tail::Tail;
use crate::spelling::types::spell_type;
use code_tree::{Binder, Operator, Parameter, Prefix, PrefixMark, Signature};
use flow_values::{NoMemory, Text};
use js_token::Punct;
use type_tree::TypeTree;

pub fn spell_signature(signature: &Signature, tail: &mut Tail) -> Result<(), NoMemory>
    ensures { OnOk result (tail.new ≡ spell_sig (signature_view signature.now) tail.old) }
{
    spell_annotation(&signature.output, tail)?;
    tail.mark(Punct::CloseParen)?;
    tail.mark_if(signature.comma, Punct::Comma)?;
    spell_parameters(signature.parameters.as_slice(), tail)?;
    tail.mark(Punct::OpenParen)
}

fn spell_parameters(parameters: &[Parameter], tail: &mut Tail) -> Result<(), NoMemory>
    ensures { OnOk result (tail.new ≡ spell_parameters (parameters_view parameters.now) tail.old) }
{
    for i in (0..parameters.len()).rev() {
        tail.mark_if(i + 1 < parameters.len(), Punct::Comma)?;
        spell_parameter(&parameters[i], tail)?;
    }
    Ok(())
}

fn spell_parameter(parameter: &Parameter, tail: &mut Tail) -> Result<(), NoMemory>
    ensures { OnOk result (tail.new ≡ spell_parameter (parameter_view parameter.now) tail.old) }
{
    spell_annotation(&parameter.annotation, tail)?;
    tail.mark_if(parameter.optional, Punct::Question)?;
    tail.name(&parameter.name)
}

pub fn spell_annotation(annotation: &Option<TypeTree>, tail: &mut Tail) -> Result<(), NoMemory>
    ensures { OnOk result (tail.new ≡ spell_annotation (option_map type_view annotation.now) tail.old) }
{
    match annotation {
        None => Ok(()),
        Some(ty) => {
            spell_type(ty, tail)?;
            tail.mark(Punct::Colon)
        }
    }
}

pub fn spell_name(name: &Option<Text>, tail: &mut Tail) -> Result<(), NoMemory>
    ensures { OnOk result (tail.new ≡ spell_name name.now tail.old) }
{
    match name {
        None => Ok(()),
        Some(name) => tail.name(name),
    }
}

pub fn spell_prefixes(marks: &[PrefixMark], tail: &mut Tail) -> Result<(), NoMemory>
    ensures { OnOk result (tail.new ≡ spell_prefixes (prefixes_view marks.now) tail.old) }
{
    for i in (0..marks.len()).rev() {
        match marks[i].prefix {
            Prefix::Not => tail.mark(Punct::Bang)?,
            Prefix::Minus => tail.mark(Punct::Minus)?,
            Prefix::Plus => tail.mark(Punct::Plus)?,
            Prefix::TypeOf => tail.word(b"typeof")?,
        }
    }
    Ok(())
}

pub fn operator_mark(operator: Operator) -> Punct
    ensures { result ≡ mark_of (operator_view operator) }
{
    match operator {
        Operator::Nullish => Punct::QuestionQuestion,
        Operator::Or => Punct::OrOr,
        Operator::And => Punct::AndAnd,
        Operator::StrictEqual => Punct::StrictEqual,
        Operator::StrictNotEqual => Punct::StrictNotEqual,
        Operator::LooseEqual => Punct::LooseEqual,
        Operator::LooseNotEqual => Punct::LooseNotEqual,
        Operator::Less => Punct::LessThan,
        Operator::Greater => Punct::GreaterThan,
        Operator::LessOrEqual => Punct::LessOrEqual,
        Operator::GreaterOrEqual => Punct::GreaterOrEqual,
        Operator::Add => Punct::Plus,
        Operator::Subtract => Punct::Minus,
        Operator::Multiply => Punct::Star,
        Operator::Divide => Punct::Slash,
        Operator::Remainder => Punct::Percent,
    }
}

pub fn binder_word(binder: Binder) -> &'static [u8]
    ensures { result.now ≡ binder_word (binder_view binder) }
{
    match binder {
        Binder::Const => b"const",
        Binder::Let => b"let",
    }
}
