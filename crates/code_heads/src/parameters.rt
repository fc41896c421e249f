// The parameters of a function or an arrow.
ghost use Rattle.std.specs.Prelude.{◌≡◌, ◌<◌, ℕ, true, IfOk};
ghost use Rattle.js_grammar.specs.Code.{has_parameters as any_parameters, more_parameter, parameter as parameter_tree};
ghost use Rattle.std.specs.Option.{option_map};
ghost use Rattle.type_tree.specs.View.{type_view};
ghost use Rattle.code_tree.specs.Flat.{parameters_view, parameter_view};
ghost use Rattle.code_law.specs.Expressions.{parameter_step, after_parameter as next_step, parameter_word_step, parameter_mark_step, open_step};
ghost use Rattle.code_law.specs.Frames.{of_arrow, of_function};
ghost use Rattle.code_state.specs.Forms.{kind_view, owner_view};
ghost use Rattle.code_state.specs.Turns.{Gives};
ghost use Rattle.code_heads.specs.NameEnds.{says_more};

use code_state::{HeadMode, Heading, Mode, NamedParameter, OpenParameters, Owner, Turn, Waiting};
use code_tree::Parameter;
use flow_values::{List, NoMemory, Text};
use js_token::{Punct, TokenKind, is_reserved};
use std::alloc::Global;
use type_tree::TypeTree;

/// Whether there are parameters.
#[tactic(auto, using(crate::proofs::Empties::empties))]
fn has_parameters(parameters: &List<Parameter>) -> bool
    ensures { result ≡ any_parameters (parameters_view parameters.now) }
{
    !parameters.as_slice().is_empty()
}

/// A token where a parameter may begin.
pub fn begin_parameter(
    at: usize,
    so_far: OpenParameters,
    token: &TokenKind,
) -> Result<Turn, NoMemory>
    ensures { IfOk result (λ turn. Gives turn (λ k. parameter_step at k (owner_view so_far.owner) so_far.first (parameters_view so_far.parameters) token.now)) }
{
    match token {
        TokenKind::Punct(Punct::CloseParen) => {
            let comma = has_parameters(&so_far.parameters);
            Ok(Turn::Go(Mode::Head(HeadMode::End(so_far, comma))))
        }
        TokenKind::Name(word) => {
            if is_reserved(word.as_bytes()) {
                Ok(Turn::Fault)
            } else {
                let name = word.share()?;
                Ok(Turn::Go(Mode::Head(HeadMode::Word(NamedParameter {
                    open: so_far,
                    start: at,
                    name,
                }))))
            }
        }
        _ => Ok(Turn::Fault),
    }
}

/// A token behind a parameter.
fn after_parameter(so_far: OpenParameters, token: &TokenKind) -> Turn
    ensures { Gives result (λ k. next_step k (owner_view so_far.owner) so_far.first (parameters_view so_far.parameters) token.now) }
{
    match token {
        TokenKind::Punct(Punct::CloseParen) => Turn::Go(Mode::Head(HeadMode::End(so_far, false))),
        TokenKind::Punct(Punct::Comma) => Turn::Go(Mode::Head(HeadMode::Start(so_far))),
        _ => Turn::Fault,
    }
}

/// A parameter is whole, with a type or none, and the token at a place comes after it.
#[tactic(auto, using(code_state::proofs::Pushes::pushes))]
pub fn add_parameter(
    at: usize,
    named: NamedParameter,
    optional: bool,
    annotation: Option<TypeTree>,
    token: &TokenKind,
) -> Result<Turn, NoMemory>
    ensures { IfOk result (λ turn. Gives turn (λ k. next_step k (owner_view named.open.owner) named.open.first (more_parameter (parameters_view named.open.parameters) (parameter_tree named.start at named.name optional (option_map type_view annotation))) token.now)) }
{
    let NamedParameter {
        open: so_far,
        start,
        name,
    } = named;
    let OpenParameters {
        owner,
        first,
        mut parameters,
    } = so_far;
    parameters.push(Parameter::new(start, at, name, optional, annotation))?;
    let so_far = OpenParameters {
        owner,
        first,
        parameters,
    };
    Ok(after_parameter(so_far, token))
}

/// A token behind the name of an arrow's parameter.
fn after_arrow_name(
    at: usize,
    first: usize,
    parameters: List<Parameter>,
    start: usize,
    name: Text,
    token: &TokenKind,
) -> Turn
    ensures { Gives result (λ k. parameter_word_step at k of_arrow first (parameters_view parameters) start name token.now) }
{
    let so_far = OpenParameters {
        owner: Owner::Arrow,
        first,
        parameters,
    };
    let named = NamedParameter {
        open: so_far,
        start,
        name,
    };
    match token {
        TokenKind::Punct(Punct::Colon) => Turn::Type(Waiting::Parameter(named, false)),
        TokenKind::Punct(Punct::Question) => Turn::Go(Mode::Head(HeadMode::Mark(named))),
        _ => Turn::Fault,
    }
}

/// Whether a token behind a parameter's name says more of the parameter.
fn says_more(token: &TokenKind) -> bool
    ensures { result ≡ says_more token.now }
{
    matches!(
        token,
        TokenKind::Punct(Punct::Colon) | TokenKind::Punct(Punct::Question)
    )
}

/// A colon or a question mark behind the name of a function's parameter.
fn more_of_parameter(
    at: usize,
    heading: Heading,
    first: usize,
    parameters: List<Parameter>,
    start: usize,
    name: Text,
    token: &TokenKind,
) -> Turn
    requires { says_more token.now ≡ true }
    ensures { Gives result (λ k. parameter_word_step at k (of_function (kind_view heading.kind) heading.first heading.name) first (parameters_view parameters) start name token.now) }
{
    let so_far = OpenParameters {
        owner: Owner::Function(heading),
        first,
        parameters,
    };
    let named = NamedParameter {
        open: so_far,
        start,
        name,
    };
    match token {
        TokenKind::Punct(Punct::Colon) => Turn::Type(Waiting::Parameter(named, false)),
        TokenKind::Punct(Punct::Question) => Turn::Go(Mode::Head(HeadMode::Mark(named))),
        _ => Turn::Fault,
    }
}

/// A token behind the name of a function's parameter, which may have no type.
#[tactic(auto, using(crate::proofs::NameEnds::ends_parameter))]
fn after_function_name(
    at: usize,
    heading: Heading,
    first: usize,
    parameters: List<Parameter>,
    start: usize,
    name: Text,
    token: &TokenKind,
) -> Result<Turn, NoMemory>
    ensures { IfOk result (λ turn. Gives turn (λ k. parameter_word_step at k (of_function (kind_view heading.kind) heading.first heading.name) first (parameters_view parameters) start name token.now)) }
{
    if says_more(token) {
        return Ok(more_of_parameter(at, heading, first, parameters, start, name, token));
    }
    let so_far = OpenParameters {
        owner: Owner::Function(heading),
        first,
        parameters,
    };
    let named = NamedParameter {
        open: so_far,
        start,
        name,
    };
    add_parameter(at, named, false, None, token)
}

/// A token behind a parameter's name.
pub fn after_parameter_word(
    at: usize,
    named: NamedParameter,
    token: &TokenKind,
) -> Result<Turn, NoMemory>
    ensures { IfOk result (λ turn. Gives turn (λ k. parameter_word_step at k (owner_view named.open.owner) named.open.first (parameters_view named.open.parameters) named.start named.name token.now)) }
{
    let NamedParameter {
        open: so_far,
        start,
        name,
    } = named;
    let OpenParameters {
        owner,
        first,
        parameters,
    } = so_far;
    match owner {
        Owner::Arrow => Ok(after_arrow_name(at, first, parameters, start, name, token)),
        Owner::Function(heading) => {
            after_function_name(at, heading, first, parameters, start, name, token)
        }
    }
}

/// A token behind a parameter's name and a question mark.
pub fn after_parameter_mark(named: NamedParameter, token: &TokenKind) -> Turn
    ensures { Gives result (λ k. parameter_mark_step k (owner_view named.open.owner) named.open.first (parameters_view named.open.parameters) named.start named.name token.now) }
{
    match token {
        TokenKind::Punct(Punct::Colon) => Turn::Type(Waiting::Parameter(named, true)),
        _ => Turn::Fault,
    }
}

/// A token before parameters.
#[tactic(auto, using(code_state::proofs::Pushes::nothings))]
pub fn open_parameters(alloc: Global, at: usize, owner: Owner, token: &TokenKind) -> Turn
    ensures { Gives result (λ k. open_step at k (owner_view owner) token.now) }
{
    match token {
        TokenKind::Punct(Punct::OpenParen) => {
            Turn::Go(Mode::Head(HeadMode::Start(OpenParameters {
                owner,
                first: at,
                parameters: List::new(alloc),
            })))
        }
        _ => Turn::Fault,
    }
}
