// The tokens of types, and after them those that `tail` had.
#![tactic(auto, unfolding(type_tree::specs::View::type_view, type_tree::specs::View::pre_view, type_tree::specs::View::core_view, type_tree::specs::View::base_view, type_tree::specs::View::form_view, type_tree::specs::View::param_view, type_tree::specs::View::prop_view, type_tree::specs::View::places_view, type_tree::specs::View::pres_view, type_tree::specs::View::params_view, type_tree::specs::View::types_view, type_tree::specs::View::props_view))]

ghost use Rattle.std.specs.Prelude.{◌≡◌, OnOk};
ghost use Rattle.js_grammar.specs.Words.{array_name};
ghost use Rattle.js_grammar.specs.Types.{object};
ghost use Rattle.js_grammar.specs.TypeSpelling.{marks, brackets, spell_sign, spell_key, spell, spell_pres, spell_pre, spell_core, spell_base, spell_form, spell_params, spell_param, spell_types, spell_props, spell_rows, spell_prop};
ghost use Rattle.type_tree.specs.View.{sign_view, ending_view, key_view, type_view, pre_view, core_view, base_view, form_view, param_view, prop_view, places_view, pres_view, params_view, types_view, props_view};

use crate::spelling::tail::Tail;
use flow_values::NoMemory;
use js_token::Punct;
use type_tree::{
    BaseForm, BaseTree, CoreTree, Ending, FunctionType, Key, KeyForm, NamedParam, ParamTree,
    PostType, PreTree, PropTree, Sign, TypeTree,
};

#[cycle(spell_types)]
pub fn spell_type(t: &TypeTree, tail: &mut Tail) -> Result<(), NoMemory>
    ensures { OnOk result (tail.new ≡ spell (type_view t.now) tail.old) }
{
    spell_members(t.members.as_slice(), tail)?;
    tail.mark_if(t.lead, Punct::Bar)
}

#[cycle(spell_types)]
#[tactic(auto, using(crate::proofs::TypeLists::type_lists))]
fn spell_members(members: &[PreTree], tail: &mut Tail) -> Result<(), NoMemory>
    ensures { OnOk result (tail.new ≡ spell_pres (pres_view members.now) tail.old) }
{
    for i in (0..members.len()).rev() {
        tail.mark_if(i + 1 < members.len(), Punct::Bar)?;
        spell_member(&members[i], tail)?;
    }
    Ok(())
}

#[cycle(spell_types)]
fn spell_member(member: &PreTree, tail: &mut Tail) -> Result<(), NoMemory>
    ensures { OnOk result (tail.new ≡ spell_pre (pre_view member.now) tail.old) }
{
    spell_core(&member.core, tail)?;
    spell_marks(member.marks.as_slice(), tail)
}

#[tactic(auto, using(crate::proofs::TypeLists::type_lists))]
fn spell_marks(places: &[usize], tail: &mut Tail) -> Result<(), NoMemory>
    ensures { OnOk result (tail.new ≡ marks (places_view places.now) tail.old) }
{
    for _i in (0..places.len()).rev() {
        tail.mark(Punct::Question)?;
    }
    Ok(())
}

#[cycle(spell_types)]
fn spell_core(core: &CoreTree, tail: &mut Tail) -> Result<(), NoMemory>
    ensures { OnOk result (tail.new ≡ spell_core (core_view core.now) tail.old) }
{
    match core {
        CoreTree::Function(function) => spell_function_type(function, tail),
        CoreTree::Post(post) => spell_post_type(post, tail),
    }
}

#[cycle(spell_types)]
fn spell_function_type(function: &FunctionType, tail: &mut Tail) -> Result<(), NoMemory>
    ensures { OnOk result (tail.new ≡ spell_core (core_view (CoreTree.Function function.now)) tail.old) }
{
    spell_type(function.result.get(), tail)?;
    tail.mark(Punct::Arrow)?;
    tail.mark(Punct::CloseParen)?;
    tail.mark_if(function.comma, Punct::Comma)?;
    spell_params(function.params.as_slice(), tail)?;
    tail.mark(Punct::OpenParen)
}

#[cycle(spell_types)]
fn spell_post_type(post: &PostType, tail: &mut Tail) -> Result<(), NoMemory>
    ensures { OnOk result (tail.new ≡ spell_core (core_view (CoreTree.Post post.now)) tail.old) }
{
    spell_brackets(post.brackets.as_slice(), tail)?;
    spell_base(&post.base, tail)
}

#[tactic(auto, using(crate::proofs::TypeLists::type_lists))]
fn spell_brackets(places: &[usize], tail: &mut Tail) -> Result<(), NoMemory>
    ensures { OnOk result (tail.new ≡ brackets (places_view places.now) tail.old) }
{
    for _i in (0..places.len()).rev() {
        tail.mark(Punct::CloseBracket)?;
        tail.mark(Punct::OpenBracket)?;
    }
    Ok(())
}

#[cycle(spell_types)]
fn spell_base(base: &BaseTree, tail: &mut Tail) -> Result<(), NoMemory>
    ensures { OnOk result (tail.new ≡ spell_base (base_view base.now) tail.old) }
{
    spell_base_form(&base.form, tail)
}

#[cycle(spell_types)]
fn spell_base_form(form: &BaseForm, tail: &mut Tail) -> Result<(), NoMemory>
    ensures { OnOk result (tail.new ≡ spell_form (form_view form.now) tail.old) }
{
    match form {
        BaseForm::Name(name) => tail.name(name),
        BaseForm::Str(value) => tail.string(value),
        BaseForm::Number(spelling) => tail.number(spelling),
        BaseForm::Null => tail.word(b"null"),
        BaseForm::Void => tail.word(b"void"),
        BaseForm::Truth(value) => tail.truth(*value),
        BaseForm::Array { read_only, element } => {
            tail.mark(Punct::GreaterThan)?;
            spell_type(element.get(), tail)?;
            tail.mark(Punct::LessThan)?;
            tail.word(array_word(*read_only))
        }
        BaseForm::Paren(inner) => {
            tail.mark(Punct::CloseParen)?;
            spell_type(inner.get(), tail)?;
            tail.mark(Punct::OpenParen)
        }
        BaseForm::Tuple { types, comma } => {
            tail.mark(Punct::CloseBracket)?;
            tail.mark_if(*comma, Punct::Comma)?;
            spell_all(types.as_slice(), tail)?;
            tail.mark(Punct::OpenBracket)
        }
        BaseForm::Object { props, ending } => spell_object(props.as_slice(), *ending, tail),
    }
}

fn array_word(read_only: bool) -> &'static [u8]
    ensures { result.now ≡ array_name read_only }
{
    if read_only {
        b"$ReadOnlyArray"
    } else {
        b"Array"
    }
}

#[cycle(spell_types)]
#[tactic(auto, using(crate::proofs::TypeLists::type_lists))]
fn spell_params(params: &[ParamTree], tail: &mut Tail) -> Result<(), NoMemory>
    ensures { OnOk result (tail.new ≡ spell_params (params_view params.now) tail.old) }
{
    for i in (0..params.len()).rev() {
        tail.mark_if(i + 1 < params.len(), Punct::Comma)?;
        spell_param(&params[i], tail)?;
    }
    Ok(())
}

#[cycle(spell_types)]
fn spell_param(param: &ParamTree, tail: &mut Tail) -> Result<(), NoMemory>
    ensures { OnOk result (tail.new ≡ spell_param (param_view param.now) tail.old) }
{
    match param {
        ParamTree::Plain(ty) => spell_type(ty, tail),
        ParamTree::Named(named) => spell_named_param(named, tail),
    }
}

#[cycle(spell_types)]
fn spell_named_param(param: &NamedParam, tail: &mut Tail) -> Result<(), NoMemory>
    ensures { OnOk result (tail.new ≡ spell_param (param_view (ParamTree.Named param.now)) tail.old) }
{
    spell_type(&param.ty, tail)?;
    tail.mark(Punct::Colon)?;
    tail.mark_if(param.optional, Punct::Question)?;
    tail.name(&param.name)
}

#[cycle(spell_types)]
#[tactic(auto, using(crate::proofs::TypeLists::type_lists))]
fn spell_all(types: &[TypeTree], tail: &mut Tail) -> Result<(), NoMemory>
    ensures { OnOk result (tail.new ≡ spell_types (types_view types.now) tail.old) }
{
    for i in (0..types.len()).rev() {
        tail.mark_if(i + 1 < types.len(), Punct::Comma)?;
        spell_type(&types[i], tail)?;
    }
    Ok(())
}

#[cycle(spell_types)]
fn spell_object(props: &[PropTree], ending: Ending, tail: &mut Tail) -> Result<(), NoMemory>
    ensures { OnOk result (tail.new ≡ spell_form (object (props_view props.now) (ending_view ending)) tail.old) }
{
    tail.mark(Punct::CloseBrace)?;
    match ending {
        Ending::Bare => spell_props(props, tail)?,
        Ending::Comma => spell_rows(props, tail)?,
        Ending::Dots => {
            tail.mark(Punct::Ellipsis)?;
            spell_rows(props, tail)?;
        }
    }
    tail.mark(Punct::OpenBrace)
}

#[cycle(spell_types)]
#[tactic(auto, using(crate::proofs::TypeLists::type_lists))]
fn spell_props(props: &[PropTree], tail: &mut Tail) -> Result<(), NoMemory>
    ensures { OnOk result (tail.new ≡ spell_props (props_view props.now) tail.old) }
{
    for i in (0..props.len()).rev() {
        tail.mark_if(i + 1 < props.len(), Punct::Comma)?;
        spell_prop(&props[i], tail)?;
    }
    Ok(())
}

// With a comma behind each.
#[cycle(spell_types)]
#[tactic(auto, using(crate::proofs::TypeLists::type_lists))]
fn spell_rows(props: &[PropTree], tail: &mut Tail) -> Result<(), NoMemory>
    ensures { OnOk result (tail.new ≡ spell_rows (props_view props.now) tail.old) }
{
    for i in (0..props.len()).rev() {
        tail.mark(Punct::Comma)?;
        spell_prop(&props[i], tail)?;
    }
    Ok(())
}

#[cycle(spell_types)]
fn spell_prop(prop: &PropTree, tail: &mut Tail) -> Result<(), NoMemory>
    ensures { OnOk result (tail.new ≡ spell_prop (prop_view prop.now) tail.old) }
{
    spell_type(&prop.ty, tail)?;
    tail.mark(Punct::Colon)?;
    tail.mark_if(prop.optional, Punct::Question)?;
    spell_key(&prop.key, tail)?;
    spell_sign(prop.sign, tail)
}

pub fn spell_key(key: &Key, tail: &mut Tail) -> Result<(), NoMemory>
    ensures { OnOk result (tail.new ≡ spell_key (key_view key.now) tail.old) }
{
    match &key.form {
        KeyForm::Word(word) => tail.name(word),
        KeyForm::Str(value) => tail.string(value),
    }
}

fn spell_sign(sign: Sign, tail: &mut Tail) -> Result<(), NoMemory>
    ensures { OnOk result (tail.new ≡ spell_sign (sign_view sign) tail.old) }
{
    match sign {
        Sign::Unsigned => Ok(()),
        Sign::Plus => tail.mark(Punct::Plus),
        Sign::Minus => tail.mark(Punct::Minus),
    }
}
