// What the exports of a module tell.
#![tactic(auto, unfolding(code_tree::specs::View::declaration_view, code_tree::specs::View::function_view))]

ghost use Rattle.std.specs.Prelude.{◌≡◌, false, Some, map, IfOk};
ghost use Rattle.std.specs.Option.{option_map};
ghost use Rattle.code_tree.specs.View.{declaration_view, function_view};
ghost use Rattle.local_signatures.specs.Exports.{told_variable, told_function, told_binding, told_name};
ghost use Rattle.named_rows.specs.Seen.{seen};
ghost use Rattle.told_signature.specs.Seen.{told_view, said_view};
ghost use Rattle.sig_extract.specs.Seen.{binding_view, named_row, TellsAsType};

use crate::binding::Binding;
use crate::scope::Scope;
use boundary_typing::{declared_type, function_type};
use code_tree::{Declaration, Function};
use flow_values::{NoMemory, Text};
use std::alloc::Global;
use told_signature::{Place, Said, Told};

/// What a variable tells.
pub fn variable<'a>(
    alloc: Global,
    scope: &Scope,
    declaration: &Declaration,
) -> Result<Told<'a>, NoMemory>
    ensures { IfOk result (λ told. told_view told ≡ told_variable (seen binding_view scope.now.rows.items) (declaration_view declaration.now)) }
{
    let ty = declared_type(alloc, scope, declaration)?;
    Ok(Told::Value(ty, Place::Name(declaration.first)))
}

/// What a function tells; one without a name stands at the tokens from one place to another.
pub fn function<'a>(
    alloc: Global,
    scope: &Scope,
    from: usize,
    to: usize,
    function: &Function,
) -> Result<Told<'a>, NoMemory>
    ensures { IfOk result (λ told. told_view told ≡ told_function (seen binding_view scope.now.rows.items) from to (function_view function.now)) }
{
    let ty = function_type(alloc, scope, &function.signature)?;
    let place = match &function.name {
        Some(_) => Place::Name(function.first),
        None => Place::Whole(from, to),
    };
    Ok(Told::Value(ty, place))
}

// What a name tells that is exported as a value.
fn as_value<'a>(
    alloc: Global,
    scope: &Scope,
    word: &'a Text,
    binding: Binding<'a>,
) -> Result<Told<'a>, NoMemory>
    ensures { IfOk result (λ told. told_view told ≡ told_binding (seen binding_view scope.now.rows.items) false word.now (Some (binding_view binding.entry))) }
{
    match binding {
        Binding::Variable(d) => variable(alloc, scope, d),
        Binding::Function(f) => function(alloc, scope, 0, 0, f),
        Binding::Import {
            specifier,
            name,
            is_type: false,
        } => Ok(Told::Import {
            local: word,
            specifier,
            name,
            is_type: false,
        }),
        Binding::Import { is_type: true, .. } | Binding::Alias(_) => Ok(Told::Nothing),
    }
}

/// What each name of the scope tells as a value, in the order of the source.
#[tactic(auto, using(told_signature::proofs::Listed::mapped_next, named_rows::proofs::Lists::seen_more))]
pub fn told_by_names<'s, 'a>(
    alloc: Global,
    scope: &'s Scope<'a>,
) -> Result<Vec<(Text, Told<'s>)>, NoMemory>
    ensures { IfOk result (λ told. seen told_view told.items ≡ map (named_row (seen binding_view scope.now.rows.items)) (seen binding_view scope.now.rows.items)) }
{
    let rows = scope.rows.as_slice();
    let mut all = Vec::new(alloc);
    for i in 0..rows.len() {
        let row = &rows[i];
        let told = as_value(alloc, scope, &row.0, row.1)?;
        all.push((row.0.share()?, told))?;
    }
    Ok(all)
}

// What a name tells that is exported as a type.
fn as_type<'a>(word: &'a Text, binding: Option<Binding<'a>>) -> Told<'a>
    ensures { TellsAsType (told_view result) word.now (option_map binding_view binding.entry) }
{
    match binding {
        Some(Binding::Alias(_)) => Told::Alias(word),
        Some(
            Binding::Import {
                specifier,
                name,
                is_type: true,
            },
        ) => Told::Import {
            local: word,
            specifier,
            name,
            is_type: true,
        },
        Some(Binding::Import { is_type: false, .. })
        | Some(Binding::Variable(_) | Binding::Function(_))
        | None => Told::Nothing,
    }
}

/// What an export of a name says, as a type or as a value.
pub fn name<'a>(scope: &Scope<'a>, is_type: bool, word: &'a Text) -> Said<'a>
    ensures { said_view (told_name (seen binding_view scope.now.rows.items) false) result ≡ told_name (seen binding_view scope.now.rows.items) is_type word.now }
{
    if is_type {
        Said::Own(as_type(word, scope.binding(word)))
    } else {
        Said::Name(word)
    }
}
