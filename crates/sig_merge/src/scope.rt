//! What the names in the types of a member stand for.
ghost use Rattle.std.specs.Prelude.{◌≡◌, Some, IfOk};
ghost use Rattle.std.specs.Option.{option_map};
ghost use Rattle.merged_signatures.specs.Chains.{found};
ghost use Rattle.merged_signatures.specs.Merged.{import_at, alias_through, alias_imported, alias_named, name_type};
ghost use Rattle.job_ends.specs.Jobs.{known_of};
ghost use Rattle.job_ends.specs.Views.{name_view};
ghost use Rattle.job_ends.specs.Telling.{alias_in};
ghost use Rattle.sig_merge.specs.Merging.{type_in};

use check_values::ImportRow;
use flow_values::{NoMemory, Path, Text};
use job_ends::{JobEnds, Member};
use name_replacing::{Meanings, replaced};
use std::alloc::Global;
use type_values::FlowType;

// The names in the types of a member, and where the names of its job end.
#[derive(Drop)]
struct Scope<'e, 'm, 'j> {
    ends: &'e JobEnds<'m, 'j>,
    member: &'m Member<'j>,
}

fn reference(path: &Path, name: &Text) -> Result<FlowType, NoMemory>
    ensures { IfOk result (λ t. t ≡ name_type (Some (path.now, name.now))) }
{
    Ok(FlowType::Ref {
        module: path.share()?,
        name: name.share()?,
    })
}

impl<'e, 'm, 'j> Scope<'e, 'm, 'j> {
    // The alias that an import stands for.
    fn alias_through(&self, row: &ImportRow) -> Option<(&'j Path, &'j Text)>
        ensures { option_map name_view result ≡ alias_through (alias_in self.now.ends.now) row.now (found self.now.member.now.member.now.deps row.now.spec) }
    {
        match self.member.found(&row.spec) {
            Some(path) => self.ends.alias(row.is_type, path, &row.name),
            None => None,
        }
    }

    // The alias that a name stands for by its import.
    fn alias_imported(&self, name: &Text) -> Option<(&'j Path, &'j Text)>
        ensures { option_map name_view result ≡ alias_imported (alias_in self.now.ends.now) self.now.member.now.member.now.deps (import_at self.now.member.now.member.now.sig.imports name.now) }
    {
        match self.member.import(name) {
            Some(row) => self.alias_through(row),
            None => None,
        }
    }
}

fn imported_type(alias: Option<(&Path, &Text)>) -> Result<FlowType, NoMemory>
    ensures { IfOk result (λ t. t ≡ name_type (option_map name_view alias.entry)) }
{
    match alias {
        Some((path, name)) => reference(path, name),
        None => Ok(FlowType::Any),
    }
}

impl<'e, 'm, 'j> Meanings for Scope<'e, 'm, 'j> {
    ghost stands_for = { λ scope word. name_type (alias_named (alias_in scope.ends.now) scope.member.now.member.now.path (known_of scope.member.now.member.now) word) };

    fn meaning(&self, alloc: Global, name: &Text) -> Result<FlowType, NoMemory> {
        if self.member.has_alias(name) {
            return reference(&self.member.member.path, name);
        }
        imported_type(self.alias_imported(name))
    }
}

/// A type of a member, with its names replaced by the aliases that they denote, and else by `any`.
///
/// # Errors
///
/// `NoMemory` where memory is refused.
pub(crate) fn replaced_type<'m, 'j>(
    alloc: Global,
    ends: &JobEnds<'m, 'j>,
    member: &'m Member<'j>,
    t: &FlowType,
) -> Result<FlowType, NoMemory>
    ensures { IfOk result (λ r. r ≡ type_in ends.now member.now.member.now t.now) }
{
    replaced(alloc, &Scope { ends, member }, t)
}
