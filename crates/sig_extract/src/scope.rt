// What the names of a module's top level stand for.
ghost use Rattle.std.specs.Prelude.{◌≡◌, List, ℕ, IfOk};
ghost use Rattle.std.specs.Option.{option_map, option_copied};
ghost use Rattle.std.specs.Ordering.{nat_cmp};
ghost use Rattle.std.specs.Cmp.Lexicographic.{slice_cmp};
ghost use Rattle.std.specs.BTreeMap.{get};
ghost use Rattle.check_values.specs.Rows.{row_at, first_of_each};
ghost use Rattle.local_signatures.specs.Scope.{names_type, own_path, local_name};
ghost use Rattle.named_rows.specs.Seen.{seen};
ghost use Rattle.sig_extract.specs.Seen.{binding_view};

use crate::binding::{Binding, Rows};
use flow_values::{NoMemory, Path, PathFault, Text};
use named_rows::{by_name, first_of_each};
use std::alloc::Global;
use std::collections::BTreeMap;
use tree_typing::Names;
use type_values::FlowType;

/// The first binding of each name, in the order of the source and by name.
#[derive(Drop)]
pub struct Scope<'a> {
    pub rows: Rows<'a>,
    names: BTreeMap<Text, Binding<'a>>,
    own: Path,
    ghost named: { (word : List ℕ) → get (slice_cmp nat_cmp) names word ≡ row_at rows.items word },
    ghost at_home: { own ≡ own_path },
}

// The module of each name in a local signature's types.
#[tactic(auto, using(crate::proofs::OwnPath::own_is_normal))]
fn own_path(alloc: Global) -> Result<Path, NoMemory>
    ensures { IfOk result (λ path. path ≡ own_path) }
{
    match Path::read(alloc, b"self.js/self.js") {
        Ok(path) => Ok(path),
        Err(PathFault::NoMemory) => Err(NoMemory),
        Err(PathFault::BadPath) => unreachable!(),
    }
}

// Whether a binding is an alias or a type import.
fn names_type(binding: Option<Binding>) -> bool
    ensures { result ≡ names_type (option_map binding_view binding.entry) }
{
    match binding {
        Some(Binding::Alias(_)) => true,
        Some(Binding::Import { is_type, .. }) => is_type,
        Some(Binding::Variable(_) | Binding::Function(_)) | None => false,
    }
}

impl<'a> Scope<'a> {
    /// The scope of these bindings.
    #[tactic(auto, using(named_rows::proofs::FirstRows::seen_first, named_rows::proofs::FirstRows::row_named))]
    pub fn new(alloc: Global, bindings: Rows<'a>) -> Result<Scope<'a>, NoMemory>
        ensures { IfOk result (λ scope. seen binding_view scope.rows.items ≡ first_of_each (seen binding_view bindings.entry.items)) }
    {
        let rows = first_of_each(alloc, bindings.as_slice())?;
        let names = by_name(alloc, bindings)?;
        let own = own_path(alloc)?;
        Ok(Scope { rows, names, own })
    }

    /// What a name is bound to.
    #[tactic(auto, using(named_rows::proofs::FirstRows::row_seen))]
    pub fn binding(&self, word: &Text) -> Option<Binding<'a>>
        ensures { option_map binding_view result ≡ row_at (seen binding_view self.now.rows.items) word.now }
    {
        self.names.get(word).copied()
    }
}

impl<'a> Names for Scope<'a> {
    ghost stands_for = { λ scope word. local_name (seen binding_view scope.rows.items) word };

    fn type_of_name(&self, alloc: Global, name: &Text) -> Result<FlowType, NoMemory> {
        if !names_type(self.binding(name)) {
            return Ok(FlowType::Any);
        }
        Ok(FlowType::Ref {
            module: self.own.share()?,
            name: name.share()?,
        })
    }
}
