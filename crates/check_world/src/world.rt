//! What stands around a module's code.
ghost use Rattle.std.specs.Prelude.{◌≡◌, suc, slice_index_or, IfOk};
ghost use Rattle.alias_table.specs.Members.{seen};
ghost use Rattle.local_signatures.specs.Faults.{no_span, span_over};
ghost use Rattle.type_tree.specs.View.{type_view};
ghost use Rattle.typing.specs.States.{two_types, fault_at};
ghost use Rattle.typing.specs.TypeFaults.{written};

use crate::names::TypeScope;
use alias_members::members_of;
use alias_table::AliasTable;
use check_values::{Code, Fault};
use flow_values::{List, NoMemory, Span, Text, span_at};
use std::alloc::Global;
use subtype_rules::is_subtype;
use tree_typing::type_of_tree;
use type_terms::brief;
use type_tree::TypeTree;
use type_values::FlowType;

/// The aliases of all modules that count, what the module's names mean as types, where each token
/// stands, and the byte place that is watched, if there is one.
#[derive(Clone, Copy)]
pub struct World<'a> {
    pub alloc: Global,
    pub table: &'a AliasTable,
    pub names: &'a TypeScope,
    pub spans: &'a [Span],
    pub watch: Option<u32>,
}

impl World<'_> {
    ghost use Rattle.check_world.specs.View.{world_view, fault_code};

    /// The members of a type.
    ///
    /// # Errors
    ///
    /// `NoMemory` where memory is refused.
    #[tactic(auto, unfolding(crate::specs::View::world_view))]
    pub fn members<'t>(&'t self, t: &'t FlowType) -> Result<List<&'t FlowType>, NoMemory>
        ensures { IfOk result (λ all. seen all ≡ (world_view self.now).members t.now) }
    {
        members_of(self.alloc, self.table, t)
    }

    /// Whether a type is below another one.
    ///
    /// # Errors
    ///
    /// `NoMemory` where memory is refused.
    #[tactic(auto, unfolding(crate::specs::View::world_view))]
    pub fn is_below(&self, a: &FlowType, b: &FlowType) -> Result<bool, NoMemory>
        ensures { IfOk result (λ yes. yes ≡ (world_view self.now).below a.now b.now) }
    {
        is_subtype(self.alloc, self.table, a, b)
    }

    /// The type that a tree stands for.
    ///
    /// # Errors
    ///
    /// `NoMemory` where memory is refused.
    #[tactic(auto, unfolding(crate::specs::View::world_view))]
    pub fn written(&self, tree: &TypeTree) -> Result<FlowType, NoMemory>
        ensures { IfOk result (λ t. t ≡ written (world_view self.now) (type_view tree.now)) }
    {
        type_of_tree(self.alloc, self.names, tree)
    }

    /// The fault of a name that means no type.
    #[tactic(auto, unfolding(crate::specs::View::world_view))]
    pub fn name_fault(&self, name: &Text) -> Option<Code>
        ensures { result ≡ fault_code ((world_view self.now).type_meaning name.now) }
    {
        self.names.fault(name)
    }

    /// The bytes from the first of some tokens to the end of the last one.
    #[tactic(auto, unfolding(crate::specs::View::world_view))]
    pub fn span(&self, first: usize, end: usize) -> Span
        ensures { result ≡ span_over (world_view self.now).spans first end }
    {
        let start = match self.spans.get(first) {
            Some(span) => span.start,
            None => 0,
        };
        let end = match self.spans.get(end.saturating_sub(1)) {
            Some(span) => span.end,
            None => 0,
        };
        Span { start, end }
    }

    // The bytes of one token.
    #[tactic(auto, using(crate::proofs::Spans::one_span), unfolding(crate::specs::View::world_view))]
    fn token_span(&self, token: usize) -> Span
        ensures { result ≡ span_over (world_view self.now).spans token (suc token) }
    {
        span_at(self.spans, token)
    }

    /// The fault at one token.
    pub fn token_fault(&self, token: usize, code: Code, details: Text) -> Fault
        ensures { result ≡ fault_at (world_view self.now) token (suc token) code details }
    {
        Fault {
            span: self.token_span(token),
            code,
            details,
        }
    }

    /// The fault at the tokens from one number up to another.
    pub fn fault(&self, first: usize, end: usize, code: Code, details: Text) -> Fault
        ensures { result ≡ fault_at (world_view self.now) first end code details }
    {
        Fault {
            span: self.span(first, end),
            code,
            details,
        }
    }

    /// Two types as details.
    ///
    /// # Errors
    ///
    /// `NoMemory` where memory is refused.
    pub fn two_types(&self, a: &FlowType, b: &FlowType) -> Result<Text, NoMemory>
        ensures { IfOk result (λ text. text ≡ two_types a.now b.now) }
    {
        let first = brief(self.alloc, a)?;
        let second = brief(self.alloc, b)?;
        let mut text = Vec::from_slice(self.alloc, first.as_bytes())?;
        text.push(b' ')?;
        text.extend_from_slice(second.as_bytes())?;
        Text::from_vec(self.alloc, text)
    }
}
