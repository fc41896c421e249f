//! The names that are seen, as a stack with two maps into it.
ghost use Rattle.std.specs.Prelude.{◌≡◌, ◌==◌, ◌<◌, ◌≤◌, ◌∷◌, ℕ, List, [], length, Option, Some, None, OnOk, OnErr, IfOk, IfNone, IfSome, IsSome, true, slice_get, ◌++◌, vec_len, vec_capacity, if◌then◌else◌};
ghost use Rattle.std.specs.Option.{option_map};
ghost use Rattle.std.specs.Ordering.{nat_cmp};
ghost use Rattle.std.specs.Cmp.Lexicographic.{slice_cmp};
ghost use Rattle.std.specs.BTreeMap.{get, Updates};
ghost use Rattle.typing.specs.Names.{binding_of, binds, meaning_by_kind, meaning_of, is_usable, declares_type};
ghost use Rattle.typing.specs.Tests.{place_of_meaning, variable_number};
ghost use Rattle.typing.specs.Statements.{is_shared};
ghost use Rattle.scopes.specs.Stack.{last_at, AreLinked, at_place};
ghost use Rattle.scopes.specs.declared.row.Row.{Row};
ghost use Rattle.scopes.specs.Rows.{kind_view, binding_view, has_name, has_number, is_named_like, is_numbered_like, declared_row};

use crate::binding::{Binding, Kind, Meaning, Variable};
use crate::row::{Earlier, Height, Row};
use check_values::Code;
use flow_values::{NoMemory, Text};
use std::alloc::Global;
use std::collections::BTreeMap;
use std::mem;
use type_values::FlowType;

/// The names that are seen, the innermost last; how many functions stand around; and what the function
/// around is to return.
#[derive(Drop)]
pub struct Scope {
    rows: Vec<Row>,
    // What declarations that were read have changed, the last change last.
    changes: Vec<Earlier>,
    // The innermost name of each text, and of each number.
    by_name: BTreeMap<Text, usize>,
    by_number: BTreeMap<u32, usize>,
    pub depth: usize,
    pub result: Option<FlowType>,
    ghost named: { (name : List ℕ) → get (slice_cmp nat_cmp) by_name name ≡ last_at (has_name name) rows.items },
    ghost numbered: { (number : ℕ) → get nat_cmp by_number number ≡ last_at (has_number number) rows.items },
    ghost names_linked: { AreLinked is_named_like (λ row. row.outer_name) rows.items },
    ghost numbers_linked: { AreLinked is_numbered_like (λ row. row.outer_number) rows.items },
}

// The innermost place of a key goes back to the next outer one.
fn go_back<K: Ord + Drop>(places: &mut BTreeMap<K, usize>, key: &K, outer: Option<usize>)
    requires { IsSome (get K.cmp places.old key.now) }
    ensures { Updates K.cmp places.old places.new key.now outer }
{
    let Some(outer) = outer else {
        places.remove(key);
        return;
    };
    if let Some(at) = places.get_mut(key) {
        *at = outer;
    }
}

// Puts what is known of the declaration of a name, if there is one at the place, and gives what was
// known before.
fn exchange(
    rows: &mut Vec<Row>,
    at: usize,
    is_read: bool,
    declared: Option<FlowType>,
) -> Option<Earlier>
    ensures rows { rows.new.items ≡ at_place at (declared_row is_read declared) rows.old.items }
    ensures none { IfNone result (rows.new.items ≡ rows.old.items) }
    ensures before { IfSome result (λ e. (x : Row) × (slice_get rows.old.items at ≡ Some x) × (e ≡ record { at = at; is_read = x.binding.is_read; declared = x.binding.declared })) }
{
    let Some(row) = rows.get_mut(at) else {
        drop(declared);
        return None;
    };
    Some(Earlier {
        at,
        is_read: mem::replace(&mut row.binding.is_read, is_read),
        declared: mem::replace(&mut row.binding.declared, declared),
    })
}

// Whether a name may be used where so many functions stand around.
fn is_usable(binding: &Binding, depth: usize) -> bool
    ensures { result ≡ is_usable depth (binding_view binding.now) }
{
    binding.is_read || binding.depth < depth
}

impl Scope {
    ghost use Rattle.typing.specs.Names as typing;
    ghost use Rattle.scopes.specs.View.{scope_view, names_in, names_at, names_since, IsHeight, IsTop, KeepsHeights, DropsLast, TakesBack, GoesBack, Tells};

    /// No names, outside of all functions.
    pub fn new(alloc: Global) -> Scope
        ensures { scope_view result ≡ record { names = []; depth = 0; result = None } }
    {
        Scope {
            rows: Vec::new(alloc),
            changes: Vec::new(alloc),
            by_name: BTreeMap::new(alloc),
            by_number: BTreeMap::new(alloc),
            depth: 0,
            result: None,
        }
    }

    /// What `leave` goes back to these names by.
    pub fn height(&self) -> Height
        ensures top { IsTop result self.now }
        ensures names { names_at result self.now ≡ names_in self.now }
        ensures since { names_since result self.now ≡ [] }
    {
        Height {
            rows: self.rows.len(),
            changes: self.changes.len(),
        }
    }

    /// Says how many functions stand around, and what the innermost one is to return. It gives back what
    /// was to be returned before.
    pub fn stand(&mut self, depth: usize, wanted: Option<FlowType>) -> Option<FlowType>
        ensures scope { scope_view self.new ≡ record { names = names_in self.old; depth = depth; result = wanted } }
        ensures before { result ≡ self.old.result }
        ensures heights { KeepsHeights self.old self.new }
    {
        self.depth = depth;
        mem::replace(&mut self.result, wanted)
    }

    // The place of the innermost name of a text.
    fn place_of(&self, name: &Text) -> Option<usize>
        ensures { result ≡ last_at (has_name name.now) self.now.rows.items }
    {
        self.by_name.get(name).copied()
    }

    // The place of the innermost name with a number.
    fn place_of_number(&self, number: u32) -> Option<usize>
        ensures { result ≡ last_at (has_number number) self.now.rows.items }
    {
        self.by_number.get(&number).copied()
    }

    /// Whether a name is bound since a height.
    #[tactic(auto, using(crate::proofs::Meanings::since_some, crate::proofs::Meanings::since_none))]
    pub fn binds_since(&self, height: Height, name: &Text) -> bool
        ensures { result ≡ binds (names_since height self.now) name.now }
    {
        match self.place_of(name) {
            Some(at) => at >= height.rows,
            None => false,
        }
    }

    /// Binds a name.
    ///
    /// # Errors
    ///
    /// `NoMemory` where memory is refused. The names then stay as they were.
    pub fn bind(&mut self, binding: Binding) -> Result<(), NoMemory>
        ensures scope { OnOk result (scope_view self.new ≡ record { names = binding_view binding ∷ names_in self.old; depth = self.old.depth; result = self.old.result }) }
        ensures since { OnOk result ((height : Height) → IsHeight height self.old → names_since height self.new ≡ binding_view binding ∷ names_since height self.old) }
        ensures heights { KeepsHeights self.old self.new }
        ensures err { OnErr result (scope_view self.new ≡ scope_view self.old) }
    {
        let at = self.rows.len();
        self.rows.reserve(1)?;
        let outer_name = self.by_name.insert(binding.name.share()?, at)?;
        let Ok(outer_number) = self.by_number.insert(binding.number, at) else {
            go_back(&mut self.by_name, &binding.name, outer_name);
            return Err(NoMemory);
        };
        self.rows.push_reserved(Row {
            binding,
            outer_name,
            outer_number,
        });
        Ok(())
    }

    // Takes the last name away.
    fn pop(&mut self)
        requires { 0 < length self.old.rows.items }
        ensures { DropsLast self.old self.new }
    {
        let Some(row) = self.rows.pop() else {
            return;
        };
        go_back(&mut self.by_name, &row.binding.name, row.outer_name);
        go_back(&mut self.by_number, &row.binding.number, row.outer_number);
    }

    // Takes the last change back.
    fn take_back(&mut self)
        requires { 0 < length self.old.changes.items }
        ensures { TakesBack self.old self.new }
    {
        let Some(earlier) = self.changes.pop() else {
            return;
        };
        let Earlier {
            at,
            is_read,
            declared,
        } = earlier;
        exchange(&mut self.rows, at, is_read, declared);
    }

    // Takes back what was changed since a height.
    fn take_changes_back(&mut self, height: Height)
        ensures left { GoesBack height self.old self.new }
        ensures few { length self.new.changes.items ≤ height.changes }
    {
        while self.changes.len() > height.changes {
            self.take_back();
        }
    }

    // Takes the names away that were bound since a height.
    fn take_names_away(&mut self, height: Height)
        ensures left { GoesBack height self.old self.new }
        ensures few { length self.new.rows.items ≤ height.rows }
        ensures changes { self.new.changes.items ≡ self.old.changes.items }
    {
        while self.rows.len() > height.rows {
            self.pop();
        }
    }

    /// Goes back to the names of a height. It takes no memory.
    pub fn leave(&mut self, height: Height)
        ensures scope { scope_view self.new ≡ record { names = names_at height self.old; depth = self.old.depth; result = self.old.result } }
        ensures heights { (before : Scope) → IsTop height before → KeepsHeights before self.old → KeepsHeights before self.new }
    {
        self.take_changes_back(height);
        self.take_names_away(height);
    }

    /// The innermost binding of a name.
    pub fn find(&self, name: &Text) -> Option<&Binding>
        ensures { option_map (λ b. binding_view b.now) result ≡ binding_of (names_in self.now) name.now }
    {
        match self.place_of(name) {
            Some(at) => Some(&self.rows[at].binding),
            None => None,
        }
    }

    // What a name means that is bound so.
    fn meaning_of(&self, binding: &Binding) -> Result<Meaning, NoMemory>
        ensures { IfOk result (λ meaning. Tells meaning (meaning_by_kind (kind_view binding.now.kind) self.now.depth (binding_view binding.now))) }
    {
        match binding.kind {
            Kind::TypeName => return Ok(Meaning::NoVariable(Code::TypeAsValue)),
            Kind::Constant | Kind::Changing | Kind::Shared => {}
        }
        let Some(t) = &binding.declared else {
            return Ok(Meaning::NoVariable(Code::ReferenceBeforeDeclaration));
        };
        if !is_usable(binding, self.depth) {
            return Ok(Meaning::NoVariable(Code::ReferenceBeforeDeclaration));
        }
        let variable = Variable {
            number: binding.number,
            kind: binding.kind,
        };
        Ok(Meaning::Variable(variable, t.share()?))
    }

    /// What a name means in an expression.
    ///
    /// # Errors
    ///
    /// `NoMemory` where memory is refused.
    pub fn meaning(&self, name: &Text) -> Result<Meaning, NoMemory>
        ensures { IfOk result (λ meaning. Tells meaning (meaning_of (scope_view self.now) name.now)) }
    {
        match self.find(name) {
            Some(binding) => self.meaning_of(binding),
            None => Ok(Meaning::NoVariable(Code::CannotResolveName)),
        }
    }

    // The number of a variable that is bound so, where it has facts.
    fn variable_of(&self, binding: &Binding) -> Option<u32>
        ensures { result ≡ place_of_meaning (meaning_by_kind (kind_view binding.now.kind) self.now.depth (binding_view binding.now)) }
    {
        if !binding.kind.has_facts() {
            return None;
        }
        match &binding.declared {
            Some(_) if is_usable(binding, self.depth) => Some(binding.number),
            _ => None,
        }
    }

    /// The number of the variable that a name means, where it has facts.
    pub fn variable(&self, name: &Text) -> Option<u32>
        ensures { result ≡ variable_number (scope_view self.now) name.now }
    {
        let binding = self.find(name)?;
        self.variable_of(binding)
    }

    /// Whether a name with this number has no facts, as it is assigned in an inner function.
    #[tactic(auto, using(crate::proofs::Walks::looked_first, crate::proofs::Walks::shared_yes, crate::proofs::Walks::looked_on, crate::proofs::Walks::looked_falls, crate::proofs::Walks::shared_no))]
    pub fn is_shared(&self, number: u32) -> bool
        ensures { result ≡ is_shared (scope_view self.now) number }
    {
        let mut next = self.place_of_number(number);
        while let Some(at) = next {
            let row = &self.rows[at];
            if row.binding.kind.is_shared() {
                return true;
            }
            next = row.outer_number;
        }
        false
    }

    // The declaration of the name at a place was read.
    fn declare_at(&mut self, at: usize, ty: FlowType) -> Result<(), NoMemory>
        ensures rows { OnOk result (self.new.rows.items ≡ at_place at (declared_row true (Some ty)) self.old.rows.items) }
        ensures depth { self.new.depth ≡ self.old.depth }
        ensures wanted { self.new.result ≡ self.old.result }
        ensures heights { KeepsHeights self.old self.new }
    {
        self.changes.reserve(1)?;
        let Some(earlier) = exchange(&mut self.rows, at, true, Some(ty)) else {
            return Ok(());
        };
        self.changes.push_reserved(earlier);
        Ok(())
    }

    /// The declaration of the name with a number was read, and this is its type.
    ///
    /// # Errors
    ///
    /// `NoMemory` where memory is refused. Some of the names with the number may have the type then, and
    /// nothing else has changed; `leave` takes that back too.
    pub fn declare(&mut self, number: u32, ty: &FlowType) -> Result<(), NoMemory>
        ensures scope { OnOk result (scope_view self.new ≡ declares_type number ty.now (scope_view self.old)) }
        ensures depth { self.new.depth ≡ self.old.depth }
        ensures wanted { self.new.result ≡ self.old.result }
        ensures heights { KeepsHeights self.old self.new }
    {
        let mut next = self.place_of_number(number);
        while let Some(at) = next {
            next = self.rows[at].outer_number;
            self.declare_at(at, ty.share()?)?;
        }
        Ok(())
    }
}
