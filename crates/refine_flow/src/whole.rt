//! Copies of facts, and their joins place by place.
ghost use Rattle.std.specs.Prelude.{◌≡◌, ◌∷◌, ◌++◌, [], ℕ, List, true, false, Some, OnOk, OnErr, IfOk};
ghost use Rattle.std.specs.Option.{is_some};
ghost use Rattle.fact_trail.specs.declared.slot.Slot.TheVariants.{Variable, Property};
ghost use Rattle.fact_trail.specs.declared.slot.Slot.{Slot};
ghost use Rattle.fact_trail.specs.declared.slot.Key.{Key};
ghost use Rattle.fact_trail.specs.Rows.{class_facts_of};
ghost use Rattle.fact_trail.specs.Moments.{map_of};
ghost use Rattle.type_terms.specs.Join.{join_of};
ghost use Rattle.flow_facts.specs.Known.{no_facts, joined, both, variable_place, property_place};
ghost use Rattle.refine_flow.specs.Becoming.{left_of, IsJoint};

use crate::facts::Facts;
use fact_trail::{ClassFacts, Fact, Key, Planned, Slot};
use flow_facts::{Cell, Place};
use flow_values::{List, NoMemory};
use std::alloc::Global;
use type_terms::join;
use type_values::FlowType;

/// The type that is known of a place, and whether joining it with itself may change it.
#[derive(Drop)]
pub(crate) struct Row {
    pub place: Place,
    pub ty: FlowType,
    pub rough: bool,
    ghost settled: { rough ≡ false → join_of (ty ∷ ty ∷ []) ≡ ty },
}

// The join of two types.
fn join_of_types(alloc: Global, first: &FlowType, second: FlowType) -> Result<FlowType, NoMemory>
    ensures { IfOk result (λ t. t ≡ join_of (first.now ∷ second ∷ [])) }
{
    let mut all = List::new(alloc);
    all.push(first.share()?)?;
    all.push(second)?;
    join(alloc, all.as_slice())
}

// What a row's fact becomes where it is joined with one of another type. One that the join does not
// change stays.
#[tactic(auto, using(crate::proofs::Joints::row_alike, crate::proofs::Joints::joined_same, crate::proofs::Joints::joined_so, crate::proofs::Joints::joint_settled))]
fn joint_with(alloc: Global, row: &Row, second: FlowType) -> Result<Cell, NoMemory>
    ensures left { IfOk result (λ cell. left_of row.now.ty cell ≡ both (Some row.now.ty) (Some second)) }
    ensures settled { IfOk result (λ cell. IsJoint cell) }
{
    let first = &row.ty;
    if !row.rough && first.equals(&second) {
        return Ok(Cell::Stays);
    }
    let ty = join_of_types(alloc, first, second)?;
    if ty.equals(first) {
        return Ok(Cell::Stays);
    }
    Ok(Cell::Becomes(ty))
}

// The same where there may be no other one.
fn joint(alloc: Global, row: &Row, second: Option<FlowType>) -> Result<Cell, NoMemory>
    ensures left { IfOk result (λ cell. left_of row.now.ty cell ≡ both (Some row.now.ty) second) }
    ensures settled { IfOk result (λ cell. IsJoint cell) }
{
    match second {
        Some(second) => joint_with(alloc, row, second),
        None => Ok(Cell::Gone),
    }
}

impl Facts {
    ghost use Rattle.refine_flow.specs.Whole.{told, is_listed, AreTrue, AddsTrue};
    ghost use Rattle.refine_flow.specs.Planning.{JoinsRows};
    ghost use Rattle.refine_flow.specs.Numbers.{name_of};
    ghost use Rattle.refine_flow.specs.Standing.{shown, known, open_marks, slot_of, Changes, KeepsMarks};

    /// The same facts, with no marks. All of them are copied.
    ///
    /// # Errors
    ///
    /// `NoMemory` where memory is refused.
    pub fn copy(&self) -> Result<Facts, NoMemory>
        ensures { IfOk result (λ copy. (known copy ≡ known self.now) × (open_marks copy ≡ 0)) }
    {
        let rows = self.rows()?;
        let mut copy = Facts::new(self.alloc);
        copy.take_over(rows)?;
        copy.dead = self.dead;
        copy.settle();
        Ok(copy)
    }

    // All facts, in any order.
    fn rows(&self) -> Result<Vec<Row>, NoMemory>
        ensures told { IfOk result (λ rows. told rows.items no_facts ≡ shown self.now) }
        ensures each { IfOk result (λ rows. AreTrue (shown self.now) rows.items) }
    {
        let mut rows = Vec::new(self.alloc);
        self.add_variables(&mut rows)?;
        self.add_properties(&mut rows)?;
        Ok(rows)
    }

    // Adds the facts on variables.
    fn add_variables(&self, rows: &mut Vec<Row>) -> Result<(), NoMemory>
        ensures adds { OnOk result (AddsTrue (shown self.now) rows.old.items rows.new.items) }
        ensures listed { OnOk result ((b : ℕ) → is_some (map_of self.now.trail (Variable b)) ≡ true → is_listed rows.new.items (variable_place b) ≡ true) }
    {
        let variables = self.trail.variables();
        self.add_class(variables.constants(), rows)?;
        self.add_class(variables.changing(), rows)?;
        Ok(())
    }

    // Adds the facts on those variables that have one among these.
    fn add_class(&self, facts: &ClassFacts, rows: &mut Vec<Row>) -> Result<(), NoMemory>
        ensures adds { OnOk result (AddsTrue (shown self.now) rows.old.items rows.new.items) }
        ensures listed { OnOk result ((b : ℕ) → is_some (class_facts_of facts.now b) ≡ true → is_some (map_of self.now.trail (Variable b)) ≡ true → is_listed rows.new.items (variable_place b) ≡ true) }
    {
        for binding in facts.rows().keys() {
            self.add_variable(*binding, rows)?;
        }
        Ok(())
    }

    // Adds the fact on a variable.
    fn add_variable(&self, binding: u32, rows: &mut Vec<Row>) -> Result<(), NoMemory>
        ensures adds { OnOk result (AddsTrue (shown self.now) rows.old.items rows.new.items) }
        ensures listed { OnOk result (is_some (map_of self.now.trail (Variable binding)) ≡ true → is_listed rows.new.items (variable_place binding) ≡ true) }
    {
        let place = Place {
            prop: None,
            binding,
        };
        self.add_row(Slot::Variable(binding), place, rows)
    }

    // Adds the facts on properties.
    fn add_properties(&self, rows: &mut Vec<Row>) -> Result<(), NoMemory>
        ensures adds { OnOk result (AddsTrue (shown self.now) rows.old.items rows.new.items) }
        ensures listed { OnOk result ((k : Key) (x : List ℕ) → name_of self.now.names k.name ≡ Some x → is_some (map_of self.now.trail (Property k)) ≡ true → is_listed rows.new.items (property_place k.binding x) ≡ true) }
    {
        for key in self.trail.properties().rows().keys() {
            self.add_property(*key, rows)?;
        }
        Ok(())
    }

    // Adds the fact on a property.
    fn add_property(&self, key: Key, rows: &mut Vec<Row>) -> Result<(), NoMemory>
        ensures adds { OnOk result (AddsTrue (shown self.now) rows.old.items rows.new.items) }
        ensures listed { OnOk result ((x : List ℕ) → name_of self.now.names key.name ≡ Some x → is_some (map_of self.now.trail (Property key)) ≡ true → is_listed rows.new.items (property_place key.binding x) ≡ true) }
    {
        let Some(name) = self.names.name(key.name) else {
            return Ok(());
        };
        let place = Place {
            prop: Some(name.share()?),
            binding: key.binding,
        };
        self.add_row(Slot::Property(key), place, rows)
    }

    // Adds a slot's fact, if it has one, as that of its place.
    fn add_row(&self, slot: Slot, place: Place, rows: &mut Vec<Row>) -> Result<(), NoMemory>
        requires { slot_of self.now.names place ≡ Some slot }
        ensures adds { OnOk result (AddsTrue (shown self.now) rows.old.items rows.new.items) }
        ensures listed { OnOk result (is_some (map_of self.now.trail slot) ≡ true → is_listed rows.new.items place ≡ true) }
    {
        let Some(fact) = self.trail.get(slot) else {
            return Ok(());
        };
        let ty = fact.ty(self.alloc)?;
        let rough = fact.is_rough();
        rows.push(Row { place, ty, rough })?;
        Ok(())
    }

    // Sets the facts of rows.
    fn take_over(&mut self, rows: Vec<Row>) -> Result<(), NoMemory>
        ensures facts { OnOk result (shown self.new ≡ told rows.items (shown self.old)) }
        ensures dead { self.new.dead ≡ self.old.dead }
        ensures marks { KeepsMarks self.old self.new }
    {
        let mut rows = rows;
        while let Some(row) = rows.pop() {
            let Row {
                place,
                ty,
                rough: _,
            } = row;
            self.put(&place, ty)?;
        }
        Ok(())
    }

    // Plans what a place is to have that has a fact.
    fn plan_at(
        &self,
        place: &Place,
        fact: Option<Fact>,
        plan: &mut Vec<Planned>,
    ) -> Result<(), NoMemory>
        requires { is_some (shown self.now place.now) ≡ true }
        ensures { OnOk result ((slot : Slot) × (slot_of self.now.names place.now ≡ Some slot) × (plan.new.items ≡ plan.old.items ++ record { slot = slot; fact = fact } ∷ [])) }
    {
        let Some(slot) = self.slot(place) else {
            unreachable!()
        };
        plan.push(Planned { slot, fact })?;
        Ok(())
    }

    // Plans what a row's place is to have where its fact is joined with that of others.
    fn plan_row(&self, row: &Row, others: &Facts, plan: &mut Vec<Planned>) -> Result<(), NoMemory>
        requires { shown self.now row.now.place ≡ Some row.now.ty }
        ensures { OnOk result ((rows : List Row) → JoinsRows self.now.names (shown others.now) (shown self.now) rows plan.old.items → JoinsRows self.now.names (shown others.now) (shown self.now) (rows ++ row.now ∷ []) plan.new.items) }
    {
        let place = &row.place;
        let theirs = others.fact(place)?;
        let cell = joint(self.alloc, row, theirs)?;
        match cell {
            Cell::Stays => Ok(()),
            Cell::Gone => self.plan_at(place, None, plan),
            Cell::Becomes(ty) => {
                let fact = Fact::settled(self.alloc, ty);
                self.plan_at(place, Some(fact), plan)
            }
        }
    }

    // Plans what the places of rows are to have where their facts are joined with those of others.
    fn plan(&self, rows: &[Row], others: &Facts) -> Result<Vec<Planned>, NoMemory>
        requires { AreTrue (shown self.now) rows.now }
        ensures { IfOk result (λ plan. JoinsRows self.now.names (shown others.now) (shown self.now) rows.now plan.items) }
    {
        let mut plan = Vec::new(self.alloc);
        for i in 0..rows.len() {
            let row = &rows[i];
            self.plan_row(row, others, &mut plan)?;
        }
        Ok(plan)
    }

    // Drops all facts.
    fn clear(&mut self)
        ensures { Changes (λ m. no_facts) self.old self.new }
    {
        self.forget_properties();
        self.forget_class(true);
        self.forget_class(false);
    }

    /// Joins these facts with others, these first: what both have is joined, and what one of them
    /// lacks is dropped. Where one are dead, the other ones are left. It looks at all facts;
    /// `join_arm` looks at those alone that changed.
    ///
    /// # Errors
    ///
    /// `NoMemory` where memory is refused, or a part of a type has 2^63 - 1 owners. The facts then stay.
    pub fn join(&mut self, other: &Facts) -> Result<(), NoMemory>
        ensures facts { OnOk result (known self.new ≡ joined (known self.old) (known other.now)) }
        ensures err { OnErr result (known self.new ≡ known self.old) }
        ensures marks { KeepsMarks self.old self.new }
    {
        if other.dead {
            return Ok(());
        }
        self.join_live(other)?;
        self.settle();
        Ok(())
    }

    // Joins these facts with others that are live.
    fn join_live(&mut self, other: &Facts) -> Result<(), NoMemory>
        requires { other.now.dead ≡ false }
        ensures facts { OnOk result (known self.new ≡ joined (known self.old) (known other.now)) }
        ensures err { OnErr result (known self.new ≡ known self.old) }
        ensures marks { KeepsMarks self.old self.new }
    {
        if self.dead {
            return self.revive(other);
        }
        self.join_both(other)
    }

    // Takes others over that are live, where these are dead. They are live at last.
    fn revive(&mut self, other: &Facts) -> Result<(), NoMemory>
        requires dead { self.old.dead ≡ true }
        requires live { other.now.dead ≡ false }
        ensures facts { OnOk result (known self.new ≡ joined (known self.old) (known other.now)) }
        ensures err { OnErr result (known self.new ≡ known self.old) }
        ensures marks { KeepsMarks self.old self.new }
    {
        let rows = other.rows()?;
        self.clear();
        self.take_over(rows)?;
        self.dead = false;
        Ok(())
    }

    // Joins these facts with others, where all are live. What differs is planned, and then made at once.
    fn join_both(&mut self, other: &Facts) -> Result<(), NoMemory>
        requires own { self.old.dead ≡ false }
        requires live { other.now.dead ≡ false }
        ensures facts { OnOk result (known self.new ≡ joined (known self.old) (known other.now)) }
        ensures err { OnErr result (known self.new ≡ known self.old) }
        ensures marks { KeepsMarks self.old self.new }
    {
        let rows = self.rows()?;
        let plan = self.plan(rows.as_slice(), other)?;
        self.trail.make_planned(plan)
    }
}
