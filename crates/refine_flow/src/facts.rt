//! Facts on a trail.
ghost use Rattle.std.specs.Prelude.{◌≡◌, ◌==◌, ◌<◌, ◌++◌, ◌∷◌, [], filter, if◌then◌else◌, ◌&&◌, ◌||◌, not, Some, None, IsTrue, ◌↔◌, OnOk, OnErr, IfOk};
ghost use Rattle.std.specs.List.{list_any};
ghost use Rattle.std.specs.Option.{option_map};
ghost use Rattle.fact_trail.specs.declared.slot.Slot.TheVariants.{Variable};
ghost use Rattle.fact_trail.specs.declared.slot.Slot.{Slot};
ghost use Rattle.fact_trail.specs.Slots.{is_slot};
ghost use Rattle.fact_trail.specs.Types.{ty_of};
ghost use Rattle.fact_trail.specs.Moments.{map_of, IsNew, Drops};
ghost use Rattle.refine_flow.specs.Numbers.{GrowsNames, IsBeyond};
ghost use Rattle.alias_table.specs.Members.{seen};
ghost use Rattle.alias_members.specs.MembersIn.{members_in};
ghost use Rattle.subtype_rules.specs.Answer.{below};
ghost use Rattle.flow_facts.specs.Known.{no_facts, live, type_at, narrowed_at, without, without_properties, is_named, is_of, is_property, is_place, at_place, variable_place, property_place, overwrites, reached, fact_of_value, assigned, entered_loop, entered_function};

use crate::among::Among;
use crate::names::Names;
use alias_members::members_of;
use alias_table::AliasTable;
use fact_arms::Difference;
use fact_trail::{Fact, Key, Slot, Trail};
use flow_facts::{Killed, Place, Test};
use flow_values::{List, NoMemory, Text};
use narrowing::narrow;
use std::alloc::Global;
use subtype_rules::is_subtype;
use type_terms::join;
use type_values::FlowType;

/// A moment of facts to which they can go back, until it is spent.
#[derive(Debug, Drop)]
pub struct Mark {
    // How many marks were open before it.
    pub(crate) depth: usize,
    // How many changes there were.
    pub(crate) length: usize,
    pub(crate) dead: bool,
}

/// What facts made of those at a mark, kept apart from them.
#[derive(Drop)]
pub struct Arm {
    pub(crate) dead: bool,
    pub(crate) difference: Difference,
}

impl Arm {
    /// Whether the facts were dead where it was handed out.
    pub fn is_dead(&self) -> bool
        ensures { result ≡ self.now.dead }
    {
        self.dead
    }
}

/// What is known of the types at places, or dead.
#[derive(Drop)]
pub struct Facts {
    pub(crate) alloc: Global,
    pub(crate) dead: bool,
    // How many marks are open. Where none is, the trail is emptied after each change.
    pub(crate) marks: usize,
    pub(crate) names: Names,
    pub(crate) trail: Trail,
    // No fact stands, or stood, on a property of a name that has no number.
    ghost tidy: { (s : Slot) → IsBeyond names s → IsNew s trail },
}

// The members of the declared type that some member of the value's type is below.
fn reached(
    alloc: Global,
    table: &AliasTable,
    declared: &FlowType,
    value: &FlowType,
) -> Result<List<FlowType>, NoMemory>
    ensures { IfOk result (λ all. all ≡ reached (members_in table.now) (below table.now) declared.now value.now) }
{
    let wanted = members_of(alloc, table, declared)?;
    let given = members_of(alloc, table, value)?;
    reached_among(alloc, table, wanted.as_slice(), given.as_slice())
}

// Those types that some given one is below.
fn reached_among(
    alloc: Global,
    table: &AliasTable,
    wanted: &[&FlowType],
    given: &[&FlowType],
) -> Result<List<FlowType>, NoMemory>
    ensures { IfOk result (λ all. all ≡ filter (λ d. list_any (λ u. below table.now u d) (seen given.now)) (seen wanted.now)) }
{
    let mut all = List::new(alloc);
    for i in 0..wanted.len() {
        let member = wanted[i];
        let found = some_below(alloc, table, given, member)?;
        push_if(&mut all, found, member)?;
    }
    Ok(all)
}

// Adds a type, if it is wanted.
fn push_if(all: &mut List<FlowType>, wanted: bool, t: &FlowType) -> Result<(), NoMemory>
    ensures { OnOk result (all.new ≡ all.old ++ (if wanted then t.now ∷ [] else [])) }
{
    if !wanted {
        return Ok(());
    }
    all.push(t.share()?)?;
    Ok(())
}

// Whether one of these types is below another.
fn some_below(
    alloc: Global,
    table: &AliasTable,
    all: &[&FlowType],
    other: &FlowType,
) -> Result<bool, NoMemory>
    ensures { IfOk result (λ yes. yes ≡ list_any (λ t. below table.now t other.now) (seen all.now)) }
{
    for i in 0..all.len() {
        if is_subtype(alloc, table, all[i], other)? {
            return Ok(true);
        }
    }
    Ok(false)
}

// What an assigned value tells of its place.
fn fact_of_value(
    alloc: Global,
    table: &AliasTable,
    declared: &FlowType,
    value: &FlowType,
) -> Result<Option<FlowType>, NoMemory>
    ensures { IfOk result (λ told. told ≡ fact_of_value (members_in table.now) (below table.now) declared.now value.now) }
{
    if matches!(value, FlowType::Any) || !is_subtype(alloc, table, value, declared)? {
        return Ok(None);
    }
    let all = reached(alloc, table, declared, value)?;
    Ok(Some(join(alloc, all.as_slice())?))
}

impl Facts {
    ghost use Rattle.refine_flow.specs.Standing.{is_lost, with_told, overwrites_other, shown, known, open_marks, slot_of, Changes, KeepsMarks};

    /// No facts, and live. It takes no memory.
    pub fn new(alloc: Global) -> Facts
        ensures facts { known result ≡ Some no_facts }
        ensures marks { open_marks result ≡ 0 }
    {
        Facts {
            alloc,
            dead: false,
            marks: 0,
            names: Names::new(alloc),
            trail: Trail::new(alloc),
        }
    }

    /// Whether they are dead.
    pub fn is_dead(&self) -> bool
        ensures { IsTrue result ↔ (known self.now ≡ None) }
    {
        self.dead
    }

    /// Makes them dead. It takes no memory.
    #[tactic(auto, using(crate::proofs::Dropping::keeps_same))]
    pub fn die(&mut self)
        ensures facts { known self.new ≡ None }
        ensures marks { KeepsMarks self.old self.new }
    {
        self.dead = true;
    }

    // Where a place's fact stands. A property whose name has no number has none.
    pub(crate) fn slot(&self, place: &Place) -> Option<Slot>
        ensures { result ≡ slot_of self.now.names place.now }
    {
        let binding = place.binding;
        match &place.prop {
            None => Some(Slot::Variable(binding)),
            Some(name) => match self.names.number(name) {
                Some(name) => Some(Slot::Property(Key { name, binding })),
                None => None,
            },
        }
    }

    // Where a place's fact is to stand: its name is given a number.
    fn slot_for(&mut self, place: &Place) -> Result<Slot, NoMemory>
        ensures slot { IfOk result (λ slot. slot_of self.new.names place.now ≡ Some slot) }
        ensures names { GrowsNames self.old.names self.new.names }
        ensures trail { self.new.trail ≡ self.old.trail }
        ensures stays { Changes (λ m. m) self.old self.new }
    {
        let binding = place.binding;
        match &place.prop {
            None => Ok(Slot::Variable(binding)),
            Some(name) => {
                let name = self.names.add(name)?;
                Ok(Slot::Property(Key { name, binding }))
            }
        }
    }

    // Sets the type at a place.
    pub(crate) fn put(&mut self, place: &Place, ty: FlowType) -> Result<(), NoMemory>
        ensures facts { OnOk result (Changes (at_place place.now (Some ty)) self.old self.new) }
        ensures err { OnErr result (Changes (λ m. m) self.old self.new) }
    {
        let slot = self.slot_for(place)?;
        self.trail.put(slot, Fact::of(self.alloc, ty))
    }

    // The type of a slot's fact.
    fn type_in(&self, slot: Slot) -> Result<Option<FlowType>, NoMemory>
        ensures { IfOk result (λ ty. ty ≡ option_map ty_of (map_of self.now.trail slot)) }
    {
        match self.trail.get(slot) {
            Some(fact) => Ok(Some(fact.ty(self.alloc)?)),
            None => Ok(None),
        }
    }

    // The fact at a place, whether the facts are live or dead.
    pub(crate) fn fact(&self, place: &Place) -> Result<Option<FlowType>, NoMemory>
        ensures { IfOk result (λ fact. fact ≡ shown self.now place.now) }
    {
        match self.slot(place) {
            Some(slot) => self.type_in(slot),
            None => Ok(None),
        }
    }

    /// The type at a place: its fact, or the declared type.
    ///
    /// # Errors
    ///
    /// `NoMemory` where memory is refused, or a part of the type has 2^63 - 1 owners.
    pub fn type_at(&self, place: &Place, declared: &FlowType) -> Result<FlowType, NoMemory>
        ensures { IfOk result (λ t. t ≡ type_at (known self.now) place.now declared.now) }
    {
        if self.dead {
            return declared.share();
        }
        match self.fact(place)? {
            Some(ty) => Ok(ty),
            None => declared.share(),
        }
    }

    /// Narrows the type at a place by a test.
    ///
    /// # Errors
    ///
    /// `NoMemory` where memory is refused. The facts then stay.
    pub fn assume(
        &mut self,
        table: &AliasTable,
        place: &Place,
        declared: &FlowType,
        test: &Test,
    ) -> Result<(), NoMemory>
        ensures facts { OnOk result (known self.new ≡ live (narrowed_at (members_in table.now) test.now place.now declared.now) (known self.old)) }
        ensures err { OnErr result (known self.new ≡ known self.old) }
        ensures marks { KeepsMarks self.old self.new }
    {
        if self.dead {
            return Ok(());
        }
        let before = self.type_at(place, declared)?;
        let ty = narrow(self.alloc, table, &before, test)?;
        self.put(place, ty)?;
        self.settle();
        Ok(())
    }

    /// A value of a type is assigned to a place. The facts on a variable go, with those on its
    /// properties, or those on all properties of the name; then the place has those members of its
    /// declared type that the value may be.
    ///
    /// # Errors
    ///
    /// `NoMemory` where memory is refused. The facts then stay.
    pub fn assign(
        &mut self,
        table: &AliasTable,
        place: &Place,
        declared: &FlowType,
        value: &FlowType,
    ) -> Result<(), NoMemory>
        ensures facts { OnOk result (known self.new ≡ live (assigned (members_in table.now) (below table.now) place.now declared.now value.now) (known self.old)) }
        ensures err { OnErr result (known self.new ≡ known self.old) }
        ensures marks { KeepsMarks self.old self.new }
    {
        if self.dead {
            return Ok(());
        }
        let told = fact_of_value(self.alloc, table, declared, value)?;
        self.assign_told(place, told)?;
        self.settle();
        Ok(())
    }

    // Drops what an assignment to a place makes unknown, and sets the type there, if one is told.
    fn assign_told(&mut self, place: &Place, told: Option<FlowType>) -> Result<(), NoMemory>
        ensures facts { OnOk result (Changes (λ m. with_told place.now told (without (overwrites place.now) m)) self.old self.new) }
        ensures err { OnErr result (Changes (λ m. m) self.old self.new) }
    {
        match told {
            Some(ty) => self.put_over(place, ty),
            None => {
                self.overwrite(place);
                Ok(())
            }
        }
    }

    // The same where a type is told. It is set first, since what is dropped behind it takes no memory.
    fn put_over(&mut self, place: &Place, ty: FlowType) -> Result<(), NoMemory>
        ensures facts { OnOk result (Changes (λ m. at_place place.now (Some ty) (without (overwrites place.now) m)) self.old self.new) }
        ensures err { OnErr result (Changes (λ m. m) self.old self.new) }
    {
        self.put(place, ty)?;
        self.overwrite_others(place);
        Ok(())
    }

    // Drops what an assignment to a place makes unknown of other places.
    fn overwrite_others(&mut self, place: &Place)
        ensures { Changes (without (overwrites_other place.now)) self.old self.new }
    {
        match &place.prop {
            Some(name) => self.forget_other_named(name, place.binding),
            None => self.forget_properties_of(place.binding),
        }
    }

    // Drops the facts on the properties of a name, but for the one of a variable.
    fn forget_other_named(&mut self, name: &Text, binding: u32)
        ensures { Changes (without (λ q. is_named name.now q && not (is_place (property_place binding name.now) q))) self.old self.new }
    {
        if let Some(name) = self.names.number(name) {
            self.trail.drop_other_named(Key { name, binding });
        }
    }

    // Drops the facts on the properties of a variable.
    fn forget_properties_of(&mut self, binding: u32)
        ensures { Changes (without (λ q. is_of binding q && not (is_place (variable_place binding) q))) self.old self.new }
    {
        self.trail.drop_of(binding);
    }

    // Drops what an assignment to a place makes unknown.
    fn overwrite(&mut self, place: &Place)
        ensures { Changes (without (overwrites place.now)) self.old self.new }
    {
        match &place.prop {
            Some(name) => self.forget_name(name),
            None => self.forget_variable(place.binding),
        }
    }

    // Drops the facts on a variable and on its properties.
    fn forget_variable(&mut self, binding: u32)
        ensures { Changes (without (is_of binding)) self.old self.new }
    {
        self.trail.remove(Slot::Variable(binding));
        self.trail.drop_of(binding);
    }

    fn forget_variables(&mut self, bindings: &[u32])
        ensures { Changes (without (λ q. list_any (λ b. is_of b q) bindings.now)) self.old self.new }
    {
        for i in 0..bindings.len() {
            self.forget_variable(bindings[i]);
        }
    }

    // Drops the facts on all properties of a name.
    fn forget_name(&mut self, name: &Text)
        ensures { Changes (without (is_named name.now)) self.old self.new }
    {
        if let Some(name) = self.names.number(name) {
            self.trail.drop_named(name);
        }
    }

    fn forget_names(&mut self, names: &[Text])
        ensures { Changes (without (λ q. list_any (λ x. is_named x q) names.now)) self.old self.new }
    {
        for i in 0..names.len() {
            self.forget_name(&names[i]);
        }
    }

    // Drops the facts on all properties.
    pub(crate) fn forget_properties(&mut self)
        ensures { Changes without_properties self.old self.new }
    {
        self.trail.drop_properties();
    }

    fn forget_properties_if(&mut self, all: bool)
        ensures { Changes (without (λ q. all && is_property q)) self.old self.new }
    {
        if all {
            self.forget_properties();
        }
    }

    /// Drops all facts on properties of a name, as an assignment to such a property does. It takes no
    /// memory.
    pub fn forget_named(&mut self, name: &Text)
        ensures facts { known self.new ≡ live (without (is_named name.now)) (known self.old) }
        ensures marks { KeepsMarks self.old self.new }
    {
        self.forget_name(name);
        self.settle();
    }

    /// Drops all facts on properties, as a call and an assignment to an element do. It takes no
    /// memory, and one step.
    pub fn call(&mut self)
        ensures facts { known self.new ≡ live without_properties (known self.old) }
        ensures marks { KeepsMarks self.old self.new }
    {
        self.forget_properties_if(true);
        self.settle();
    }

    /// Drops what a loop may change before a turn. It takes no memory.
    pub fn enter_loop(&mut self, killed: &Killed)
        ensures facts { known self.new ≡ live (entered_loop killed.now) (known self.old) }
        ensures marks { KeepsMarks self.old self.new }
    {
        self.forget_variables(killed.bindings.as_slice());
        self.forget_names(killed.props.as_slice());
        self.forget_properties_if(killed.all_props);
        self.settle();
    }

    /// Keeps the facts on these variables alone, and none where they were dead. They are live
    /// afterwards. It takes no memory.
    pub fn enter_function(&mut self, constants: &[u32])
        ensures facts { known self.new ≡ entered_function (λ b. list_any (λ c. c == b) constants.now) (known self.old) }
        ensures marks { KeepsMarks self.old self.new }
    {
        self.forget_properties();
        self.keep_variables(constants);
        self.dead = false;
        self.settle();
    }

    // Drops the facts on other variables, and on all where the facts are dead.
    fn keep_variables(&mut self, constants: &[u32])
        ensures { Changes (without (λ q. not (is_property q) && (self.old.dead || not (list_any (λ c. c == q.binding) constants.now)))) self.old self.new }
    {
        if self.dead {
            self.drop_others(&[]);
        } else {
            self.drop_others(constants);
        }
    }

    // Drops the facts on other variables.
    fn drop_others(&mut self, constants: &[u32])
        ensures trail { Drops (is_lost (λ b. list_any (λ c. c == b) constants.now)) self.old.trail self.new.trail }
        ensures names { self.new.names ≡ self.old.names }
        ensures dead { self.new.dead ≡ self.old.dead }
        ensures marks { self.new.marks ≡ self.old.marks }
    {
        let kept = Among::new(constants);
        let mut next = self.trail.variable_from(0);
        while let Some(binding) = next {
            self.drop_other(&kept, binding);
            next = self.trail.variable_after(binding);
        }
    }

    // Drops the fact on a variable that is none of these.
    fn drop_other(&mut self, kept: &Among<'_>, binding: u32)
        ensures trail { Drops (λ s. not (list_any (λ c. c == binding) kept.now.numbers.now) && is_slot (Variable binding) s) self.old.trail self.new.trail }
        ensures names { self.new.names ≡ self.old.names }
        ensures dead { self.new.dead ≡ self.old.dead }
        ensures marks { self.new.marks ≡ self.old.marks }
        ensures small { binding < 4294967296 }
    {
        if kept.has(binding) {
            return;
        }
        self.trail.remove(Slot::Variable(binding));
    }
}
