//! Changes that are planned first, and then made with no memory.
ghost use Rattle.std.specs.Prelude.{◌≡◌, ◌+◌, ℕ, length, true, false, Some, OnOk, OnErr};
ghost use Rattle.std.specs.Option.{is_some};
ghost use Rattle.fact_trail.specs.Slots.{at_slot};

use crate::trail::make_room;
use crate::{Change, Fact, Slot, Trail};
use flow_values::NoMemory;

/// What a slot is to have.
#[derive(Drop)]
pub struct Planned {
    pub slot: Slot,
    pub fact: Option<Fact>,
}

impl Trail {
    ghost use Rattle.fact_trail.specs.Moments.{map_of, Extends, IsSame};
    ghost use Rattle.fact_trail.specs.Room.{HasRoom, KeepsRoom};
    ghost use Rattle.fact_trail.specs.Plans.{planned, Fits, Replaces};

    // Makes room for this many changes.
    fn reserve(&mut self, count: usize) -> Result<(), NoMemory>
        ensures room { OnOk result (HasRoom count self.new) }
        ensures same { IsSame self.old self.new }
    {
        let rows = self.rows();
        make_room(&mut self.changes, rows, count)
    }

    // Sets the fact at a slot that has one, for which there is room.
    fn replace(&mut self, slot: Slot, fact: Fact)
        requires room { HasRoom 1 self.old }
        requires smooth { fact.rough ≡ false }
        requires there { is_some (map_of self.old slot) ≡ true }
        ensures facts { map_of self.new ≡ at_slot slot (Some fact) (map_of self.old) }
        ensures extends { Extends self.old self.new }
        ensures room { (count : ℕ) → HasRoom (count + 1) self.old → HasRoom count self.new }
    {
        match self.set(slot, fact) {
            Ok(before) => self.changes.push_reserved(Change::At(slot, before)),
            Err(_) => unreachable!(),
        }
    }

    // Gives a slot what is planned.
    fn carry_out_one(&mut self, planned: Planned)
        requires room { HasRoom 1 self.old }
        requires fits { Replaces planned.fact (map_of self.old planned.slot) }
        ensures facts { map_of self.new ≡ at_slot planned.slot planned.fact (map_of self.old) }
        ensures extends { Extends self.old self.new }
        ensures room { (count : ℕ) → HasRoom (count + 1) self.old → HasRoom count self.new }
    {
        let Planned { slot, fact } = planned;
        match fact {
            Some(fact) => self.replace(slot, fact),
            None => self.remove(slot),
        }
    }

    // Gives slots what is planned, the last one first.
    fn carry_out(&mut self, plan: Vec<Planned>)
        requires room { HasRoom (length plan.items) self.old }
        requires fits { Fits plan.items (map_of self.old) }
        ensures facts { map_of self.new ≡ planned plan.items (map_of self.old) }
        ensures extends { Extends self.old self.new }
    {
        let mut plan = plan;
        while let Some(planned) = plan.pop() {
            self.carry_out_one(planned);
        }
    }

    /// Gives slots what is planned, the last one first: facts are replaced or dropped. All of them are,
    /// or none.
    ///
    /// # Errors
    ///
    /// `NoMemory` where memory is refused. The facts then stay.
    pub fn make_planned(&mut self, plan: Vec<Planned>) -> Result<(), NoMemory>
        requires { Fits plan.items (map_of self.old) }
        ensures facts { OnOk result (map_of self.new ≡ planned plan.items (map_of self.old)) }
        ensures err { OnErr result (map_of self.new ≡ map_of self.old) }
        ensures extends { Extends self.old self.new }
    {
        self.reserve(plan.len())?;
        self.carry_out(plan);
        Ok(())
    }
}
