//! Copies of all facts, which a trail can take over with no memory.
ghost use Rattle.std.specs.Prelude.{◌≡◌, IfOk};

use crate::trail::make_room;
use crate::{Change, Properties, Trail, Variables};
use flow_values::NoMemory;
use std::mem;

/// A copy of the facts on a trail.
#[derive(Drop)]
pub struct Spare {
    variables: Variables,
    properties: Properties,
}

impl Trail {
    ghost use Rattle.fact_trail.specs.Moments.{map_of, IsSame};
    ghost use Rattle.fact_trail.specs.Spares.{spare_map, CanTake, TakesOver};

    /// A copy of all facts, for which there is room.
    ///
    /// # Errors
    ///
    /// `NoMemory` where memory is refused, or a part of a type has 2^63 - 1 owners. The facts stay.
    pub fn spare(&mut self) -> Result<Spare, NoMemory>
        ensures facts { IfOk result (λ spare. spare_map spare ≡ map_of self.old) }
        ensures room { IfOk result (λ spare. CanTake spare self.new) }
        ensures same { IsSame self.old self.new }
    {
        let variables = self.variables.copy()?;
        let properties = self.properties.copy()?;
        let rows = self.rows();
        make_room(&mut self.changes, rows, 3)?;
        Ok(Spare {
            variables,
            properties,
        })
    }

    /// Takes a copy over, for which there is room. What there was before stays told, and no slot that
    /// the copy leaves without gets its first fact.
    pub fn take_over(&mut self, spare: Spare)
        requires { CanTake spare self.old }
        ensures { TakesOver spare self.old self.new }
    {
        let Spare {
            variables,
            properties,
        } = spare;
        let variables = mem::replace(&mut self.variables, variables);
        let properties = mem::replace(&mut self.properties, properties);
        let (constants, changing) = variables.into_parts();
        self.changes.push_reserved(Change::Properties(properties));
        self.changes.push_reserved(Change::Variables(changing));
        self.changes.push_reserved(Change::Variables(constants));
    }
}
