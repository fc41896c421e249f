//! Classes of slots that have no fact.
ghost use Rattle.std.specs.Prelude.{◌≡◌, ◌||◌, false};
ghost use Rattle.fact_trail.specs.declared.slot.Slot.{Slot};
ghost use Rattle.fact_trail.specs.Slots.{is_variable, is_property};
ghost use Rattle.fact_arms.specs.Differences.{is_among, class_gone};

use fact_trail::{Slot, is_constant};

/// Which classes of slots have no fact: constants, other variables, and properties.
#[derive(Debug, Clone, Copy, PartialEq, Eq)]
pub(crate) struct Gone {
    pub(crate) constants: bool,
    pub(crate) changing: bool,
    pub(crate) properties: bool,
}

// Whether one of two holds.
fn either(a: bool, b: bool) -> bool
    ensures { result ≡ (a || b) }
{
    a || b
}

impl Gone {
    // None of them.
    #[tactic(auto, using(crate::proofs::Classes::none_among))]
    pub(crate) fn none() -> Gone
        ensures { (s : Slot) → is_among result s ≡ false }
    {
        Gone {
            constants: false,
            changing: false,
            properties: false,
        }
    }

    // Whether a slot is of one of them.
    pub(crate) fn has(self, slot: Slot) -> bool
        ensures { result ≡ is_among self slot }
    {
        match slot {
            Slot::Variable(binding) => self.has_variables(is_constant(binding)),
            Slot::Property(_) => self.properties,
        }
    }

    // Whether the variables of a class are among them.
    pub(crate) fn has_variables(self, constant: bool) -> bool
        ensures { result ≡ class_gone self constant }
    {
        if constant {
            return self.constants;
        }
        self.changing
    }

    // Whether variables of some class are among them.
    pub(crate) fn has_some_variables(self) -> bool
        ensures { result ≡ (self.constants || self.changing) }
    {
        either(self.constants, self.changing)
    }

    // With the variables of a class.
    #[tactic(auto, using(crate::proofs::Classes::with_constants, crate::proofs::Classes::with_changing))]
    pub(crate) fn with_variables(self, constant: bool) -> Gone
        ensures { (s : Slot) → is_among result s ≡ (is_variable constant s || is_among self s) }
    {
        let Gone {
            constants,
            changing,
            properties,
        } = self;
        if constant {
            return Gone {
                constants: true,
                changing,
                properties,
            };
        }
        Gone {
            constants,
            changing: true,
            properties,
        }
    }

    // With the properties.
    #[tactic(auto, using(crate::proofs::Classes::with_properties_too))]
    pub(crate) fn with_properties(self) -> Gone
        ensures { (s : Slot) → is_among result s ≡ (is_property s || is_among self s) }
    {
        let Gone {
            constants,
            changing,
            properties: _,
        } = self;
        Gone {
            constants,
            changing,
            properties: true,
        }
    }

    // Those of two.
    #[tactic(auto, using(crate::proofs::Classes::among_either))]
    pub(crate) fn or(self, other: Gone) -> Gone
        ensures { (s : Slot) → is_among result s ≡ (is_among self s || is_among other s) }
    {
        Gone {
            constants: either(self.constants, other.constants),
            changing: either(self.changing, other.changing),
            properties: either(self.properties, other.properties),
        }
    }
}
