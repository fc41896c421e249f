//! Facts that their join with themselves leaves as they are.
ghost use Rattle.std.specs.Prelude.{◌≡◌, true};
ghost use Rattle.flow_facts.specs.Known.{joined};

use crate::facts::Facts;

impl Facts {
    ghost use Rattle.refine_flow.specs.Standing.{known};

    /// Whether it is known that joining the facts with themselves leaves them as they are, as it mostly
    /// does. It looks at none of them.
    #[tactic(auto, using(crate::proofs::OwnJoins::own_join))]
    pub fn is_smooth(&self) -> bool
        ensures { result ≡ true → joined (known self.now) (known self.now) ≡ known self.now }
    {
        let (variables, properties) = (self.trail.variables(), self.trail.properties());
        variables.constants().rough().is_empty()
            && variables.changing().rough().is_empty()
            && properties.rough().is_empty()
    }
}
