//! The law that the committed entities are one full check: where all payloads of a state fit its root, one full check of the root's
//! program gives all of them. The definitions stand in `payloads`; the code here is the law, as the contract of a call that does
//! nothing.
#![tactic(auto)]

ghost use Rattle.state_law.specs.Law.{EachStateHasACheck};

pub use payloads;

/// Where all payloads of a state fit its root, one full check gives all of them.
pub fn each_state_has_a_check()
    ensures { EachStateHasACheck }
{
    payloads::source_front::one_parse();
    payloads::program_check::one_full();
}
