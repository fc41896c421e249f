//! What reading a module answers, by the existence of trees (`specs/Answer.antt`), and the law that this is one answer; and the
//! law of spelling for items.
#![tactic(auto)]

ghost use Rattle.module_law.specs.Answer.{EachHasAnswer, OneAnswer};
ghost use Rattle.module_law.specs.Items.{SameFrontSameItem};

/// Each list of tokens has an answer.
#[tactic(auto, using(crate::proofs::Answer::has_answers))]
pub fn has_answer()
    ensures { EachHasAnswer }
{}

/// A list of tokens has one answer only.
#[tactic(auto, using(crate::proofs::Answer::one_answers))]
pub fn one_answer()
    ensures { OneAnswer }
{
    code_law::one_module();
}

/// Two items that begin at one place, and stand in front of one list of tokens, are equal, whatever follows.
pub fn one_item()
    ensures { SameFrontSameItem }
{}
