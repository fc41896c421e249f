//! What is answered, read off the full check of a program, and the law that whatever is asked has one answer and one only. The
//! definitions stand in `specs/`; the code here is the law, as the contracts of calls that do nothing.
#![tactic(auto)]

ghost use Rattle.answers_law.specs.Law.{OneAnswer, EachHasAnswer, CanBePrinted};

/// What is asked of a program has one answer at most.
#[tactic(auto, using(crate::proofs::Once::one_answer))]
pub fn one_answer()
    ensures { OneAnswer }
{
    full_law::program_check::one_full();
    full_law::source_front::one_parse();
    errors_by_reach::errors_by_reach();
    shown_types::one_type();
}

/// It has one, whatever the program is.
#[tactic(auto, using(crate::proofs::Each::each_answer))]
pub fn each_has_answer()
    ensures { EachHasAnswer }
{
    full_law::each_full();
    errors_law::each_has_errors();
    shown_types::each_has_type();
}

/// The answer is no want of memory, and of a kind that can be printed.
#[tactic(auto, using(crate::proofs::Printable::can_be_printed))]
pub fn can_be_printed()
    ensures { CanBePrinted }
{}
