//! What was answered, printed.
ghost use Rattle.std.specs.Prelude.{◌≡◌, ◌↔◌, ◌++◌, IsTrue, IfOk, Err, OnOk};
ghost use Rattle.std.specs.List.{AllZip};
ghost use Rattle.flow_base.specs.Program.{Bytes};
ghost use Rattle.script_run.specs.Session.{IsToldOfSome, PrintsTold, PrintAllTold};

use answer_print::print_answer;
use asks::{Answer, Ask, AskFault};
use beside::Told;
use beside::answers_law::can_be_printed;
use flow_base::{NoMemory, Text};
use std::alloc::Global;

// Memory was refused.
fn wants_memory(answer: &Result<Answer, AskFault>) -> bool
    ensures { IsTrue result ↔ (answer.now ≡ Err AskFault.NoMemory) }
{
    match answer {
        Err(AskFault::NoMemory) => true,
        Ok(_) | Err(AskFault::UnknownPath | AskFault::NoExpression) => false,
    }
}

/// The lines of what was answered to an ask.
///
/// # Errors
///
/// `NoMemory` where memory is refused, or was refused to the answer.
pub(crate) fn told_text(alloc: Global, ask: &Ask, told: &Told) -> Result<Text, NoMemory>
    requires { IsToldOfSome ask.now told.now }
    ensures { IfOk result (PrintsTold ask.now told.now) }
{
    can_be_printed();
    if wants_memory(&told.answer) {
        return Err(NoMemory);
    }
    print_answer(alloc, told.version, ask, &told.answer)
}

/// Puts the lines of what was answered to some asks behind what was printed.
///
/// # Errors
///
/// As `told_text` has them.
pub(crate) fn print_told(
    alloc: Global,
    asks: &[Ask],
    told: &[Told],
    printed: &mut Vec<u8>,
) -> Result<(), NoMemory>
    requires { AllZip IsToldOfSome asks.now told.now }
    ensures { OnOk result ((answered : Bytes) × PrintAllTold asks.now told.now answered × (printed.new.items ≡ printed.old.items ++ answered)) }
{
    for i in 0..asks.len() {
        let text = told_text(alloc, &asks[i], &told[i])?;
        printed.extend_from_slice(text.as_bytes())?;
    }
    Ok(())
}
