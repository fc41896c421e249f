//! Loads a folder of modules, and answers a script of edits, rechecks and questions.
#![tactic(auto)]

mod answer;
mod dir_fault;
mod folder;
mod listing;
mod places;
mod reading;
mod streams;

ghost use Rattle.flowd.specs.Answer.{HasAnswered, EndsWith};

use answer::answer_apart;
use flow_base::NoMemory;
use flowd_top::Status;
use std::env;
use std::io::ErrorKind;
use std::process::ExitCode;
use std::sync::Wait;
use std::thread::Threads;

// The words of the command line, without the program's own name. Where one is not UTF-8 there are
// none, which are no command's words either.
fn words(rt: &HostRuntime) -> Result<Vec<String>, NoMemory> {
    let mut words = Vec::new(rt.alloc());
    match env::args(rt) {
        Ok(all) => {
            for word in all.skip(1) {
                words.push(word)?;
            }
        }
        Err(error) if error.kind() == ErrorKind::OutOfMemory => return Err(NoMemory),
        Err(_) => {}
    }
    Ok(words)
}

// The status of the run on the words of the command line.
#[tactic(auto, using(crate::proofs::Answering::nothing_done))]
fn run<R: Threads + Wait + Sync>(threads: &R, rt: &HostRuntime) -> Status
    ensures { HasAnswered result }
{
    match words(rt) {
        Ok(words) => answer_apart(threads, rt, words),
        Err(NoMemory) => Status::NoMemory,
    }
}

// What the process ends with.
fn exit_code<R: Threads + Wait + Sync>(threads: &R, rt: &HostRuntime) -> ExitCode
    ensures { EndsWith result }
{
    ExitCode::from(run(threads, rt).number())
}

fn main(rt: HostRuntime) -> ExitCode {
    exit_code(&rt, &rt)
}
