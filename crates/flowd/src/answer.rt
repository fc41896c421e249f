ghost use Rattle.std.specs.Prelude.{◌≡◌, ℕ, map, slice_get, string_bytes, Some};
ghost use Rattle.flow_base.specs.declared.outside.LastFault.TheVariants.{Never};
ghost use Rattle.command_words.specs.Words.{Says};
ghost use Rattle.command_words.specs.declared.command.Command as the_command;
ghost use Rattle.command_words.specs.declared.command.Form.TheVariants as form;
ghost use Rattle.flowd.specs.Answer.{IsAnswer};

use crate::folder::DirFolder;
use crate::streams::{StdinSource, StdoutSink};
use command_words::{one_command, root_word};
use core::thread::Stack;
use flow_analyst::{FlowAnalyst, FlowAnalysts};
use flow_base::Open;
use flowd_top::{Status, flowd};
use std::alloc::Global;
use std::snapshot::Snapshot;
use std::sync::Wait;
use std::thread::{Promise, Threads};
use std::{mem, thread};

// The bytes of the stack of the thread that does all work: 1 GiB. Each level of a type takes some of
// it where a type is walked, and no source within the limit has a type so deep that it takes all.
// The system gives memory to what is used of it alone.
const STACK: usize = 1 << 30;

// The bytes of a piece of memory that lets the heap of that thread grow: 31 MiB. The C library gives a piece of 32 MiB or more from the
// system alone, and a thread's heap holds 64 MiB.
const ROOM: usize = 31 << 20;

// Lets the heap of this thread grow at once. By itself it grows page by page, with a call of the system for each, and the start and the
// end of another thread wait for such a call. The first piece of memory comes from the system. Once it is given back, pieces as large
// come from the heap, so two more make it grow, and what is given back stays in it. The system gives memory to what is used of it alone.
// Where there is none, nothing is lost.
fn grow_heap(alloc: Global) {
    let room: Result<Vec<u8>, _> = Vec::with_capacity(alloc, ROOM);
    mem::drop(room);
    let first: Result<Vec<u8>, _> = Vec::with_capacity(alloc, ROOM);
    let second: Result<Vec<u8>, _> = Vec::with_capacity(alloc, ROOM);
    mem::drop(first);
    mem::drop(second);
}

// The words of the folder that is opened.
#[tactic(auto, using(crate::proofs::Answering::that_place))]
fn root_of(words: &[String]) -> &str
    ensures { (c : the_command.Command) (place : ℕ) → Says (map string_bytes words.now) c → c.form ≡ form.Folder place → slice_get (map string_bytes words.now) place ≡ Some result.now }
{
    one_command();
    match root_word(words) {
        Some(place) => words[place].as_str(),
        None => ".",
    }
}

// The folder of the words.
fn folder_of<'a>(rt: &'a HostRuntime, words: &'a [String]) -> DirFolder<'a, HostRuntime>
    ensures root { (c : the_command.Command) (place : ℕ) → Says (map string_bytes words.now) c → c.form ≡ form.Folder place → slice_get (map string_bytes words.now) place ≡ Some result.root.now }
    ensures faults { result.faults ≡ 0 }
    ensures last_fault { result.last ≡ Never }
{
    DirFolder::new(rt, root_of(words))
}

// The run on these words.
fn answer<R: Threads + Wait + Sync>(threads: &R, rt: &HostRuntime, words: &[String]) -> Status
    ensures { IsAnswer (map string_bytes words.now) result }
{
    let mut folder = folder_of(rt, words);
    let mut script = StdinSource::new(rt.reader());
    let mut out = StdoutSink::new(rt);
    let alloc = rt.alloc();
    grow_heap(alloc);
    let maker = FlowAnalysts::new(alloc);
    let mut kept = None;
    let status = flowd::<_, _, _, _, _, FlowAnalyst, _>(
        threads,
        alloc,
        words,
        &maker,
        &mut folder,
        &mut script,
        &mut out,
        &Open,
        &mut kept,
    );
    // The process ends here, and the system takes back what is kept at once.
    mem::forget(kept);
    status
}

// The status is what a run on these words answers.
#[derive(Drop)]
struct Answered(Snapshot<Vec<String>>);

impl Promise<Status> for Answered {
    ghost use Rattle.std.specs.Prelude.{map, string_bytes};

    ghost kept_by = { λ p status. IsAnswer (map string_bytes p.0.value.items) status };
}

/// The run on these words, on a thread with a large stack. Where no such thread can be started it
/// says so on standard error, and nothing is done.
#[tactic(auto, using(crate::proofs::Answering::nothing_done))]
pub fn answer_apart<R: Threads + Wait + Sync>(
    threads: &R,
    rt: &HostRuntime,
    words: Vec<String>,
) -> Status
    ensures { IsAnswer (map string_bytes words.items) result }
{
    let own = *rt;
    thread::scope(
        thread::scope_env(),
        threads,
        move |scope| -> Status
            ensures { IsAnswer (map string_bytes words.items) result }
        {
            let promise = Answered(Snapshot::of(&words));
            let started = Stack::new().stack_size(STACK).spawn_scoped_with(
                scope,
                promise,
                move || -> Status
                    ensures { IsAnswer (map string_bytes words.items) result }
                { answer(threads, &own, words.as_slice()) },
            );
            match started {
                Ok(child) => child.join(threads),
                Err(_) => {
                    let _ = own.eprintln("flowd: no thread with a stack of 1 GiB could be started");
                    Status::NoMemory
                }
            }
        },
    )
}
