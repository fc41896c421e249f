ghost use Rattle.std.specs.Prelude.{◌≡◌, ◌≤◌, ◌<◌, ◌⊎◌, ℕ, List, map, length, string_bytes, None, IfOk, IfSome};
ghost use Rattle.std.specs.Int.{IsInRange};
ghost use Rattle.std.specs.List.{AllByRecursion};
ghost use Rattle.flow_base.specs.Path.{IsNormalPath};
ghost use Rattle.flow_base.specs.Program.{Bytes, IsRising};
ghost use Rattle.flow_base.specs.Causes.{raised, Counts};
ghost use Rattle.flow_base.specs.Seen.{outside};
ghost use Rattle.flow_base.specs.declared.outside.LastFault.TheVariants.{Listing};
ghost use Rattle.generated_run.specs.Script.{IsIdle};
ghost use Rattle.command_words.specs.Words.{AreOfCommand, Says};
ghost use Rattle.command_words.specs.declared.command.Command as the_command;
ghost use Rattle.script_print.specs.Printed.{files_line};
ghost use Rattle.generated_run.specs.WalkEnd.TheVariants.{Finished};
ghost use Rattle.flowd_top.specs.Run.{NamesFolder, MakesUp, Leaves, RunLeaves, GeneratedLeaves, WritesLast, Keeps, left_after, end_of, status_after};

use crate::Status;
use affected_sizes::each_edit_has_sizes;
use analyst::Analyst;
use answers_law::each_has_answer;
use command_words::{Command, Form, one_command, read_words, usage};
use flow_base::{Folder, FolderFault, List, NoMemory, Path, Sink, SinkFault, Source, Turnstile};
use generated_run::{
    Ended, RunFault, Server, WalkEnd, one_generated_run, open_server, run, run_generated, write_all,
};
use place_analyst::{AnalystMaker, PlaceAnalyst};
use script_print::files_line;
use std::alloc::Global;
use std::sync::Wait;
use std::thread::Threads;

/// All that the program does. The words are those of the command without the program's own name. Where they
/// name a folder, it loads the modules of the folder, and then takes the lines of the script, edits, rechecks and
/// questions, one after the other; what a line prints is written before the next one is read. Where they ask for modules
/// that are made up, it makes these, and rechecks them after each of ten edits. As many analysts as the words say are
/// made, and all recheck; questions are answered on as many lanes as they say, beside a recheck where its line has them. At
/// each poll of a recheck, and at each question, the turnstile is passed.
///
/// The status says how the run ended. Only want of memory may come without a cause. Where the script came to its end, the
/// server on which all of it was done is kept.
#[tactic(auto, using(crate::proofs::Endings::nothing_left))]
pub fn flowd<
    R: Threads + Wait + Sync,
    F: Folder,
    S: Source,
    K: Sink,
    T: Turnstile + Sync,
    A: Analyst + PlaceAnalyst + Send + Drop,
    M: AnalystMaker<A>,
>(
    rt: &R,
    alloc: Global,
    words: &[String],
    maker: &M,
    folder: &mut F,
    script: &mut S,
    out: &mut K,
    turns: &T,
    kept: &mut Option<Server>,
) -> Status
    requires { kept.old ≡ None }

    // What was printed is a whole transcript with this status; after a fault of the script all of one up to the last
    // whole line that the script gave, and after one of the sink, and at want of memory, a front of one, with no more read
    // faults than the folder counted. After a fault of the folder nothing was printed. The server is kept where the script
    // came to its end, and else none is: no transaction is open on it, its program and version are those at which this
    // transcript ends, and so is what each of its lanes has answered.
    ensures printed { Leaves result (map string_bytes words.now)
        (outside (F.seen folder.old) (S.seen script.old) (K.seen out.old)) (outside (F.seen folder.new) (S.seen script.new) (K.seen out.new)) kept.new }
    ensures lanes { (c : the_command.Command) → Says (map string_bytes words.now) c → IfSome kept.new (λ server. length server.lanes ≡ c.lanes) }

    // Where the words are not of the command, or name no folder, neither the folder nor the script is touched.
    ensures no_command { (AreOfCommand (map string_bytes words.now) → ⊥) →
        (result ≡ Status.Usage) ⊎ (result ≡ Status.SinkFault) ⊎ (result ≡ Status.NoMemory) }
    ensures made_up { (c : the_command.Command) (n seed : ℕ) → MakesUp (map string_bytes words.now) c n seed →
        (result ≡ Status.Clean) ⊎ (result ≡ Status.Errors) ⊎ (result ≡ Status.SinkFault) ⊎ (result ≡ Status.NoMemory) }
    ensures no_folder { ((c : the_command.Command) → NamesFolder (map string_bytes words.now) c → ⊥) → folder.new ≡ folder.old }
    ensures no_script { ((c : the_command.Command) → NamesFolder (map string_bytes words.now) c → ⊥) → script.new ≡ script.old }

    // Each fault has its cause, and none is passed over: the script and the sink counted one where the status is theirs,
    // and else none. The folder counted one, its listing, where the status is its own; `printed` says how many read faults
    // it counted where a whole transcript was printed, and after a fault of the script.
    ensures script_counts { Counts (result ≡ Status.ScriptFault) (S.seen script.old).faults (S.seen script.new).faults }
    ensures sink_counts { Counts (result ≡ Status.SinkFault) (K.seen out.old).faults (K.seen out.new).faults }
    ensures folder_fault { result ≡ Status.FolderFault → (F.seen folder.new).faults ≡ raised (F.seen folder.old).faults }
    ensures listing { result ≡ Status.FolderFault → (F.seen folder.new).last_fault ≡ Listing }

    // What the folder tells stays, and its count does not fall.
    ensures told { (F.seen folder.new).told ≡ (F.seen folder.old).told }
    ensures folder_later { (F.seen folder.old).faults ≤ (F.seen folder.new).faults }
{
    one_command();
    each_edit_has_sizes();
    let Some(command) = read_words(words) else {
        return write_last(out, usage(), Status::Usage);
    };
    match command.form {
        Form::Folder { .. } => run_folder(
            rt, alloc, command, maker, folder, script, out, turns, kept,
        ),
        Form::Generated { modules, seed } => {
            run_made_up(rt, alloc, command, modules, seed, maker, out, turns, kept)
        }
    }
}

// The run over a folder, for words that tell this command.
#[tactic(auto, using(crate::proofs::Endings::nothing_left_by))]
fn run_folder<
    R: Threads + Wait + Sync,
    F: Folder,
    S: Source,
    K: Sink,
    T: Turnstile + Sync,
    A: Analyst + PlaceAnalyst + Send + Drop,
    M: AnalystMaker<A>,
>(
    rt: &R,
    alloc: Global,
    command: Command,
    maker: &M,
    folder: &mut F,
    script: &mut S,
    out: &mut K,
    turns: &T,
    kept: &mut Option<Server>,
) -> Status
    requires modules { IsInRange 1 4096 command.modules }
    requires workers { IsInRange 1 64 command.workers }
    requires some_lanes { IsInRange 1 16 command.lanes }
    requires kept { kept.old ≡ None }
    ensures printed { (words : List Bytes) → NamesFolder words command → Leaves result words
        (outside (F.seen folder.old) (S.seen script.old) (K.seen out.old)) (outside (F.seen folder.new) (S.seen script.new) (K.seen out.new)) kept.new }
    ensures lanes { IfSome kept.new (λ server. length server.lanes ≡ command.lanes) }
    ensures script_counts { Counts (result ≡ Status.ScriptFault) (S.seen script.old).faults (S.seen script.new).faults }
    ensures sink_counts { Counts (result ≡ Status.SinkFault) (K.seen out.old).faults (K.seen out.new).faults }
    ensures folder_fault { result ≡ Status.FolderFault → (F.seen folder.new).faults ≡ raised (F.seen folder.old).faults }
    ensures listing { result ≡ Status.FolderFault → (F.seen folder.new).last_fault ≡ Listing }
    ensures told { (F.seen folder.new).told ≡ (F.seen folder.old).told }
    ensures folder_later { (F.seen folder.old).faults ≤ (F.seen folder.new).faults }
{
    let listed = match folder.list() {
        Ok(listed) => listed,
        Err(FolderFault::Failed) => return Status::FolderFault,
        Err(FolderFault::NoMemory) => return Status::NoMemory,
    };
    let paths = listed.as_slice();
    see_normal(paths);
    if listed.len() > command.modules as usize {
        return refuse_files(alloc, &listed, out);
    }
    run_over(
        rt, alloc, command, paths, maker, folder, script, out, turns, kept,
    )
}

// Each path is a normal one.
fn see_normal(paths: &[Path])
    ensures { AllByRecursion IsNormalPath paths.now }
{
    let mut rest = paths;
    while let [path, more @ ..] = rest {
        let _text = path.as_str();
        rest = more;
    }
}

// The run over these listed paths.
#[tactic(auto, using(crate::proofs::Endings::nothing_run))]
fn run_over<
    R: Threads + Wait + Sync,
    F: Folder,
    S: Source,
    K: Sink,
    T: Turnstile + Sync,
    A: Analyst + PlaceAnalyst + Send + Drop,
    M: AnalystMaker<A>,
>(
    rt: &R,
    alloc: Global,
    command: Command,
    listed: &[Path],
    maker: &M,
    folder: &mut F,
    script: &mut S,
    out: &mut K,
    turns: &T,
    kept: &mut Option<Server>,
) -> Status
    requires modules { IsInRange 1 4096 command.modules }
    requires workers { IsInRange 1 64 command.workers }
    requires some_lanes { IsInRange 1 16 command.lanes }
    requires kept { kept.old ≡ None }
    requires rising { IsRising listed.now }
    requires few { length listed.now ≤ command.modules }
    ensures leaves { RunLeaves command.modules command.lanes listed.now
        (outside (F.seen folder.old) (S.seen script.old) (K.seen out.old)) (outside (F.seen folder.new) (S.seen script.new) (K.seen out.new)) result kept.new }
    ensures lanes { IfSome kept.new (λ server. length server.lanes ≡ command.lanes) }
    ensures no_folder_fault { result ≡ Status.FolderFault → ⊥ }
    ensures script_counts { Counts (result ≡ Status.ScriptFault) (S.seen script.old).faults (S.seen script.new).faults }
    ensures sink_counts { Counts (result ≡ Status.SinkFault) (K.seen out.old).faults (K.seen out.new).faults }
    ensures told { (F.seen folder.new).told ≡ (F.seen folder.old).told }
    ensures folder_later { (F.seen folder.old).faults ≤ (F.seen folder.new).faults }
{
    each_edit_has_sizes();
    each_has_answer();
    let modules = command.modules;
    let Ok(server) = open_server(alloc, modules, command.lanes) else {
        return Status::NoMemory;
    };
    let Ok(analysts) = made(alloc, maker, command.workers) else {
        return Status::NoMemory;
    };
    let Ok(askers) = made(alloc, maker, command.lanes) else {
        return Status::NoMemory;
    };
    match run(
        rt, alloc, server, modules, listed, analysts, askers, folder, script, out, turns,
    ) {
        Ok(ended) => finish(ended, kept),
        Err(RunFault::ScriptFault) => Status::ScriptFault,
        Err(RunFault::SinkFault) => Status::SinkFault,
        Err(RunFault::NoMemory) => Status::NoMemory,
    }
}

// The run on so many modules that are made up by a seed.
fn run_made_up<
    R: Threads + Wait + Sync,
    K: Sink,
    T: Turnstile + Sync,
    A: Analyst + PlaceAnalyst + Send + Drop,
    M: AnalystMaker<A>,
>(
    rt: &R,
    alloc: Global,
    command: Command,
    n: u32,
    seed: u64,
    maker: &M,
    out: &mut K,
    turns: &T,
    kept: &mut Option<Server>,
) -> Status
    requires modules { IsInRange 1 4096 command.modules }
    requires workers { IsInRange 1 64 command.workers }
    requires some_lanes { IsInRange 1 16 command.lanes }
    requires made { IsInRange 1 command.modules n }
    requires kept { kept.old ≡ None }
    ensures leaves { GeneratedLeaves command.modules command.lanes n seed (K.seen out.old).written (K.seen out.new).written result kept.new }
    ensures lanes { IfSome kept.new (λ server. length server.lanes ≡ command.lanes) }
    ensures sink_counts { Counts (result ≡ Status.SinkFault) (K.seen out.old).faults (K.seen out.new).faults }
{
    one_generated_run();
    let Ok(server) = open_server(alloc, command.modules, command.lanes) else {
        return Status::NoMemory;
    };
    let Ok(analysts) = made(alloc, maker, command.workers) else {
        return Status::NoMemory;
    };
    let Ok(askers) = made(alloc, maker, command.lanes) else {
        return Status::NoMemory;
    };
    let ended = match run_generated(
        rt,
        alloc,
        server,
        command.modules,
        n,
        seed,
        analysts,
        askers,
        out,
        turns,
    ) {
        Ok(ended) => ended,
        Err(RunFault::SinkFault) => return Status::SinkFault,
        Err(RunFault::NoMemory) => return Status::NoMemory,
        Err(RunFault::ScriptFault) => unreachable!(),
    };
    finish(ended, kept)
}

// So many analysts.
fn made<A: Drop, M: AnalystMaker<A>>(
    alloc: Global,
    maker: &M,
    count: u32,
) -> Result<Vec<A>, NoMemory>
    ensures { IfOk result (λ analysts. length analysts.items ≡ count) }
{
    let mut analysts = Vec::new(alloc);
    for _ in 0..count {
        analysts.push(maker.make())?;
    }
    Ok(analysts)
}

// The status of a run that came to its end. Its server is kept where it was not cut short.
fn finish(ended: Ended, kept: &mut Option<Server>) -> Status
    requires idle { IsIdle ended.server }
    requires kept { kept.old ≡ None }
    ensures status { result ≡ status_after ended.ending ended.errors }
    ensures kept { Keeps (left_after ended.ending (end_of ended.server)) kept.new }
    ensures lanes { IfSome kept.new (λ server. length server.lanes ≡ length ended.server.lanes) }
{
    match ended.ending {
        WalkEnd::Finished => {
            *kept = Some(ended.server);
            finished(ended.errors)
        }
        WalkEnd::BadLine => Status::BadLine,
        WalkEnd::LongLine | WalkEnd::ManyLines | WalkEnd::ManyAsks { .. } => Status::Limit,
    }
}

// The status of a run that was not cut short, after which there are so many errors.
fn finished(errors: u64) -> Status
    ensures { result ≡ status_after Finished errors }
{
    if errors == 0 {
        Status::Clean
    } else {
        Status::Errors
    }
}

// Refuses a folder of these files, which are too many.
fn refuse_files<K: Sink>(alloc: Global, listed: &List<Path>, out: &mut K) -> Status
    ensures writes { WritesLast (K.seen out.old).written (K.seen out.new).written (files_line (length listed.now)) Status.Limit result }
    ensures counts { Counts (result ≡ Status.SinkFault) (K.seen out.old).faults (K.seen out.new).faults }
{
    match files_line(alloc, listed.len() as u64) {
        Ok(line) => write_last(out, line.as_bytes(), Status::Limit),
        Err(_) => Status::NoMemory,
    }
}

// Writes the last bytes of a run that ends with this status, where they can be written.
fn write_last<K: Sink>(out: &mut K, bytes: &[u8], status: Status) -> Status
    requires { status ≡ Status.SinkFault → ⊥ }
    ensures writes { WritesLast (K.seen out.old).written (K.seen out.new).written bytes.now status result }
    ensures counts { Counts (result ≡ Status.SinkFault) (K.seen out.old).faults (K.seen out.new).faults }
{
    match write_all(out, bytes) {
        Ok(()) => status,
        Err(SinkFault::Failed) => Status::SinkFault,
        Err(SinkFault::NoMemory) => Status::NoMemory,
    }
}
