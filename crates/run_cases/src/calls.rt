//! Tests of calls below the program. Each tells by lines what came.
ghost use Rattle.std.specs.Prelude.{◌≡◌, [], ◌<◌, ◌≤◌, ◌^◌, IfOk, length};
ghost use Rattle.flow_values.specs.Path.{IsRising};
ghost use Rattle.pending_edits.specs.Counting.{counted, StandsOn};
ghost use Rattle.check_values.specs.Roots.{paths_of};
ghost use Rattle.run_cases.specs.Heaps.{IsEmpty};

use crate::cases::path_of;
use crate::ends::ends;
use crate::meeting::{Known, Meeting, MeetingAnalyst, MeetingAnalysts, PATHS, Rule, SOURCES};
use crate::outside::TestFolder;
use crate::values::values;
use analyst::check_job::CheckJob;
use analyst::check_job::signature_table::SignatureTable;
use analyst::source_front::{Parse, ParseTree};
use check_values::{Deps, Errs, Root, RootRow, Sig};
use flow_analyst::FlowAnalysts;
use flow_base::{Folder, FolderFault, List, MemFolder, NoMemory, Path, Text};
use flow_values::Shared;
use heap_core::{HeapWriter, PlainHeap};
use job_ends::{MergeJob, MergeMember};
use js_tree::spell;
use payloads::Payload;
use pending_edits::{EditFault, Edits};
use place_analyst::AnalystMaker;
use recheck_plan::{changed, check_set, merge_set};
use recheck_run::{Outcome, recheck};
use signature_equality::{same_deps, same_local, same_sig};
use std::alloc::Global;
use std::fmt::Write;
use std::sync::{Arc, Wait};
use std::thread::Threads;
use stops::StopAt;
use worker_jobs::{run_checks, run_fronts, run_merges};

/// Runs the test of this name over a folder, and tells what came. For a name that no test has nothing is told.
pub(crate) fn test<R: Threads + Wait + Sync>(
    rt: &R,
    alloc: Global,
    name: &str,
    folder: MemFolder,
) -> Result<String, NoMemory> {
    let mut out = String::new(alloc);
    match name {
        "fronts" => for_each_one(rt, alloc, Jobs::Fronts, &mut out)?,
        "merges" => for_each_one(rt, alloc, Jobs::Merges, &mut out)?,
        "checks" => for_each_one(rt, alloc, Jobs::Checks, &mut out)?,
        "no jobs" => {
            no_jobs(rt, alloc, 1, &mut out)?;
            no_jobs(rt, alloc, 4, &mut out)?;
            no_jobs(rt, alloc, 64, &mut out)?;
        }
        "one job" => one_job(rt, alloc, &mut out)?,
        "rechecks" => rechecks(rt, alloc, folder, &mut out)?,
        "plans" => {
            changes(alloc, &mut out)?;
            plans(alloc, &mut out)?;
        }
        "edits" => limited_edits(alloc, &mut out)?,
        "ends" => ends(alloc, folder, &mut out)?,
        "values" => values(alloc, &mut out)?,
        _ => {}
    }
    Ok(out)
}

fn analysts<'a>(
    alloc: Global,
    meeting: &'a Meeting,
    many: usize,
) -> Result<Vec<MeetingAnalyst<'a>>, NoMemory>
    ensures { IfOk result (λ all. length all.items ≡ many) }
{
    let maker = MeetingAnalysts {
        inner: FlowAnalysts::new(alloc),
        meeting,
    };
    let mut all = Vec::new(alloc);
    for _ in 0..many {
        all.push(maker.make())?;
    }
    Ok(all)
}

// ---- jobs that wait for one another

/// Which jobs wait.
#[derive(Debug, Clone, Copy, PartialEq, Eq)]
enum Jobs {
    Fronts,
    Merges,
    Checks,
}

fn texts(alloc: Global) -> Result<List<Text>, NoMemory> {
    let mut all = List::new(alloc);
    for source in &SOURCES {
        all.push(Text::from_bytes(alloc, source.as_bytes())?)?;
    }
    Ok(all)
}

fn no_deps(alloc: Global) -> Result<Shared<Deps>, NoMemory> {
    let rows = List::new(alloc);
    Shared::new(alloc, Deps { rows })
}

fn no_signatures(alloc: Global) -> Result<Shared<SignatureTable>, NoMemory> {
    let table = SignatureTable::build(alloc, List::new(alloc))?;
    Shared::new(alloc, table)
}

fn job_of_merge(alloc: Global, path: &str, source: &str) -> Result<MergeJob, NoMemory> {
    let parse = source_reading::front(alloc, source.as_bytes())?;
    let mut members = List::new(alloc);
    members.push(MergeMember {
        path: path_of(alloc, path)?,
        sig: parse.sig.share()?,
        deps: no_deps(alloc)?,
    })?;
    let outside = List::new(alloc);
    Ok(MergeJob { members, outside })
}

fn job_of_check(alloc: Global, path: &str, source: &str) -> Result<CheckJob, NoMemory> {
    let parse = source_reading::front(alloc, source.as_bytes())?;
    Ok(CheckJob {
        path: path_of(alloc, path)?,
        text: Text::from_bytes(alloc, source.as_bytes())?,
        parse: Shared::new(alloc, parse)?,
        deps: no_deps(alloc)?,
        sigs: no_signatures(alloc)?,
    })
}

fn merge_jobs(alloc: Global) -> Result<List<MergeJob>, NoMemory> {
    let mut all = List::new(alloc);
    for (path, source) in PATHS.iter().zip(&SOURCES) {
        all.push(job_of_merge(alloc, path, source)?)?;
    }
    Ok(all)
}

fn check_jobs(alloc: Global) -> Result<List<CheckJob>, NoMemory> {
    let mut all = List::new(alloc);
    for (path, source) in PATHS.iter().zip(&SOURCES) {
        all.push(job_of_check(alloc, path, source)?)?;
    }
    Ok(all)
}

// Two analysts do the four jobs. It answers how many are done.
fn do_four<R: Threads + Wait + Sync>(
    rt: &R,
    alloc: Global,
    jobs: Jobs,
    meeting: &Meeting,
) -> Result<usize, NoMemory> {
    let mut two = analysts(alloc, meeting, 2)?;
    let two = two.as_mut_slice();
    match jobs {
        Jobs::Fronts => Ok(run_fronts(rt, alloc, two, texts(alloc)?.as_slice())?.len()),
        Jobs::Merges => Ok(run_merges(rt, alloc, two, merge_jobs(alloc)?.as_slice())?.len()),
        Jobs::Checks => Ok(run_checks(rt, alloc, two, check_jobs(alloc)?.as_slice())?.len()),
    }
}

fn known_by(jobs: Jobs) -> Known {
    match jobs {
        Jobs::Fronts => Known::BySource,
        Jobs::Merges | Jobs::Checks => Known::ByPath,
    }
}

// Once the others wait for job 0, and once for job 1.
fn for_each_one<R: Threads + Wait + Sync>(
    rt: &R,
    alloc: Global,
    jobs: Jobs,
    out: &mut String,
) -> Result<(), NoMemory> {
    for one in 0..2 {
        let known = known_by(jobs);
        let meeting = Meeting::new(Rule::Jobs { known, one });
        let done = do_four(rt, alloc, jobs, &meeting)?;
        let met = meeting.has_met();
        writeln!(
            out,
            "the others wait for job {one}: {done} jobs, met: {met}"
        )?;
    }
    Ok(())
}

// So many analysts do no jobs.
fn no_jobs<R: Threads + Wait + Sync>(
    rt: &R,
    alloc: Global,
    many: usize,
    out: &mut String,
) -> Result<(), NoMemory>
    requires { 0 < many }
{
    let meeting = Meeting::new(Rule::Open);
    let mut all = analysts(alloc, &meeting, many)?;
    let parses = run_fronts(rt, alloc, all.as_mut_slice(), &[])?.len();
    let signatures = run_merges(rt, alloc, all.as_mut_slice(), &[])?.len();
    let errs = run_checks(rt, alloc, all.as_mut_slice(), &[])?.len();
    writeln!(
        out,
        "{many}: {parses} parses, {signatures} signatures, {errs} checks"
    )?;
    Ok(())
}

/// What is said of a module by itself, to others, and of its errors.
#[derive(Drop)]
struct Results {
    parses: List<Parse>,
    signatures: List<List<Sig>>,
    errs: List<Errs>,
}

// So many analysts read, merge and check a module by itself.
fn results_by<R: Threads + Wait + Sync>(
    rt: &R,
    alloc: Global,
    many: usize,
) -> Result<Results, NoMemory>
    requires { 0 < many }
{
    let meeting = Meeting::new(Rule::Open);
    let mut all = analysts(alloc, &meeting, many)?;
    let texts = [Text::from_bytes(alloc, BAD.as_bytes())?];
    let merges = [job_of_merge(alloc, "a.js", BAD)?];
    let checks = [job_of_check(alloc, "a.js", BAD)?];
    Ok(Results {
        parses: run_fronts(rt, alloc, all.as_mut_slice(), &texts)?,
        signatures: run_merges(rt, alloc, all.as_mut_slice(), &merges)?,
        errs: run_checks(rt, alloc, all.as_mut_slice(), &checks)?,
    })
}

fn same_parses(alloc: Global, a: &Results, b: &Results) -> Result<bool, NoMemory> {
    match (a.parses.as_slice(), b.parses.as_slice()) {
        ([a], [b]) => same_parse(alloc, a, b),
        _ => Ok(false),
    }
}

fn same_signatures(a: &Results, b: &Results) -> bool {
    match (a.signatures.as_slice(), b.signatures.as_slice()) {
        ([a], [b]) => match (a.as_slice(), b.as_slice()) {
            ([a], [b]) => same_sig(a, b),
            _ => false,
        },
        _ => false,
    }
}

fn same_checks(a: &Results, b: &Results) -> bool {
    match (a.errs.as_slice(), b.errs.as_slice()) {
        ([a], [b]) => same_errs(a, b),
        _ => false,
    }
}

// A module with one error.
const BAD: &str = "export const x: number = \"a\";";

// So many analysts give the same results as these.
fn write_same<R: Threads + Wait + Sync>(
    rt: &R,
    alloc: Global,
    first: &Results,
    many: usize,
    out: &mut String,
) -> Result<(), NoMemory>
    requires { 0 < many }
{
    let other = results_by(rt, alloc, many)?;
    let parses = same_parses(alloc, first, &other)?;
    let signatures = same_signatures(first, &other);
    let checks = same_checks(first, &other);
    writeln!(out, "{many}: {parses} {signatures} {checks}")?;
    Ok(())
}

fn one_job<R: Threads + Wait + Sync>(
    rt: &R,
    alloc: Global,
    out: &mut String,
) -> Result<(), NoMemory> {
    let first = results_by(rt, alloc, 1)?;
    for errs in first.errs.as_slice() {
        writeln!(out, "1: {} errors", errs.faults.len())?;
    }
    write_same(rt, alloc, &first, 3, out)?;
    write_same(rt, alloc, &first, 4, out)?;
    write_same(rt, alloc, &first, 64, out)
}

// ---- rechecks of a heap without lanes

fn write_outcome(out: &mut String, outcome: &Outcome) -> Result<(), NoMemory> {
    match outcome {
        Outcome::Done {
            version,
            parsed,
            checked,
            errors,
        } => writeln!(
            out,
            "done {version}: {parsed} parsed, {checked} checked, {errors} errors"
        )?,
        Outcome::Cancelled { poll } => writeln!(out, "cancelled at poll {poll}")?,
        Outcome::ReadFault { path } => writeln!(out, "cannot read {}", path.as_str())?,
        Outcome::NoMemory => writeln!(out, "no memory")?,
    }
    Ok(())
}

// A heap for three modules that has none.
fn empty_heap(alloc: Global) -> Result<PlainHeap<Payload>, NoMemory>
    ensures { IfOk result (λ heap. IsEmpty (⟦<PlainHeap<Payload> as HeapWriter<Payload>>⟧.meaning heap)) }
{
    let root = Root {
        modules: List::new(alloc),
    };
    let root = Arc::new(alloc, Payload::Root(Shared::new(alloc, root)?))?;
    let absent = Arc::new(alloc, Payload::Absent)?;
    let heap = PlainHeap::open(alloc, 13, root, absent)?;
    Ok(heap)
}

// A module more is to be read.
fn touch(edits: &mut Edits, root: &Root, path: Path) -> Result<(), NoMemory>
    requires rising { IsRising (paths_of root.now) }
    requires numbered { length root.now.modules < 2 ^ 32 }
    requires stands { StandsOn (paths_of root.now) edits.old }
    ensures few { IfOk result (λ _. counted (paths_of root.now) edits.new.edits ≤ edits.old.capacity) }
    ensures stands { StandsOn (paths_of root.now) edits.new }
    ensures capacity { edits.new.capacity ≡ edits.old.capacity }
{
    match edits.touch(root, path) {
        Ok(()) => Ok(()),
        Err(EditFault::TooManyModules { .. } | EditFault::NoMemory) => Err(NoMemory),
    }
}

fn listed(folder: &mut TestFolder) -> Result<List<Path>, NoMemory> {
    match folder.list() {
        Ok(paths) => Ok(paths),
        Err(FolderFault::Failed | FolderFault::NoMemory) => Err(NoMemory),
    }
}

// These paths are to be read.
fn touched(alloc: Global, paths: &[Path]) -> Result<Edits, NoMemory>
    ensures capacity { IfOk result (λ edits. edits.capacity ≡ 3) }
    ensures few { IfOk result (λ edits. counted [] edits.edits ≤ 3) }
{
    let none = Root {
        modules: List::new(alloc),
    };
    let mut edits = Edits::new(alloc, 3);
    for i in 0..paths.len() {
        let path = &paths[i];
        touch(&mut edits, &none, path.share()?)?;
    }
    Ok(edits)
}

// So many analysts recheck a program without modules, to which those of a folder come.
#[tactic(auto, using(crate::proofs::Heaps::few))]
fn rechecked<R: Threads + Wait + Sync>(
    rt: &R,
    alloc: Global,
    folder: &mut TestFolder,
    meeting: &Meeting,
    many: usize,
    out: &mut String,
) -> Result<PlainHeap<Payload>, NoMemory>
    requires { 0 < many }
    ensures { IfOk result (λ heap. length (⟦<PlainHeap<Payload> as HeapWriter<Payload>>⟧.meaning heap).committed ≡ 13) }
{
    let mut heap = empty_heap(alloc)?;
    let paths = listed(folder)?;
    let mut edits = touched(alloc, paths.as_slice())?;
    let mut all = analysts(alloc, meeting, many)?;
    let mut stop = StopAt::new(0);
    let outcome = recheck(
        rt,
        alloc,
        &mut heap,
        &mut edits,
        folder,
        &mut stop,
        meeting,
        all.as_mut_slice(),
    );
    write!(out, "{many}: ")?;
    write_outcome(out, &outcome)?;
    Ok(heap)
}

fn rechecks<R: Threads + Wait + Sync>(
    rt: &R,
    alloc: Global,
    folder: MemFolder,
    out: &mut String,
) -> Result<(), NoMemory> {
    let mut folder = TestFolder::new(folder, List::new(alloc), List::new(alloc));
    let open = Meeting::new(Rule::Open);
    let one = rechecked(rt, alloc, &mut folder, &open, 1, out)?;
    let three = rechecked(rt, alloc, &mut folder, &open, 3, out)?;
    let most = rechecked(rt, alloc, &mut folder, &open, 64, out)?;
    for e in 0..13 {
        let payload = one.latest(e)?;
        let same = same_payload(alloc, &payload, &*three.latest(e)?)?
            && same_payload(alloc, &payload, &*most.latest(e)?)?;
        writeln!(out, "{} the same: {same}", kind_of(&payload))?;
    }
    Ok(())
}

fn kind_of(payload: &Payload) -> &'static str {
    match payload {
        Payload::Absent => "absent",
        Payload::Root(_) => "root",
        Payload::Parse(_) => "parse",
        Payload::Deps(_) => "deps",
        Payload::Sig(_) => "signature",
        Payload::Errs(_) => "errors",
    }
}

fn same_row(a: &RootRow, b: &RootRow) -> bool {
    a.path == b.path && a.row == b.row && a.text == b.text
}

fn same_root(a: &Root, b: &Root) -> bool {
    let (a, b) = (a.modules.as_slice(), b.modules.as_slice());
    a.len() == b.len() && a.iter().zip(b).all(|(a, b)| same_row(a, b))
}

fn same_errs(a: &Errs, b: &Errs) -> bool {
    a.faults.as_slice() == b.faults.as_slice()
}

fn same_tree(alloc: Global, a: &ParseTree, b: &ParseTree) -> Result<bool, NoMemory> {
    match (a, b) {
        (
            ParseTree::Tree { module, spans },
            ParseTree::Tree {
                module: other,
                spans: others,
            },
        ) => {
            let (tokens, other_tokens) = (spell(alloc, module)?, spell(alloc, other)?);
            Ok(
                spans.as_slice() == others.as_slice()
                    && tokens.as_slice() == other_tokens.as_slice(),
            )
        }
        (ParseTree::Broken(a), ParseTree::Broken(b)) => Ok(a == b),
        _ => Ok(false),
    }
}

fn same_parse(alloc: Global, a: &Parse, b: &Parse) -> Result<bool, NoMemory> {
    let same = same_local(a.sig.get(), b.sig.get()) && a.faults.as_slice() == b.faults.as_slice();
    Ok(same && same_tree(alloc, &a.tree, &b.tree)?)
}

fn same_payload(alloc: Global, a: &Payload, b: &Payload) -> Result<bool, NoMemory> {
    match (a, b) {
        (Payload::Absent, Payload::Absent) => Ok(true),
        (Payload::Root(a), Payload::Root(b)) => Ok(same_root(a.get(), b.get())),
        (Payload::Parse(a), Payload::Parse(b)) => same_parse(alloc, a.get(), b.get()),
        (Payload::Deps(a), Payload::Deps(b)) => Ok(same_deps(a.get(), b.get())),
        (Payload::Sig(a), Payload::Sig(b)) => Ok(same_sig(a.get(), b.get())),
        (Payload::Errs(a), Payload::Errs(b)) => Ok(same_errs(a.get(), b.get())),
        _ => Ok(false),
    }
}

// ---- plans and edits

fn write_paths(out: &mut String, name: &str, paths: &[Path]) -> Result<(), NoMemory> {
    write!(out, "{name}:")?;
    for path in paths {
        write!(out, " {}", path.as_str())?;
    }
    writeln!(out)?;
    Ok(())
}

fn changes(alloc: Global, out: &mut String) -> Result<(), NoMemory> {
    let root = Root {
        modules: List::new(alloc),
    };
    let texts = [(path_of(alloc, "a.js")?, Some(Text::from_bytes(alloc, b"")?))];
    let changes = changed(alloc, &root, texts.as_slice())?;
    write_paths(out, "added", changes.added.as_slice())?;
    write_paths(out, "differing", changes.differing.as_slice())?;
    write_paths(out, "removed", changes.removed.as_slice())
}

fn plans(alloc: Global, out: &mut String) -> Result<(), NoMemory> {
    let edges = [
        List::from_slice(alloc, &[1u32])?,
        List::new(alloc),
        List::from_slice(alloc, &[0u32])?,
    ];
    let merged = merge_set(alloc, edges.as_slice(), &[1])?;
    writeln!(out, "merged: {:?}", merged.as_slice())?;
    let reach = [
        List::from_slice(alloc, &[1u32])?,
        List::new(alloc),
        List::new(alloc),
    ];
    let checked = check_set(alloc, reach.as_slice(), &[2], &[1])?;
    writeln!(out, "checked: {:?}", checked.as_slice())?;
    Ok(())
}

fn write_edit(out: &mut String, edit: Result<(), EditFault>) -> Result<(), NoMemory> {
    match edit {
        Ok(()) => writeln!(out, "taken")?,
        Err(EditFault::TooManyModules { count }) => writeln!(out, "too many modules {count}")?,
        Err(EditFault::NoMemory) => return Err(NoMemory),
    }
    Ok(())
}

// A program of one module.
fn one_module(alloc: Global) -> Result<Root, NoMemory>
    ensures { IfOk result (λ root. length root.modules ≡ 1) }
{
    let mut modules = List::new(alloc);
    modules.push(RootRow {
        path: path_of(alloc, "a.js")?,
        row: 0,
        text: Text::from_bytes(alloc, b"")?,
    })?;
    Ok(Root { modules })
}

// A path gets an empty text.
#[tactic(auto, using(crate::proofs::Heaps::rising_one))]
fn put(
    edits: &mut Edits,
    alloc: Global,
    root: &Root,
    path: &str,
    out: &mut String,
) -> Result<(), NoMemory>
    requires one { length root.now.modules ≡ 1 }
    requires stands { StandsOn (paths_of root.now) edits.old }
    ensures stands { StandsOn (paths_of root.now) edits.new }
{
    let put = edits.put(root, path_of(alloc, path)?, Text::from_bytes(alloc, b"")?);
    write_edit(out, put)
}

// A path is to be read.
#[tactic(auto, using(crate::proofs::Heaps::rising_one))]
fn touch_one(
    edits: &mut Edits,
    alloc: Global,
    root: &Root,
    path: &str,
    out: &mut String,
) -> Result<(), NoMemory>
    requires one { length root.now.modules ≡ 1 }
    requires stands { StandsOn (paths_of root.now) edits.old }
    ensures stands { StandsOn (paths_of root.now) edits.new }
{
    let touched = edits.touch(root, path_of(alloc, path)?);
    write_edit(out, touched)
}

// Two modules may be there. A third one is refused until another one is deleted.
fn limited_edits(alloc: Global, out: &mut String) -> Result<(), NoMemory> {
    let root = one_module(alloc)?;
    let mut edits = Edits::new(alloc, 2);
    put(&mut edits, alloc, &root, "b.js", out)?;
    put(&mut edits, alloc, &root, "c.js", out)?;
    touch_one(&mut edits, alloc, &root, "c.js", out)?;
    edits.delete(path_of(alloc, "a.js")?)?;
    put(&mut edits, alloc, &root, "c.js", out)
}
