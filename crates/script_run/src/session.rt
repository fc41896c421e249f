ghost use Rattle.std.specs.Prelude.{◌≡◌, ◌+◌, ◌<◌, ◌≤◌, ◌^◌, length, string_bytes, IfOk};
ghost use Rattle.flow_base.specs.Program.{IsRising};
ghost use Rattle.pending_edits.specs.declared.edit.Edit.TheVariants.{Put, Touch};
ghost use Rattle.beside.specs.Writers.{meaning_in};
ghost use Rattle.beside.specs.Uses.{MayAnswer};
ghost use Rattle.beside.specs.Server.{uses_of};
ghost use Rattle.script_run.specs.Checked.{HasErrorCount};
ghost use Rattle.script_run.specs.Transcript.{start, asks_of};
ghost use Rattle.script_run.specs.Session.{IsNewServer, IsIdle, standing_in, Prints, PrintsEdit, HasAsked, HasEdited, HasDeleted, HasRechecked, HasTurned};

use crate::answering::{print_told, told_text};
use crate::committed::Committed;
use crate::errors::count_errors;
use crate::waiting::{delete_path, put_text, recheck_edited, touch_path, touched};
use analyst::Analyst;
use asks::Ask;
use beside::place_analyst::PlaceAnalyst;
use beside::{Outcome, Server};
use flow_base::{Folder, NoMemory, Path, Text, Turnstile};
use pending_edits::{EditFault, Edits};
use script_line::Line;
use script_print::{cancelled_line, done_line, fault_line, refused_line};
use std::alloc::Global;
use std::marker::Model;
use std::sync::Wait;
use std::thread::Threads;

/// The server of modules, the edits that wait for the next recheck, who checks, and who answers, one on
/// each lane. Contracts see what the heap means, the edits, and what the lanes have answered.
#[derive(Drop)]
pub struct Session<A: Analyst + PlaceAnalyst + Send + Drop> {
    alloc: Global,
    server: Server,
    edits: Edits,
    analysts: Vec<A>,
    askers: Vec<A>,
}

impl<A: Analyst + PlaceAnalyst + Send + Drop> Model for Session<A> {
    ghost use Rattle.std.specs.Prelude.{◌≡◌, ◌<◌, length};
    ghost use Rattle.beside.specs.Server.{IsRunning};
    ghost use Rattle.script_run.specs.Session.{Held, held_by, held_code, IsReady};

    ghost Value = { Held };

    ghost coded = { held_code };

    ghost view = { λ s. held_by s.server s.edits };

    ghost invariant = { λ s. IsReady (held_by s.server s.edits) × IsRunning s.server × (0 < length s.analysts.items) × (length s.askers.items ≡ length s.server.lanes) };
}

impl<A: Analyst + PlaceAnalyst + Send + Drop> Session<A> {
    /// The empty program at version 0, for so many modules, and these paths, which rise, to be read by
    /// the first recheck. All analysts recheck, and each asker answers on the lane of its place.
    ///
    /// # Errors
    ///
    /// `NoMemory` where memory is refused.
    #[tactic(auto, using(crate::proofs::Sessions::begins_empty))]
    pub fn open(
        alloc: Global,
        server: Server,
        modules: u32,
        listed: &[Path],
        analysts: Vec<A>,
        askers: Vec<A>,
    ) -> Result<Session<A>, NoMemory>
        requires new { IsNewServer server modules (length askers.items) }
        requires rising { IsRising listed.now }
        requires few { length listed.now ≤ modules }
        requires some { 0 < length analysts.items }
        ensures standing { IfOk result (λ session. standing_in session ≡ start listed.now (length askers.items)) }
        ensures modules { IfOk result (λ session. session.waiting.capacity ≡ modules) }
    {
        let edits = touched(alloc, modules, listed)?;
        Ok(Session {
            alloc,
            server,
            edits,
            analysts,
            askers,
        })
    }

    /// Rechecks with these asks beside it, and gives what this prints: the line of the recheck, and then
    /// the answers, in order. It stops at this poll, counted from 1, where it comes to it, and with 0 at
    /// none. At each poll, and at each ask, it passes the turnstile.
    ///
    /// # Errors
    ///
    /// `NoMemory` where memory is refused.
    pub fn recheck<R: Threads + Wait + Sync, F: Folder, T: Turnstile + Sync>(
        &mut self,
        rt: &R,
        stop: u64,
        asks: &[Ask],
        folder: &mut F,
        turns: &T,
    ) -> Result<Vec<u8>, NoMemory>
        requires version { self.old.heap.version + 1 < 2 ^ 31 }
        requires pins { MayAnswer (length asks.now) self.old.lanes }
        ensures rechecked { IfOk result (λ printed. HasRechecked stop asks.now (standing_in self.old) (standing_in self.new) printed.items (F.seen folder.old) (F.seen folder.new)) }
        ensures modules { self.new.waiting.capacity ≡ self.old.waiting.capacity }
        ensures told { (F.seen folder.new).told ≡ (F.seen folder.old).told }
        ensures later { (F.seen folder.old).faults ≤ (F.seen folder.new).faults }
    {
        let (outcome, told) = recheck_edited(
            rt,
            self.alloc,
            &mut self.server,
            &mut self.edits,
            stop,
            asks,
            folder,
            turns,
            self.analysts.as_mut_slice(),
            self.askers.as_mut_slice(),
        )?;
        let line = outcome_line(self.alloc, &outcome, self.server.version())?;
        let mut printed = line.into_bytes();
        print_told(self.alloc, asks, told.as_slice(), &mut printed)?;
        Ok(printed)
    }

    /// Puts an edit to the others, and gives what this prints: nothing, or that it was refused.
    ///
    /// # Errors
    ///
    /// `NoMemory` where memory is refused.
    pub fn edit(&mut self, path: Path, text: Text) -> Result<Vec<u8>, NoMemory>
        ensures edited { IfOk result (λ printed. HasEdited self.old.waiting.capacity path (Put text) (standing_in self.old) (standing_in self.new) printed.items) }
        ensures modules { self.new.waiting.capacity ≡ self.old.waiting.capacity }
    {
        let put = put_text(&self.server.writer, &mut self.edits, path, text);
        edit_line(self.alloc, put)
    }

    /// Puts a path to those that the next recheck reads, and gives what this prints: nothing, or that it
    /// was refused.
    fn touch(&mut self, path: Path) -> Result<Vec<u8>, NoMemory>
        ensures touched { IfOk result (λ printed. HasEdited self.old.waiting.capacity path Touch (standing_in self.old) (standing_in self.new) printed.items) }
        ensures modules { self.new.waiting.capacity ≡ self.old.waiting.capacity }
    {
        let put = touch_path(&self.server.writer, &mut self.edits, path);
        edit_line(self.alloc, put)
    }

    /// From the next recheck on a path is no module. This prints nothing.
    fn delete(&mut self, path: Path) -> Result<Vec<u8>, NoMemory>
        ensures deleted { IfOk result (λ printed. HasDeleted path (standing_in self.old) (standing_in self.new) printed.items) }
        ensures modules { self.new.waiting.capacity ≡ self.old.waiting.capacity }
    {
        delete_path(&mut self.edits, path)?;
        Ok(Vec::new(self.alloc))
    }

    /// Answers what is asked on the first lane, from the committed version, and gives what this prints.
    /// It passes the turnstile, as the first of its asks.
    fn ask<T: Turnstile>(&mut self, turns: &T, ask: &Ask) -> Result<Vec<u8>, NoMemory>
        requires pins { MayAnswer 1 self.old.lanes }
        ensures asked { IfOk result (λ printed. HasAsked ask.now (standing_in self.old) (standing_in self.new) printed.items) }
        ensures modules { self.new.waiting.capacity ≡ self.old.waiting.capacity }
    {
        let told = self
            .server
            .answer_first(self.alloc, turns, &mut self.askers[0], ask);
        let text = told_text(self.alloc, ask, &told)?;
        Ok(Vec::from_slice(self.alloc, text.as_bytes())?)
    }

    /// The number of errors of the committed program.
    ///
    /// # Errors
    ///
    /// `NoMemory` where memory is refused.
    pub fn errors(&self) -> Result<u64, NoMemory>
        ensures { IfOk result (HasErrorCount (standing_in self.now).program) }
    {
        count_errors(&mut Committed::of(&self.server.writer))
    }

    /// Answers a line that does not end the script, and gives what this prints.
    ///
    /// # Errors
    ///
    /// `NoMemory` where memory is refused.
    pub fn turn<R: Threads + Wait + Sync, F: Folder, T: Turnstile + Sync>(
        &mut self,
        rt: &R,
        folder: &mut F,
        turns: &T,
        line: Line,
    ) -> Result<Vec<u8>, NoMemory>
        requires version { self.old.heap.version + 1 < 2 ^ 31 }
        requires pins { MayAnswer (length (asks_of line)) self.old.lanes }
        requires goes_on { line ≡ Line.End → ⊥ }
        ensures turned { IfOk result (λ printed. HasTurned self.old.waiting.capacity line (standing_in self.old) (standing_in self.new) printed.items (F.seen folder.old) (F.seen folder.new)) }
        ensures modules { self.new.waiting.capacity ≡ self.old.waiting.capacity }
        ensures told { (F.seen folder.new).told ≡ (F.seen folder.old).told }
        ensures later { (F.seen folder.old).faults ≤ (F.seen folder.new).faults }
    {
        match line {
            Line::Blank => Ok(Vec::new(self.alloc)),
            Line::Edit { path, text } => self.edit(path, text),
            Line::Delete { path } => self.delete(path),
            Line::Touch { path } => self.touch(path),
            Line::Recheck { stop, asks } => self.recheck(rt, stop, asks.as_slice(), folder, turns),
            Line::Ask(ask) => self.ask(turns, &ask),
            Line::End => unreachable!(),
        }
    }

    /// The server, as the session leaves it. The edits that wait are given up.
    pub fn into_server(self) -> Server
        ensures heap { meaning_in result.writer ≡ self.heap }
        ensures lanes { uses_of result.lanes ≡ self.lanes }
        ensures idle { IsIdle result }
    {
        let Session { server, .. } = self;
        server
    }
}

// What an edit prints: nothing, or that it was refused.
fn edit_line(alloc: Global, put: Result<(), EditFault>) -> Result<Vec<u8>, NoMemory>
    ensures { IfOk result (λ printed. PrintsEdit put printed.items) }
{
    match put {
        Ok(()) => Ok(Vec::new(alloc)),
        Err(EditFault::TooManyModules { count }) => Ok(refused_line(alloc, count)?.into_bytes()),
        Err(EditFault::NoMemory) => Err(NoMemory),
    }
}

// The line of a recheck after which the version is this one.
fn outcome_line(alloc: Global, outcome: &Outcome, version: u32) -> Result<String, NoMemory>
    ensures { IfOk result (λ line. Prints outcome.now version (string_bytes line)) }
{
    match outcome {
        Outcome::Done {
            version,
            parsed,
            checked,
            errors,
        } => done_line(alloc, *version, *parsed, *checked, *errors),
        Outcome::Cancelled { poll } => cancelled_line(alloc, *poll, version),
        Outcome::ReadFault { path } => fault_line(alloc, path, version),
        Outcome::NoMemory => Err(NoMemory),
    }
}
