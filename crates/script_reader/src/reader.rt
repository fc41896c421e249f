ghost use Rattle.std.specs.Prelude.{◌≡◌, ◌≤◌, ◌<◌, [], length, IfOk, IfSome, IfNone, IsErrOf, OnErr, Ok, true, false};
ghost use Rattle.flow_base.specs.Causes.{Counts};
ghost use Rattle.script_reader.specs.Lines.{bytes_left, lines_left, HasLine, TakesLine, TakesFront, BreaksLine, IsAtEnd, IsTooLong, LINE_LIMIT};
ghost use Rattle.script_reader.specs.Steps.{Steps, HasEnded};

use crate::window::Window;
use flow_base::{Failed, NoMemory, Source, Text};
use std::alloc::Global;
use std::marker::Model;

const LINE_LIMIT: usize = 4_194_304;

/// Why no line was read.
#[derive(Clone, Copy, Debug, PartialEq, Eq)]
pub enum ReadFault {
    /// The source failed, and counted a fault.
    Failed,
    /// The line is longer than 4,194,304 bytes.
    TooLong,
    /// Memory was refused.
    NoMemory,
}

impl From<NoMemory> for ReadFault {
    ghost use Rattle.script_reader.specs.declared.reader.ReadFault.TheVariants.{NoMemory};

    ghost from_gives = { λ _ e. e ≡ NoMemory };

    fn from(_: NoMemory) -> Self {
        ReadFault::NoMemory
    }
}

impl From<Failed> for ReadFault {
    ghost use Rattle.script_reader.specs.declared.reader.ReadFault.TheVariants.{Failed};

    ghost from_gives = { λ _ e. e ≡ Failed };

    fn from(_: Failed) -> Self {
        ReadFault::Failed
    }
}

// How far a step of reading a line came.
#[derive(Clone, Copy, Debug, PartialEq, Eq)]
enum Step {
    // Some of the line's bytes were taken, and more follow, or its end.
    More,
    // The line's last bytes, and its LF, were taken.
    Line,
    // Nothing follows.
    End,
}

/// Reads the lines of a script from a source, whatever pieces the source gives. Contracts see the
/// bytes that were read ahead and not taken yet.
#[derive(Debug, Drop)]
pub struct LineReader {
    alloc: Global,
    window: Window,
}

impl Model for LineReader {
    ghost use Rattle.std.specs.Prelude.{List, ℕ};

    ghost Value = { List ℕ };

    ghost view = { λ reader. reader.window };
}

impl LineReader {
    /// A reader that has read nothing ahead.
    ///
    /// # Errors
    ///
    /// `NoMemory` where memory is refused.
    pub fn new(alloc: Global) -> Result<LineReader, NoMemory>
        ensures { IfOk result (λ reader. reader ≡ []) }
    {
        Ok(LineReader {
            alloc,
            window: Window::new(alloc)?,
        })
    }

    /// The next line without its LF, or `None` where none is left. A last line without LF counts
    /// where it is not empty. The source is read from only while no whole line is in hand: where one
    /// was read ahead it is not touched, and a fault that it counts is answered and breaks no line off
    /// behind its LF.
    ///
    /// # Errors
    ///
    /// `Failed` exactly where the source counted a fault, and then one, `TooLong` exactly where the next line has
    /// more than 4,194,304 bytes, and `NoMemory` where memory is refused. After an error the reader
    /// may have lost bytes of the line; after `Failed` no LF among them, and nothing is read ahead.
    #[tactic(auto, using(crate::proofs::Joins::is_too_long, crate::proofs::Joins::none_left, crate::proofs::Joins::took_line, crate::proofs::Joins::took_front, crate::proofs::Joins::front_kept, crate::proofs::Joins::broke, crate::proofs::Joins::nothing_taken, crate::proofs::Joins::broke_at_once))]
    pub fn next<S: Source>(&mut self, source: &mut S) -> Result<Option<Text>, ReadFault>
        ensures line { IfOk result (λ found. IfSome found (λ line. TakesLine line (lines_left self.old (S.seen source.old).left) (lines_left self.new (S.seen source.new).left))) }
        ensures short { IfOk result (λ found. IfSome found (λ line. length line ≤ LINE_LIMIT)) }
        ensures end { IfOk result (λ found. IfNone found (IsAtEnd (lines_left self.old (S.seen source.old).left))) }
        ensures long { IsErrOf result ReadFault.TooLong → IsTooLong (lines_left self.old (S.seen source.old).left) }
        ensures front { TakesFront (bytes_left self.old (S.seen source.old).left) (bytes_left self.new (S.seen source.new).left) }
        ensures ahead { IsErrOf result ReadFault.Failed → self.new ≡ [] }
        ensures broken { IsErrOf result ReadFault.Failed → BreaksLine (bytes_left self.old (S.seen source.old).left) (bytes_left self.new (S.seen source.new).left) }
        ensures counts { Counts (IsErrOf result ReadFault.Failed) (S.seen source.old).faults (S.seen source.new).faults }
        ensures in_hand { HasLine self.old → source.new ≡ source.old }
    {
        let mut line = Vec::new(self.alloc);
        let mut step = advance(&mut self.window, source, &mut line)?;
        while step == Step::More && line.len() <= LINE_LIMIT {
            step = advance(&mut self.window, source, &mut line)?;
        }
        if line.len() > LINE_LIMIT {
            return Err(ReadFault::TooLong);
        }
        if step == Step::End && line.is_empty() {
            return Ok(None);
        }
        Ok(Some(Text::from_vec(self.alloc, line)?))
    }
}

// Reads ahead where nothing is there: whether bytes are there.
#[tactic(auto, using(crate::proofs::Joins::filled_bytes, crate::proofs::Joins::ended_ahead))]
fn is_ready<S: Source>(window: &mut Window, source: &mut S) -> Result<bool, Failed>
    ensures some { IfOk result (λ some. some ≡ true → 0 < length window.new) }
    ensures end { IfOk result (λ some. some ≡ false → HasEnded (bytes_left window.old (S.seen source.old).left)) }
    ensures same { bytes_left window.new (S.seen source.new).left ≡ bytes_left window.old (S.seen source.old).left }
    ensures ahead { OnErr result (window.new ≡ []) }
    ensures counts { Counts (IsErrOf result (record {})) (S.seen source.old).faults (S.seen source.new).faults }
    ensures sure { 0 < length window.old → result ≡ Ok true }
    ensures kept { 0 < length window.old → window.new ≡ window.old }
    ensures in_hand { 0 < length window.old → source.new ≡ source.old }
{
    if window.rest().is_empty() {
        window.fill(source)
    } else {
        Ok(true)
    }
}

// Takes what is there of the next line, after reading ahead where nothing is there.
#[tactic(auto, using(crate::proofs::Joins::some_in_hand))]
fn advance<S: Source>(
    window: &mut Window,
    source: &mut S,
    line: &mut Vec<u8>,
) -> Result<Step, ReadFault>
    ensures step { IfOk result (λ step. Steps step line.old.items line.new.items (bytes_left window.old (S.seen source.old).left) (bytes_left window.new (S.seen source.new).left)) }
    ensures same { OnErr result (bytes_left window.new (S.seen source.new).left ≡ bytes_left window.old (S.seen source.old).left) }
    ensures ahead { IsErrOf result ReadFault.Failed → window.new ≡ [] }
    ensures never_long { IsErrOf result ReadFault.TooLong → ⊥ }
    ensures counts { Counts (IsErrOf result ReadFault.Failed) (S.seen source.old).faults (S.seen source.new).faults }
    ensures at_once { HasLine window.old → IfOk result (λ step. step ≡ Step.Line) }
    ensures in_hand { HasLine window.old → source.new ≡ source.old }
{
    if !is_ready(window, source)? {
        return Ok(Step::End);
    }
    if window.take_part(line)? {
        Ok(Step::Line)
    } else {
        Ok(Step::More)
    }
}
