ghost use Rattle.std.specs.Prelude.{◌≡◌, ◌==◌, ◌≤◌, ◌<◌, ◌+◌, [], ◌∷◌, ◌++◌, ℕ, List, length, position, IfSome, IfOk, OnErr, IsErrOf, IsTrue, ◌↔◌, take, drop, Ok, Err, true, false, Option};
ghost use Rattle.std.specs.Option.{option_map};
ghost use Rattle.flow_base.specs.Outside.{WhereTold};
ghost use Rattle.flow_base.specs.Causes.{Counts};
ghost use Rattle.script_reader.specs.Lines.{FEED, HasNoFeed};
ghost use Rattle.script_reader.specs.Window.{TakesPart};

use flow_base::{Failed, NoMemory, Source};
use std::alloc::Global;
use std::marker::Model;

const WINDOW_BYTES: usize = 65_536;

/// Bytes that were read ahead. Contracts see those that were not taken yet.
#[derive(Debug, Drop)]
pub struct Window {
    bytes: Vec<u8>,
    start: usize,
    end: usize,
}

impl Model for Window {
    ghost use Rattle.std.specs.Prelude.{List, ℕ, take, drop, length, ◌-◌, ◌≤◌, ◌<◌};

    ghost Value = { List ℕ };

    ghost view = { λ w. take (w.end - w.start) (drop w.start w.bytes.items) };

    ghost invariant = { λ w. (w.start ≤ w.end) × (w.end ≤ length w.bytes.items) × (0 < length w.bytes.items) };
}

impl Window {
    /// A window on nothing yet.
    pub fn new(alloc: Global) -> Result<Window, NoMemory>
        ensures { IfOk result (λ window. window ≡ []) }
    {
        Ok(Window {
            bytes: vec![in alloc; 0u8; WINDOW_BYTES]?,
            start: 0,
            end: 0,
        })
    }

    /// The bytes that were not taken yet.
    pub fn rest(&self) -> &[u8]
        ensures { result.now ≡ self.now }
    {
        &self.bytes[self.start..self.end]
    }

    /// Reads ahead where nothing is left here: whether there was anything to read.
    #[tactic(auto, using(crate::proofs::Windows::filled))]
    pub fn fill<S: Source>(&mut self, source: &mut S) -> Result<bool, Failed>
        requires { self.old ≡ [] }
        ensures more { (S.seen source.old).left ≡ option_map (λ left. self.new ++ left) (S.seen source.new).left }
        ensures some { IfOk result (λ some. some ≡ true → 0 < length self.new) }
        ensures end { IfOk result (λ some. some ≡ false → (self.new ≡ []) × WhereTold (S.seen source.old).left (λ left. left ≡ [])) }
        ensures err { OnErr result (self.new ≡ []) }
        ensures counts { Counts (IsErrOf result (record {})) (S.seen source.old).faults (S.seen source.new).faults }
    {
        self.start = 0;
        self.end = 0;
        let count = source.read(self.bytes.as_mut_slice())?;
        self.end = count;
        Ok(count > 0)
    }

    /// Takes the bytes before the next LF, and the LF, or all where there is none: they go behind
    /// `line`, without the LF. Answers whether there was one.
    pub fn take_part(&mut self, line: &mut Vec<u8>) -> Result<bool, NoMemory>
        ensures part { IfOk result (TakesPart self.old self.new line.old.items line.new.items) }
        ensures same { OnErr result (self.new ≡ self.old) }
    {
        let rest = self.rest();
        match first_feed(rest) {
            Some(at) => {
                line.extend_from_slice(&rest[..at])?;
                self.start = self.start + at + 1;
                Ok(true)
            }
            None => {
                line.extend_from_slice(rest)?;
                self.start = self.end;
                Ok(false)
            }
        }
    }
}

fn first_feed(bytes: &[u8]) -> Option<usize>
    ensures place { result ≡ position (λ b. b == FEED) bytes.now }
    ensures within { IfSome result (λ at. at < length bytes.now) }
{
    bytes.iter().position(|b| *b == b'\n')
}
