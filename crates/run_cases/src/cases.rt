//! Cases of the whole program: over which folder, which words, which script, and what it must write.
use crate::calls::test;
use crate::meeting::{Known, Meeting, MeetingAnalyst, MeetingAnalysts, Rule};
use crate::outside::{TestFolder, TestSink, TestSource};
use flow_analyst::FlowAnalysts;
use flow_base::{List, MemFolder, MemSink, MemSource, NoMemory, Path, PathFault, Text};
use flowd_top::{Status, flowd};
use std::alloc::Global;
use std::fmt::Write;
use std::sync::Wait;
use std::thread::Threads;

/// No object is called more often in a case.
const MOST_CALLS: u64 = 1_000;

/// What came of a case.
#[derive(Debug, Drop)]
enum Verdict {
    Right,
    Wrong(String),
}

// Right, or what else came.
fn judged(alloc: Global, right: bool, came: &str) -> Result<Verdict, NoMemory> {
    if right {
        Ok(Verdict::Right)
    } else {
        Ok(Verdict::Wrong(String::from_str(alloc, came)?))
    }
}

/// What goes wrong in a case, at the calls of which object.
#[derive(Debug, Clone, Copy, PartialEq, Eq)]
enum Fault {
    Nothing,
    FolderFails,
    FolderRefuses,
    SourceFails,
    SinkFails,
    SinkRefuses,
}

impl Fault {
    fn read(object: &str, how: &str) -> Fault {
        match (object, how) {
            ("folder", "fails") => Fault::FolderFails,
            ("folder", "refuses") => Fault::FolderRefuses,
            ("source", "fails") => Fault::SourceFails,
            ("sink", "fails") => Fault::SinkFails,
            ("sink", "refuses") => Fault::SinkRefuses,
            _ => Fault::Nothing,
        }
    }

    // How a run ends at a call that goes wrong, where it does not go on.
    fn status(self) -> u8 {
        match self {
            Fault::Nothing => 0,
            Fault::FolderFails => 66,
            Fault::SourceFails => 67,
            Fault::SinkFails => 68,
            Fault::FolderRefuses | Fault::SinkRefuses => 70,
        }
    }
}

/// A module of the folder.
#[derive(Drop)]
struct File {
    path: String,
    text: Vec<u8>,
    // whether its first line is there
    begun: bool,
}

/// What the program runs over.
#[derive(Drop)]
struct Ends {
    folder: TestFolder,
    script: TestSource,
    out: TestSink,
}

impl Ends {
    // How often the object that goes wrong was called.
    fn calls(&self, fault: Fault) -> u64 {
        match fault {
            Fault::Nothing => 0,
            Fault::FolderFails => self.folder.inner.calls.made,
            Fault::FolderRefuses => self.folder.refused.made,
            Fault::SourceFails => self.script.calls(),
            Fault::SinkFails => self.out.inner.calls(),
            Fault::SinkRefuses => self.out.refused.made,
        }
    }
}

/// What one run of the program left.
#[derive(Drop)]
struct Left {
    status: Status,
    written: List<u8>,
    // how often the object that goes wrong was called
    calls: u64,
    // all that were to wait for one another met
    met: bool,
    // the version of the server that is kept, and how often each lane has pinned, with the version that it has seen last
    kept: String,
}

/// The folder, which stays from case to case, and the case that is being read.
#[derive(Drop)]
pub(crate) struct CaseReader {
    alloc: Global,
    files: Vec<File>,
    name: String,
    words: Vec<String>,
    script: Vec<u8>,
    wanted: Vec<u8>,
    fault: Fault,
    // the number of the call that goes wrong, or 0 for each in turn
    at: u64,
    step: Option<usize>,
    rule: Rule,
    // what the kept server must be, where the case says it
    kept: Option<String>,
}

fn number(word: &str) -> u64 {
    word.parse::<u64>().unwrap_or(0)
}

// Who waits for whom.
fn rule_of(words: &str) -> Rule {
    let (word, at) = words.split_once(' ').unwrap_or((words, ""));
    let at = at.parse::<u32>().unwrap_or(0);
    match word {
        "sources" => Rule::Jobs {
            known: Known::BySource,
            one: at as usize,
        },
        "poll" => Rule::Poll { poll: at },
        "flags" => Rule::PollAndAsk { poll: at },
        _ => Rule::Open,
    }
}

// Appends bytes and an LF.
fn push_line(bytes: &mut Vec<u8>, text: &str) -> Result<(), NoMemory> {
    bytes.extend_from_slice(text.as_bytes())?;
    bytes.push(b'\n')?;
    Ok(())
}

// Appends so many copies of the bytes.
fn push_often(bytes: &mut Vec<u8>, times: u64, piece: &[u8]) -> Result<(), NoMemory> {
    for _ in 0..times {
        bytes.extend_from_slice(piece)?;
    }
    Ok(())
}

// A list of this number, if it is to be there.
fn numbers(alloc: Global, there: bool, at: u64) -> Result<List<u64>, NoMemory> {
    let mut all = List::new(alloc);
    if there {
        all.push(at)?;
    }
    Ok(all)
}

pub(crate) fn path_of(alloc: Global, path: &str) -> Result<Path, NoMemory> {
    match Path::read(alloc, path.as_bytes()) {
        Ok(path) => Ok(path),
        Err(PathFault::BadPath | PathFault::NoMemory) => Err(NoMemory),
    }
}

impl CaseReader {
    pub(crate) fn new(alloc: Global) -> CaseReader {
        CaseReader {
            alloc,
            files: Vec::new(alloc),
            name: String::new(alloc),
            words: Vec::new(alloc),
            script: Vec::new(alloc),
            wanted: Vec::new(alloc),
            fault: Fault::Nothing,
            at: 0,
            step: None,
            rule: Rule::Open,
            kept: None,
        }
    }

    // Takes a line that belongs to a case.
    fn take(&mut self, line: &str) -> Result<(), NoMemory> {
        if let Some(text) = line.strip_prefix("|") {
            self.add_line(text)
        } else if let Some(text) = line.strip_prefix("+") {
            self.add_text(1, text)
        } else if let Some(text) = line.strip_prefix(">") {
            push_line(&mut self.script, text)
        } else if let Some(text) = line.strip_prefix("<") {
            push_line(&mut self.wanted, text)
        } else {
            let (word, rest) = line.split_once(' ').unwrap_or((line, ""));
            self.take_word(word, rest)
        }
    }

    fn take_word(&mut self, word: &str, rest: &str) -> Result<(), NoMemory> {
        match word {
            "folder" => self.files.clear(),
            "file" => {
                let path = String::from_str(self.alloc, rest)?;
                self.add_file(path)?;
            }
            "times" => {
                let (times, piece) = rest.split_once(' ').unwrap_or((rest, ""));
                self.add_text(number(times), piece)?;
            }
            "case" => self.begin(rest)?,
            "words" => self.add_words(rest)?,
            "bytes" => {
                let (times, byte) = rest.split_once(' ').unwrap_or((rest, ""));
                self.add_bytes(number(times), byte)?;
            }
            "step" => self.step = rest.parse::<usize>().ok(),
            "goes" => self.take_fault(rest),
            "waits" => self.rule = rule_of(rest),
            "kept" => self.kept = Some(String::from_str(self.alloc, rest)?),
            _ => {}
        }
        Ok(())
    }

    // Begins a case over the folder that is there.
    fn begin(&mut self, name: &str) -> Result<(), NoMemory> {
        self.name = String::from_str(self.alloc, name)?;
        self.words = Vec::new(self.alloc);
        self.words.push(String::from_str(self.alloc, "d")?)?;
        self.script = Vec::new(self.alloc);
        self.wanted = Vec::new(self.alloc);
        self.fault = Fault::Nothing;
        self.at = 0;
        self.step = None;
        self.rule = Rule::Open;
        self.kept = None;
        Ok(())
    }

    fn add_file(&mut self, path: String) -> Result<(), NoMemory> {
        let text = Vec::new(self.alloc);
        self.files.push(File {
            path,
            text,
            begun: false,
        })?;
        Ok(())
    }

    // A line more of the last file; an LF stands between two lines.
    fn add_line(&mut self, text: &str) -> Result<(), NoMemory> {
        if let Some(file) = self.files.last_mut() {
            if file.begun {
                file.text.push(b'\n')?;
            }
            file.begun = true;
            file.text.extend_from_slice(text.as_bytes())?;
        }
        Ok(())
    }

    // So many copies of a piece at the end of the last file.
    fn add_text(&mut self, times: u64, piece: &str) -> Result<(), NoMemory> {
        match self.files.last_mut() {
            Some(file) => push_often(&mut file.text, times, piece.as_bytes()),
            None => Ok(()),
        }
    }

    // So many copies of a byte at the end of the script.
    fn add_bytes(&mut self, times: u64, byte: &str) -> Result<(), NoMemory> {
        let byte = byte.parse::<u8>().unwrap_or(0);
        push_often(&mut self.script, times, &[byte])
    }

    fn add_words(&mut self, words: &str) -> Result<(), NoMemory> {
        self.words = Vec::new(self.alloc);
        for word in words.split_whitespace() {
            self.words.push(String::from_str(self.alloc, word)?)?;
        }
        Ok(())
    }

    fn take_fault(&mut self, rest: &str) {
        let mut words = rest.split_whitespace();
        let object = words.next().unwrap_or("");
        let how = words.next().unwrap_or("");
        self.fault = Fault::read(object, how);
        self.at = number(words.next().unwrap_or(""));
    }

    fn folder(&self) -> Result<Option<MemFolder>, NoMemory> {
        let mut rows = List::new(self.alloc);
        for file in self.files.iter() {
            let path = path_of(self.alloc, file.path.as_str())?;
            let text = Text::from_bytes(self.alloc, file.text.as_slice())?;
            rows.push((path, text))?;
        }
        Ok(MemFolder::new(self.alloc, rows))
    }

    fn numbers(&self, fault: Fault, at: u64) -> Result<List<u64>, NoMemory> {
        numbers(self.alloc, self.fault == fault, at)
    }

    // What the program runs over, where the call of this number goes wrong.
    fn ends(&self, folder: MemFolder, at: u64) -> Result<Ends, NoMemory> {
        let fails = self.numbers(Fault::FolderFails, at)?;
        let refuses = self.numbers(Fault::FolderRefuses, at)?;
        let folder = TestFolder::new(folder, fails, refuses);
        let script = MemSource::new(List::from_slice(self.alloc, self.script.as_slice())?);
        let fails = self.numbers(Fault::SourceFails, at)?;
        let script = TestSource::new(script, fails, self.step);
        let fails = self.numbers(Fault::SinkFails, at)?;
        let refuses = self.numbers(Fault::SinkRefuses, at)?;
        let out = TestSink::new(MemSink::new(self.alloc), fails, refuses, self.step);
        Ok(Ends {
            folder,
            script,
            out,
        })
    }

    // Runs the program over these ends, with analysts who wait at this meeting. Of the server that is kept it tells the version, and of
    // each lane how often it has pinned and which version it has seen last.
    fn run_over<'a, R: Threads + Wait + Sync>(
        &self,
        rt: &R,
        ends: &mut Ends,
        meeting: &'a Meeting,
    ) -> Result<(Status, String), NoMemory> {
        let maker = MeetingAnalysts {
            inner: FlowAnalysts::new(self.alloc),
            meeting,
        };
        let mut kept = None;
        let status = flowd::<
            R,
            TestFolder,
            TestSource,
            TestSink,
            Meeting,
            MeetingAnalyst<'a>,
            MeetingAnalysts<'a>,
        >(
            rt,
            self.alloc,
            self.words.as_slice(),
            &maker,
            &mut ends.folder,
            &mut ends.script,
            &mut ends.out,
            meeting,
            &mut kept,
        );
        let mut told = String::new(self.alloc);
        if let Some(server) = &kept {
            write!(told, "{}", server.version())?;
            for lane in server.lanes.as_slice() {
                write!(told, " {}/{}", lane.pins(), lane.seen())?;
            }
        }
        Ok((status, told))
    }

    // Runs the program, where the call of this number goes wrong.
    fn run<R: Threads + Wait + Sync>(
        &self,
        rt: &R,
        folder: MemFolder,
        at: u64,
    ) -> Result<Left, NoMemory> {
        let mut ends = self.ends(folder, at)?;
        let meeting = Meeting::new(self.rule);
        let (status, kept) = self.run_over(rt, &mut ends, &meeting)?;
        let written = ends.out.inner.bytes();
        Ok(Left {
            status,
            written: List::from_slice(self.alloc, written)?,
            calls: ends.calls(self.fault),
            met: meeting.has_met(),
            kept,
        })
    }

    // Whether a run left all that is wanted, with this status.
    fn is_whole(&self, left: &Left, status: u8) -> bool {
        let is_kept = match &self.kept {
            Some(kept) => kept.as_str() == left.kept.as_str(),
            None => true,
        };
        let is_written = left.written.as_slice() == self.wanted.as_slice();
        left.status.number() == status && is_written && left.met && is_kept
    }

    // Whether a run ended at the call that goes wrong, and wrote a front of what is wanted.
    fn is_front(&self, left: &Left, at: u64) -> bool {
        let is_front = self.wanted.as_slice().starts_with(left.written.as_slice());
        is_front && left.status.number() == self.fault.status() && left.calls == at
    }

    // What a run left, as a verdict shows it.
    fn shown(&self, left: &Left, at: u64) -> Result<String, NoMemory> {
        let status = left.status.number();
        let bytes = left.written.as_slice();
        let calls = left.calls;
        match str::from_utf8(bytes) {
            Ok(text) => Ok(format!(in self.alloc;
                "call {at} of {calls}, status {status}, {text:?}"
            )?),
            Err(_) => Ok(format!(in self.alloc;
                "call {at} of {calls}, status {status}, {bytes:?}"
            )?),
        }
    }

    fn judge(&self, right: bool, left: &Left, at: u64) -> Result<Verdict, NoMemory> {
        if right {
            Ok(Verdict::Right)
        } else {
            Ok(Verdict::Wrong(self.shown(left, at)?))
        }
    }

    // Runs the case with each call in turn that goes wrong, until there is none of that number.
    fn run_each<R: Threads + Wait + Sync>(&self, rt: &R, status: u8) -> Result<Verdict, NoMemory> {
        for at in 1..=MOST_CALLS {
            let Some(folder) = self.folder()? else {
                return judged(self.alloc, false, "the paths do not rise");
            };
            let left = self.run(rt, folder, at)?;
            if left.calls < at {
                return self.judge(self.is_whole(&left, status), &left, at);
            }
            if !self.is_front(&left, at) {
                return self.judge(false, &left, at);
            }
        }
        judged(self.alloc, false, "there is no end")
    }

    // Runs the case once.
    fn run_once<R: Threads + Wait + Sync>(&self, rt: &R, status: u8) -> Result<Verdict, NoMemory> {
        let Some(folder) = self.folder()? else {
            return judged(self.alloc, false, "the paths do not rise");
        };
        let left = self.run(rt, folder, self.at)?;
        self.judge(self.is_whole(&left, status), &left, self.at)
    }

    // What came of the case, whose run must end with this status.
    fn end<R: Threads + Wait + Sync>(&self, rt: &R, status: &str) -> Result<Verdict, NoMemory> {
        let status = status.parse::<u8>().unwrap_or(255);
        if self.fault != Fault::Nothing && self.at == 0 {
            self.run_each(rt, status)
        } else {
            self.run_once(rt, status)
        }
    }

    // What came of a test of calls below the program.
    fn test<R: Threads + Wait + Sync>(&self, rt: &R, name: &str) -> Result<Verdict, NoMemory> {
        let Some(folder) = self.folder()? else {
            return judged(self.alloc, false, "the paths do not rise");
        };
        let came = test(rt, self.alloc, name, folder)?;
        let right = came.as_bytes() == self.wanted.as_slice();
        judged(self.alloc, right, came.as_str())
    }

    /// Takes a line, and gives what is told of the case that it ends.
    pub(crate) fn answer<R: Threads + Wait + Sync>(
        &mut self,
        rt: &R,
        line: &str,
    ) -> Result<Option<String>, NoMemory> {
        let verdict = if let Some(status) = line.strip_prefix("status ") {
            self.end(rt, status)?
        } else if let Some(name) = line.strip_prefix("test ") {
            self.test(rt, name)?
        } else {
            self.take(line)?;
            return Ok(None);
        };
        let name = self.name.as_str();
        match verdict {
            Verdict::Right => Ok(Some(format!(in self.alloc; "ok: {name}")?)),
            Verdict::Wrong(came) => Ok(Some(format!(in self.alloc; "wrong: {name}: {came}")?)),
        }
    }
}
