//! Threads that wait for one another, at the jobs of analysts and at the points of a run.
ghost use Rattle.std.specs.Prelude.{◌≡◌};

use analyst::Analyst;
use analyst::check_job::CheckJob;
use analyst::source_front::Parse;
use check_values::{Errs, Sig};
use flow_analyst::{FlowAnalyst, FlowAnalysts};
use flow_base::{List, NoMemory, Path, Point, Text, Turnstile};
use job_ends::MergeJob;
use place_analyst::{AnalystMaker, PlaceAnalyst};
use std::hint::spin_loop;
use std::sync::atomic::{AtomicBool, AtomicU64, Ordering};
use type_values::FlowType;

/// No thread waits for more loads.
const MOST_LOADS: u64 = 1_000_000_000;

/// The sources of four modules, and their paths.
pub(crate) const SOURCES: [&str; 4] = [
    "export const n: number = 0;",
    "export const n: number = 1;",
    "export const n: number = 2;",
    "export const n: number = 3;",
];

pub(crate) const PATHS: [&str; 4] = ["0.js", "1.js", "2.js", "3.js"];

/// What a job is known by.
#[derive(Debug, Clone, Copy, PartialEq, Eq)]
pub(crate) enum Known {
    BySource,
    ByPath,
}

/// Who waits for whom.
#[derive(Debug, Clone, Copy, PartialEq, Eq)]
pub(crate) enum Rule {
    /// Nobody waits.
    Open,
    /// Of four jobs one waits until the three others are done, and these wait until it has begun.
    Jobs { known: Known, one: usize },
    /// The poll of this number of the second recheck waits until two asks have come to their point.
    Poll { poll: u32 },
    /// The poll of this number of the second recheck and the first ask each wait for the other.
    PollAndAsk { poll: u32 },
}

// The place of a job among the four.
fn place_of(known: Known, bytes: &[u8]) -> Option<usize> {
    let all = match known {
        Known::BySource => &SOURCES,
        Known::ByPath => &PATHS,
    };
    all.iter().position(|it| it.as_bytes() == bytes)
}

/// Where threads wait for one another. Each counts that it came, and waits for the others, up to a number of loads.
#[derive(Drop)]
pub(crate) struct Meeting {
    rule: Rule,
    // how often a poll of the rule's number was reached
    polls: AtomicU64,
    // how often the one that others wait for has begun, or the poll was reached
    begun: AtomicU64,
    // how many of the others are done, or how many asks have come to their point
    done: AtomicU64,
    // some wait met its bound
    missed: AtomicBool,
}

impl Meeting {
    pub(crate) fn new(rule: Rule) -> Meeting {
        Meeting {
            rule,
            polls: AtomicU64::new(0),
            begun: AtomicU64::new(0),
            done: AtomicU64::new(0),
            missed: AtomicBool::new(false),
        }
    }

    /// Whether all came that are waited for, each once, and no wait met its bound.
    pub(crate) fn has_met(&self) -> bool {
        let (begun, done) = match self.rule {
            Rule::Open => (0, 0),
            Rule::Jobs { .. } => (1, 3),
            Rule::Poll { .. } => (1, 2),
            Rule::PollAndAsk { .. } => (1, 1),
        };
        self.begun.load(Ordering::SeqCst) == begun
            && self.done.load(Ordering::SeqCst) == done
            && !self.missed.load(Ordering::SeqCst)
    }

    // Waits until so many have come.
    fn wait_for(&self, count: &AtomicU64, many: u64) {
        for _ in 0..MOST_LOADS {
            if count.load(Ordering::SeqCst) >= many {
                return;
            }
            spin_loop();
        }
        self.missed.store(true, Ordering::SeqCst);
    }

    // A poll of the rule's number: that of the first recheck, the load's, is passed; at that of the second it waits for so many asks.
    fn reach_poll(&self, asks: u64) {
        if self.polls.fetch_add(1, Ordering::SeqCst) == 1 {
            self.begun.fetch_add(1, Ordering::SeqCst);
            self.wait_for(&self.done, asks);
        }
    }

    // Whether this is the job that the others wait for. For a job that nobody waits for there is no answer.
    fn is_the_one(&self, bytes: &[u8]) -> Option<bool> {
        let Rule::Jobs { known, one } = self.rule else {
            return None;
        };
        let place = place_of(known, bytes)?;
        Some(place == one)
    }

    fn begin(&self, is_the_one: Option<bool>) {
        match is_the_one {
            Some(true) => {
                self.begun.fetch_add(1, Ordering::SeqCst);
                self.wait_for(&self.done, 3);
            }
            Some(false) => self.wait_for(&self.begun, 1),
            None => {}
        }
    }

    fn end(&self, is_the_one: Option<bool>) {
        if is_the_one == Some(false) {
            self.done.fetch_add(1, Ordering::SeqCst);
        }
    }
}

impl Turnstile for Meeting {
    fn at(&self, point: Point) {
        match (self.rule, point) {
            (Rule::Poll { poll }, Point::Poll(number)) if number == poll => self.reach_poll(2),
            (Rule::PollAndAsk { poll }, Point::Poll(number)) if number == poll => self.reach_poll(
                1,
            ),
            (Rule::Poll { .. }, Point::Ask(_)) => {
                self.done.fetch_add(1, Ordering::SeqCst);
            }
            (Rule::PollAndAsk { .. }, Point::Ask(0)) => {
                self.done.fetch_add(1, Ordering::SeqCst);
                self.wait_for(&self.begun, 1);
            }
            _ => {}
        }
    }
}

/// The analyst of the language, who waits at a meeting before each job, and tells there that it is done.
#[derive(Drop)]
pub(crate) struct MeetingAnalyst<'a> {
    inner: FlowAnalyst,
    meeting: &'a Meeting,
}

impl Analyst for MeetingAnalyst<'_> {
    ghost work = { λ a. ⟦<FlowAnalyst as Analyst>⟧.work a.inner };

    ghost bounded = { λ a. record { fronts = a.inner.few_fronts; merges = a.inner.few_merges; checks = a.inner.few_checks } };

    fn front(&mut self, text: &Text) -> Result<Parse, NoMemory> {
        let is_the_one = self.meeting.is_the_one(text.as_bytes());
        self.meeting.begin(is_the_one);
        let parse = self.inner.front(text);
        self.meeting.end(is_the_one);
        parse
    }

    fn merge(&mut self, job: &MergeJob) -> Result<List<Sig>, NoMemory> {
        let path = job
            .members
            .get(0)
            .map_or(b"".as_slice(), |member| member.path.as_bytes());
        let is_the_one = self.meeting.is_the_one(path);
        self.meeting.begin(is_the_one);
        let signatures = self.inner.merge(job);
        self.meeting.end(is_the_one);
        signatures
    }

    fn check(&mut self, job: &CheckJob) -> Result<Errs, NoMemory> {
        let is_the_one = self.meeting.is_the_one(job.path.as_bytes());
        self.meeting.begin(is_the_one);
        let errs = self.inner.check(job);
        self.meeting.end(is_the_one);
        errs
    }
}

impl PlaceAnalyst for MeetingAnalyst<'_> {
    fn type_at(&self, job: &CheckJob, at: u32) -> Result<Option<FlowType>, NoMemory> {
        self.inner.type_at(job, at)
    }
}

/// Makes analysts who wait at a meeting.
#[derive(Clone, Copy)]
pub(crate) struct MeetingAnalysts<'a> {
    pub inner: FlowAnalysts,
    pub meeting: &'a Meeting,
}

impl<'a> AnalystMaker<MeetingAnalyst<'a>> for MeetingAnalysts<'a> {
    fn make(&self) -> MeetingAnalyst<'a> {
        MeetingAnalyst {
            inner: self.inner.make(),
            meeting: self.meeting,
        }
    }
}
