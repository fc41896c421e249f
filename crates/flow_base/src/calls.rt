ghost use Rattle.std.specs.Prelude.{◌≡◌, ℕ, ◌+◌, IsTrue, ◌↔◌, Contains};
ghost use Rattle.flow_base.specs.Causes.{raised};

use crate::List;

/// The numbers of the calls that fail, counted from 1, and how many calls were made.
#[derive(Debug, Drop)]
pub struct Calls {
    /// The numbers of the calls that fail.
    pub failing: List<u64>,
    /// The number of calls that were made, up to 2^64 - 1.
    pub made: u64,
}

impl Calls {
    /// No call is made yet.
    pub fn new(failing: List<u64>) -> Calls
        ensures failing { result.failing ≡ failing }
        ensures made { result.made ≡ 0 }
    {
        Calls { failing, made: 0 }
    }

    /// Counts a call, and tells whether it is one of those that fail.
    pub fn count(&mut self) -> bool
        ensures listed { IsTrue result ↔ Contains self.new.failing self.new.made }
        ensures made { self.new.made ≡ raised self.old.made }
        ensures failing { self.new.failing ≡ self.old.failing }
    {
        self.made = self.made.saturating_add(1);
        self.failing.as_slice().contains(&self.made)
    }
}
