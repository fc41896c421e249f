//! Where the modules of a root stand, most of them found at one look.
ghost use Rattle.std.specs.Prelude.{◌≡◌, ◌<◌, ◌^◌, IfSome, IsTrue, Some, length};
ghost use Rattle.flow_values.specs.Path.{IsRising};
ghost use Rattle.check_values.specs.Roots.{paths_of_rows};
ghost use Rattle.dep_lists.specs.Looking.{IsPlaceOf};

use check_values::RootRow;
use flow_values::{NoMemory, Path};
use pending_edits::place_of;
use std::alloc::Global;

// The slots for each module: with four of them, most modules have one of their own.
const SLOTS: usize = 4;

/// For each sum of a path's bytes the number of the last module with that sum. What is found by it is compared, so nothing rests on it but
/// the time.
#[derive(Drop)]
pub(crate) struct Hints {
    numbers: Vec<u32>,
}

// The sum of a path's bytes, as one of so many: that of Fowler, Noll and Vo with 32 bits.
fn slot_of(path: &Path, slots: usize) -> usize {
    let mut sum = 2_166_136_261u32;
    for byte in path.as_bytes() {
        sum = (sum ^ *byte as u32).wrapping_mul(16_777_619);
    }
    sum as usize % usize::max(1, slots)
}

impl Hints {
    /// The hints to the modules of a root.
    ///
    /// # Errors
    ///
    /// `NoMemory` where memory is refused.
    pub fn of(alloc: Global, rows: &[RootRow]) -> Result<Hints, NoMemory>
        requires { length rows.now < 2 ^ 32 }
    {
        let slots = rows.len().saturating_mul(SLOTS);
        let mut numbers = vec![in alloc; 0u32; slots]?;
        for i in 0..rows.len() {
            if let Some(number) = numbers.get_mut(slot_of(&rows[i].path, slots)) {
                *number = i as u32;
            }
        }
        Ok(Hints { numbers })
    }

    // Where a path may stand.
    fn at(&self, path: &Path) -> usize {
        match self.numbers.get(slot_of(path, self.numbers.len())) {
            Some(number) => *number as usize,
            None => 0,
        }
    }
}

// Whether the row of a path stands at a place.
fn stands_at(rows: &[RootRow], at: usize, path: &Path) -> bool
    ensures { IsTrue result → IsPlaceOf rows.now path.now (Some at) }
{
    match rows.get(at) {
        Some(row) => row.path.equals(path),
        None => false,
    }
}

/// Where a path stands among the modules of a root, if it is one of them: where the hints say, or else by halving.
pub(crate) fn place_by(hints: &Hints, rows: &[RootRow], path: &Path) -> Option<usize>
    requires { IsRising (paths_of_rows rows.now) }
    ensures place { IsPlaceOf rows.now path.now result }
    ensures within { IfSome result (λ at. at < length rows.now) }
{
    let at = hints.at(path);
    if stands_at(rows, at, path) {
        return Some(at);
    }
    place_of(rows, path)
}
