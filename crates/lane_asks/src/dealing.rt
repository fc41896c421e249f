ghost use Rattle.std.specs.Prelude.{◌≡◌, ◌<◌, IfOk, length};
ghost use Rattle.lane_asks.specs.Dealing.{AreOpen, AreRows, AreFull};

use flow_values::NoMemory;
use std::alloc::Global;
use std::collections::VecDeque;

/// A row of answers: what was answered at a place of so many, in order.
#[derive(Drop)]
pub struct Row<X> {
    pub alloc: Global,
    pub place: usize,
    pub many: usize,
    pub told: VecDeque<X>,
}

/// A row with nothing in it for each of so many places.
///
/// # Errors
///
/// `NoMemory` where memory is refused.
pub fn open_rows<X: Drop>(alloc: Global, many: usize) -> Result<Vec<Row<X>>, NoMemory>
    ensures many { IfOk result (λ rows. length rows.items ≡ many) }
    ensures open { IfOk result (λ rows. AreOpen rows.items) }
{
    let mut rows = Vec::new(alloc);
    for place in 0..many {
        rows.push(Row {
            alloc,
            place,
            many,
            told: VecDeque::new(alloc),
        })?;
    }
    Ok(rows)
}

/// Puts the elements of some rows back in the order in which they were dealt out.
///
/// # Errors
///
/// `NoMemory` where memory is refused.
pub fn gather<Q, X: Drop>(
    alloc: Global,
    mut rows: Vec<Row<X>>,
    asks: &[Q],
) -> Result<Vec<X>, NoMemory>
    requires some { 0 < length rows.items }
    requires full { AreFull asks.now rows.items }
    ensures many { IfOk result (λ all. length all.items ≡ length asks.now) }
    ensures rows { IfOk result (λ all. AreRows all.items rows.items) }
{
    let count = rows.len();
    let mut all = Vec::new(alloc);
    for i in 0..asks.len() {
        match rows[i % count].told.pop_front() {
            Some(next) => all.push(next)?,
            None => unreachable!(),
        }
    }
    Ok(all)
}
