ghost use Rattle.std.specs.Prelude.{◌<◌, All, length, IfOk};
ghost use Rattle.graph_search.specs.Searching.{Marks};
ghost use Rattle.recheck_plan.specs.Marks.{AreMarksOf};

use flow_values::NoMemory;
use std::alloc::Global;

// Turns the marks of these numbers on.
fn mark_all(marks: &mut [bool], numbers: &[u32])
    requires { All (λ x. x < length marks.old) numbers.now }
    ensures { Marks numbers.now marks.old marks.new }
{
    for number in numbers {
        marks[*number as usize] = true;
    }
}

/// So many marks, on exactly at these numbers.
pub(crate) fn marks_of(alloc: Global, count: usize, numbers: &[u32]) -> Result<Vec<bool>, NoMemory>
    requires { All (λ x. x < count) numbers.now }
    ensures { IfOk result (λ marks. AreMarksOf count numbers.now marks.items) }
{
    let mut marks = vec![in alloc; false; count]?;
    mark_all(marks.as_mut_slice(), numbers);
    Ok(marks)
}
