ghost use Rattle.std.specs.Prelude.{◌≡◌, IfOk};
ghost use Rattle.asks.specs.Places.{errors_at};

use crate::places::{Place, locate, start};
use asks::Located;
use check_values::Fault;
use flow_values::{List, NoMemory, Path};
use std::alloc::Global;

// An error that stands at a place of the module at a path.
fn located(path: &Path, place: Place, fault: &Fault) -> Result<Located, NoMemory>
    ensures { IfOk result (λ e. (e.path ≡ path.now) × (e.line ≡ place.line) × (e.column ≡ place.column) × (e.code ≡ fault.now.code) × (e.details ≡ fault.now.details)) }
{
    Ok(Located {
        path: path.share()?,
        line: place.line,
        column: place.column,
        code: fault.code,
        details: fault.details.share()?,
    })
}

/// The errors of the module at a path, which has this text, with their places. It takes time in
/// proportion to the text and the errors where these stand in the order of their places.
///
/// # Errors
///
/// `NoMemory` where memory is refused.
#[tactic(auto, using(crate::proofs::Steps::is_located))]
pub fn locate_errors(
    alloc: Global,
    path: &Path,
    text: &[u8],
    faults: &[Fault],
) -> Result<List<Located>, NoMemory>
    ensures { IfOk result (λ errors. errors ≡ errors_at path.now text.now faults.now) }
{
    let mut errors = Vec::new(alloc);
    let mut known = start();
    for i in 0..faults.len() {
        let fault = &faults[i];
        known = locate(text, known, fault.span.start);
        errors.push(located(path, known, fault)?)?;
    }
    Ok(List::from_vec(errors))
}
