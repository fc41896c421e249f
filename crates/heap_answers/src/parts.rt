//! What one module's entities hold.
ghost use Rattle.std.specs.Prelude.{◌≡◌, ◌⊎◌, Some, None, true, IfOk};
ghost use Rattle.std.specs.Option.{is_some};
ghost use Rattle.asks.specs.Places.{errors_at};
ghost use Rattle.answers_law.specs.Answers.{is_found};
ghost use Rattle.heap_answers.specs.States.{HasPlace, faults_at, specifiers_at, signature_at, signature_of, any_finds};

use crate::rows::{faults_of, specifiers_of};
use asks::Located;
use check_values::{DepRow, RootRow, Sig};
use error_places::locate_errors;
use flow_base::{List, NoMemory, Path};
use flow_values::Shared;
use heap_core::HeapReader;
use payloads::{Payload, deps_entity, errors_entity, signature_entity};
use std::alloc::Global;

/// The errors of a module, with their places.
pub(crate) fn errors_of<R: HeapReader<Payload>>(
    alloc: Global,
    reader: &mut R,
    row: &RootRow,
) -> Result<List<Located>, NoMemory>
    requires { HasPlace (R.state reader.old) row.now }
    ensures errors { IfOk result (λ errors. errors ≡ errors_at row.now.path row.now.text (faults_at (R.state reader.old) row.now.row)) }
    ensures same { (R.at reader.new ≡ R.at reader.old) × (R.state reader.new ≡ R.state reader.old) }
    ensures part { R.part reader.new ≡ R.part reader.old }
{
    let payload = reader.read(errors_entity(row.row))?;
    locate_errors(alloc, &row.path, row.text.as_bytes(), faults_of(&payload))
}

// Whether the module that a specifier finds, if it finds one, is that of a path.
fn is_found(row: &DepRow, path: &Path) -> bool
    ensures { result ≡ is_found path.now row.now.found }
{
    match &row.found {
        Some(found) => found.as_bytes() == path.as_bytes(),
        None => false,
    }
}

// Whether some specifier finds a path.
fn any_finds(rows: &[DepRow], path: &Path) -> bool
    ensures { result ≡ any_finds path.now rows.now }
{
    let mut rest = rows;
    while let [row, more @ ..] = rest {
        if is_found(row, path) {
            return true;
        }
        rest = more;
    }
    false
}

/// Whether some specifier of a module finds a path.
pub(crate) fn imports<R: HeapReader<Payload>>(
    reader: &mut R,
    row: &RootRow,
    path: &Path,
) -> Result<bool, NoMemory>
    requires { HasPlace (R.state reader.old) row.now }
    ensures imports { IfOk result (λ imports. imports ≡ any_finds path.now (specifiers_at (R.state reader.old) row.now.row)) }
    ensures same { (R.at reader.new ≡ R.at reader.old) × (R.state reader.new ≡ R.state reader.old) }
    ensures part { R.part reader.new ≡ R.part reader.old }
{
    let payload = reader.read(deps_entity(row.row))?;
    Ok(any_finds(specifiers_of(&payload), path))
}

// One more owner of a signature.
fn signature_in(payload: &Payload) -> Result<Shared<Sig>, NoMemory>
    requires { is_some (signature_of payload.now) ≡ true }
    ensures { IfOk result (λ sig. signature_of payload.now ≡ Some sig) }
{
    match payload {
        Payload::Sig(sig) => sig.share(),
        Payload::Absent
        | Payload::Root(_)
        | Payload::Parse(_)
        | Payload::Deps(_)
        | Payload::Errs(_) => unreachable!(),
    }
}

/// What a module says to others.
pub(crate) fn signature_of<R: HeapReader<Payload>>(
    reader: &mut R,
    row: &RootRow,
) -> Result<Shared<Sig>, NoMemory>
    requires place { HasPlace (R.state reader.old) row.now }
    requires some { is_some (signature_at (R.state reader.old) row.now.row) ≡ true }
    ensures sig { IfOk result (λ sig. signature_at (R.state reader.old) row.now.row ≡ Some sig) }
    ensures same { (R.at reader.new ≡ R.at reader.old) × (R.state reader.new ≡ R.state reader.old) }
    ensures part { R.part reader.new ≡ R.part reader.old }
{
    let payload = reader.read(signature_entity(row.row))?;
    let sig = signature_in(&payload)?;
    Ok(sig)
}
