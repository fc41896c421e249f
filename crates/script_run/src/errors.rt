ghost use Rattle.std.specs.Prelude.{◌≡◌, ◌+◌, ◌<◌, ◌^◌, length, IfOk};
ghost use Rattle.std.specs.List.{AllByRecursion};
ghost use Rattle.script_run.specs.Checked.{HasErrorCount};
ghost use Rattle.script_run.specs.Session.{HasPlace, program_in, modules_of, faults_of, faults_at, count_in};

use check_values::{Fault, RootRow};
use flow_base::NoMemory;
use heap_core::HeapReader;
use payloads::{Payload, errors_entity};
use program_check::one_full;

/// The number of errors of the program that a reader reads.
pub fn count_errors<R: HeapReader<Payload>>(reader: &mut R) -> Result<u64, NoMemory>
    requires { length (R.state reader.old) < 2 ^ 32 }
    ensures { IfOk result (HasErrorCount (program_in (R.state reader.old))) }
{
    one_full();
    let root = reader.root()?;
    count_all(reader, modules_of(&root))
}

// The modules of a root.
fn modules_of(payload: &Payload) -> &[RootRow]
    ensures { result.now ≡ modules_of payload.now }
{
    match payload {
        Payload::Root(root) => root.get().modules.as_slice(),
        Payload::Absent
        | Payload::Parse(_)
        | Payload::Deps(_)
        | Payload::Sig(_)
        | Payload::Errs(_) => &[],
    }
}

// The faults of a module's entity.
fn faults_of(payload: &Payload) -> &[Fault]
    ensures { result.now ≡ faults_of payload.now }
{
    match payload {
        Payload::Errs(errs) => errs.get().faults.as_slice(),
        Payload::Absent
        | Payload::Root(_)
        | Payload::Parse(_)
        | Payload::Deps(_)
        | Payload::Sig(_) => &[],
    }
}

// The number of errors of a module.
fn count_of<R: HeapReader<Payload>>(reader: &mut R, row: &RootRow) -> Result<u64, NoMemory>
    requires { HasPlace (R.state reader.old) row.now }
    ensures count { IfOk result (λ count. count ≡ length (faults_at (R.state reader.old) row.now.row)) }
    ensures same { R.state reader.new ≡ R.state reader.old }
{
    let payload = reader.read(errors_entity(row.row))?;
    Ok(faults_of(&payload).len() as u64)
}

// The number of errors of modules.
fn count_all<R: HeapReader<Payload>>(reader: &mut R, modules: &[RootRow]) -> Result<u64, NoMemory>
    requires { AllByRecursion (HasPlace (R.state reader.old)) modules.now }
    ensures count { IfOk result (λ count. count ≡ count_in (R.state reader.old) modules.now) }
    ensures same { R.state reader.new ≡ R.state reader.old }
{
    let mut count: u64 = 0;
    let mut rest = modules;
    while let [row, more @ ..] = rest {
        let errors = count_of(reader, row)?;
        // A count past its type's end would be of more faults than memory held at any time.
        count = count.checked_add(errors).ok_or(NoMemory)?;
        rest = more;
    }
    Ok(count)
}
