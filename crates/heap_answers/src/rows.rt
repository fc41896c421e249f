//! The modules of a root.
ghost use Rattle.std.specs.Prelude.{◌≡◌, ◌<◌, IfSome, IsTrue, length};
ghost use Rattle.flow_base.specs.Program.{IsRising};
ghost use Rattle.check_values.specs.Roots.{paths_of_rows};
ghost use Rattle.dep_lists.specs.Looking.{IsPlaceOf};
ghost use Rattle.heap_answers.specs.States.{is_root, modules_of, faults_of, specifiers_of};
ghost use Rattle.payloads.specs.declared.payload.Payload.TheVariants as the_payload;

use check_values::{DepRow, Fault, Root, RootRow};
use flow_base::Path;
use payloads::Payload;

/// The modules of a root.
pub(crate) fn modules_of(payload: &Payload) -> &[RootRow]
    ensures { result.now ≡ modules_of payload.now }
{
    match payload {
        Payload::Root(root) => root.get().modules.as_slice(),
        Payload::Absent
        | Payload::Parse(_)
        | Payload::Deps(_)
        | Payload::Sig(_)
        | Payload::Errs(_) => &[],
    }
}

/// The root that a payload is.
pub(crate) fn root_of(payload: &Payload) -> &Root
    requires { IsTrue (is_root payload.now) }
    ensures { payload.now ≡ the_payload.Root result.now }
{
    match payload {
        Payload::Root(root) => root.get(),
        Payload::Absent
        | Payload::Parse(_)
        | Payload::Deps(_)
        | Payload::Sig(_)
        | Payload::Errs(_) => unreachable!(),
    }
}

/// The faults of a module's errors.
pub(crate) fn faults_of(payload: &Payload) -> &[Fault]
    ensures { result.now ≡ faults_of payload.now }
{
    match payload {
        Payload::Errs(errs) => errs.get().faults.as_slice(),
        Payload::Absent
        | Payload::Root(_)
        | Payload::Parse(_)
        | Payload::Deps(_)
        | Payload::Sig(_) => &[],
    }
}

/// The specifiers of a module.
pub(crate) fn specifiers_of(payload: &Payload) -> &[DepRow]
    ensures { result.now ≡ specifiers_of payload.now }
{
    match payload {
        Payload::Deps(deps) => deps.get().rows.as_slice(),
        Payload::Absent
        | Payload::Root(_)
        | Payload::Parse(_)
        | Payload::Sig(_)
        | Payload::Errs(_) => &[],
    }
}

// Where the bytes of a path stand among rows whose paths rise.
fn place_of(rows: &[RootRow], bytes: &[u8]) -> Option<usize>
    requires { IsRising (paths_of_rows rows.now) }
    ensures place { IsPlaceOf rows.now bytes.now result }
    ensures within { IfSome result (λ at. at < length rows.now) }
{
    rows.binary_search_by(|row| row.path.as_bytes().cmp(bytes))
        .ok()
}

/// Where a path stands among rows whose paths rise.
pub(crate) fn place_in(rows: &[RootRow], path: &Path) -> Option<usize>
    requires { IsRising (paths_of_rows rows.now) }
    ensures place { IsPlaceOf rows.now path.now result }
    ensures within { IfSome result (λ at. at < length rows.now) }
{
    place_of(rows, path.as_bytes())
}
