//! What payloads hold, and the modules of a root.
ghost use Rattle.std.specs.Prelude.{◌≡◌, ◌<◌, Some, IfOk, IfSome, IsTrue, true, length};
ghost use Rattle.std.specs.Option.{is_some};
ghost use Rattle.flow_base.specs.Program.{IsRising};
ghost use Rattle.check_values.specs.Roots.{paths_of_rows};
ghost use Rattle.dep_lists.specs.Looking.{IsPlaceOf};
ghost use Rattle.heap_answers.specs.States.{is_root, signature_of};
ghost use Rattle.heap_answers.specs.payloads.specs.declared.payload.Payload.TheVariants as the_payload;
ghost use Rattle.request_core.specs.States.{parse_of, deps_of};

use check_values::{Deps, Root, RootRow, Sig};
use flow_base::Path;
use flow_values::{NoMemory, Shared};
use heap_answers::payloads::Payload;
use place_analyst::source_front::Parse;

/// The root that a payload is.
pub(crate) fn root_of(payload: &Payload) -> &Root
    requires { IsTrue (is_root payload.now) }
    ensures { payload.now ≡ the_payload.Root result.now }
{
    match payload {
        Payload::Root(root) => root.get(),
        Payload::Absent
        | Payload::Parse(_)
        | Payload::Deps(_)
        | Payload::Sig(_)
        | Payload::Errs(_) => unreachable!(),
    }
}

/// One more owner of what a module's source says by itself.
pub(crate) fn parse_in(payload: &Payload) -> Result<Shared<Parse>, NoMemory>
    requires { is_some (parse_of payload.now) ≡ true }
    ensures { IfOk result (λ parse. parse_of payload.now ≡ Some parse) }
{
    match payload {
        Payload::Parse(parse) => parse.share(),
        Payload::Absent
        | Payload::Root(_)
        | Payload::Deps(_)
        | Payload::Sig(_)
        | Payload::Errs(_) => unreachable!(),
    }
}

/// One more owner of a dependency list.
pub(crate) fn deps_in(payload: &Payload) -> Result<Shared<Deps>, NoMemory>
    requires { is_some (deps_of payload.now) ≡ true }
    ensures { IfOk result (λ deps. deps_of payload.now ≡ Some deps) }
{
    match payload {
        Payload::Deps(deps) => deps.share(),
        Payload::Absent
        | Payload::Root(_)
        | Payload::Parse(_)
        | Payload::Sig(_)
        | Payload::Errs(_) => unreachable!(),
    }
}

/// One more owner of a signature, where the payload is one.
pub(crate) fn signature_in(payload: &Payload) -> Result<Option<Shared<Sig>>, NoMemory>
    ensures { IfOk result (λ sig. sig ≡ signature_of payload.now) }
{
    match payload {
        Payload::Sig(sig) => Ok(Some(sig.share()?)),
        Payload::Absent
        | Payload::Root(_)
        | Payload::Parse(_)
        | Payload::Deps(_)
        | Payload::Errs(_) => Ok(None),
    }
}

// Where the bytes of a path stand among rows whose paths rise.
fn place_of(rows: &[RootRow], bytes: &[u8]) -> Option<usize>
    requires { IsRising (paths_of_rows rows.now) }
    ensures place { IsPlaceOf rows.now bytes.now result }
    ensures within { IfSome result (λ at. at < length rows.now) }
{
    rows.binary_search_by(|row| row.path.as_bytes().cmp(bytes))
        .ok()
}

/// Where a path stands among rows whose paths rise.
pub(crate) fn place_in(rows: &[RootRow], path: &Path) -> Option<usize>
    requires { IsRising (paths_of_rows rows.now) }
    ensures place { IsPlaceOf rows.now path.now result }
    ensures within { IfSome result (λ at. at < length rows.now) }
{
    place_of(rows, path.as_bytes())
}
