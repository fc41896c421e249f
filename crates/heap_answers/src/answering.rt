ghost use Rattle.std.specs.Prelude.{◌≡◌, ◌<◌, ◌^◌, length};
ghost use Rattle.heap_answers.specs.States.{program_in, Answers};
ghost use Rattle.asks.specs.declared.ask.Ask.TheVariants as the_ask;

use crate::many::{all_errors, all_importers, all_paths};
use crate::parts::{errors_of, signature_of};
use crate::rows::{modules_of, place_in, root_of};
use asks::{Answer, AskFault};
use dep_lists::resolve;
use flow_base::{Path, Text};
use heap_core::HeapReader;
use payloads::Payload;
use payloads::program_check::one_full;
use std::alloc::Global;

/// The errors of all modules.
///
/// # Errors
///
/// `NoMemory` where memory is refused.
pub fn status<R: HeapReader<Payload>>(alloc: Global, reader: &mut R) -> Result<Answer, AskFault>
    requires { length (R.state reader.old) < 2 ^ 32 }
    ensures answer { Answers (program_in (R.state reader.old)) the_ask.Status result }
    ensures same { (R.at reader.new ≡ R.at reader.old) × (R.state reader.new ≡ R.state reader.old) }
    ensures part { R.part reader.new ≡ R.part reader.old }
{
    one_full();
    let root = reader.root()?;
    let errors = all_errors(alloc, reader, modules_of(&root))?;
    Ok(Answer::Faults(errors))
}

/// The errors of a module.
///
/// # Errors
///
/// `UnknownPath` where the path is no module's, and `NoMemory` where memory is refused.
pub fn errors<R: HeapReader<Payload>>(
    alloc: Global,
    reader: &mut R,
    path: &Path,
) -> Result<Answer, AskFault>
    requires { length (R.state reader.old) < 2 ^ 32 }
    ensures answer { Answers (program_in (R.state reader.old)) (the_ask.Errors path.now) result }
    ensures same { (R.at reader.new ≡ R.at reader.old) × (R.state reader.new ≡ R.state reader.old) }
    ensures part { R.part reader.new ≡ R.part reader.old }
{
    one_full();
    let root = reader.root()?;
    let modules = modules_of(&root);
    let Some(at) = place_in(modules, path) else {
        return Err(AskFault::UnknownPath);
    };
    let errors = errors_of(alloc, reader, &modules[at])?;
    Ok(Answer::Faults(errors))
}

/// The module that a specifier finds from a module.
///
/// # Errors
///
/// `UnknownPath` where the path is no module's, and `NoMemory` where memory is refused.
pub fn find_module<R: HeapReader<Payload>>(
    alloc: Global,
    reader: &mut R,
    path: &Path,
    spec: &Text,
) -> Result<Answer, AskFault>
    requires { length (R.state reader.old) < 2 ^ 32 }
    ensures answer { Answers (program_in (R.state reader.old)) (the_ask.FindModule path.now spec.now) result }
    ensures same { (R.at reader.new ≡ R.at reader.old) × (R.state reader.new ≡ R.state reader.old) }
    ensures part { R.part reader.new ≡ R.part reader.old }
{
    one_full();
    let root = reader.root()?;
    let root = root_of(&root);
    let Some(_) = place_in(root.modules.as_slice(), path) else {
        return Err(AskFault::UnknownPath);
    };
    let found = resolve(alloc, root, path, spec.as_bytes())?;
    Ok(Answer::Found(found))
}

/// The paths of all modules.
///
/// # Errors
///
/// `NoMemory` where memory is refused.
pub fn ls<R: HeapReader<Payload>>(alloc: Global, reader: &mut R) -> Result<Answer, AskFault>
    ensures answer { Answers (program_in (R.state reader.old)) the_ask.Ls result }
    ensures same { (R.at reader.new ≡ R.at reader.old) × (R.state reader.new ≡ R.state reader.old) }
    ensures part { R.part reader.new ≡ R.part reader.old }
{
    one_full();
    let root = reader.root()?;
    let paths = all_paths(alloc, modules_of(&root))?;
    Ok(Answer::Paths(paths))
}

/// The modules whose specifiers find a module.
///
/// # Errors
///
/// `UnknownPath` where the path is no module's, and `NoMemory` where memory is refused.
pub fn importers<R: HeapReader<Payload>>(
    alloc: Global,
    reader: &mut R,
    path: &Path,
) -> Result<Answer, AskFault>
    requires { length (R.state reader.old) < 2 ^ 32 }
    ensures answer { Answers (program_in (R.state reader.old)) (the_ask.Importers path.now) result }
    ensures same { (R.at reader.new ≡ R.at reader.old) × (R.state reader.new ≡ R.state reader.old) }
    ensures part { R.part reader.new ≡ R.part reader.old }
{
    one_full();
    let root = reader.root()?;
    let modules = modules_of(&root);
    let Some(_) = place_in(modules, path) else {
        return Err(AskFault::UnknownPath);
    };
    let paths = all_importers(alloc, reader, modules, path)?;
    Ok(Answer::Paths(paths))
}

/// What a module says to others.
///
/// # Errors
///
/// `UnknownPath` where the path is no module's, and `NoMemory` where memory is refused.
pub fn signature<R: HeapReader<Payload>>(
    alloc: Global,
    reader: &mut R,
    path: &Path,
) -> Result<Answer, AskFault>
    requires { length (R.state reader.old) < 2 ^ 32 }
    ensures answer { Answers (program_in (R.state reader.old)) (the_ask.Signature path.now) result }
    ensures same { (R.at reader.new ≡ R.at reader.old) × (R.state reader.new ≡ R.state reader.old) }
    ensures part { R.part reader.new ≡ R.part reader.old }
{
    one_full();
    let root = reader.root()?;
    let modules = modules_of(&root);
    let Some(at) = place_in(modules, path) else {
        return Err(AskFault::UnknownPath);
    };
    let sig = signature_of(reader, &modules[at])?;
    Ok(Answer::Sig(sig))
}
