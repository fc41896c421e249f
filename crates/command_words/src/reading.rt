ghost use Rattle.std.specs.Prelude.{◌≡◌, ◌<◌, ◌≤◌, map, string_bytes, length, IfSome, IfNone};
ghost use Rattle.command_words.specs.Words.{Says, AreOfCommand, place_of, usage_line};
ghost use Rattle.command_words.specs.Reading.{step, start, dashed, joined_at, joined, ranged, form_of, finish, command_of};
ghost use Rattle.std.specs.Option.{option_map};
ghost use Rattle.command_words.specs.declared.command.Command as the_command;

use crate::command::{Command, Form};
use crate::seen::{Seen, nothing, put, put_root, waits_for};
use crate::values::{equals_in, is_root, number_of, setting_named};

// A word `--name=value` with its `=` at a place.
fn joined_at(word: &[u8], seen: Seen, equals: usize) -> Option<Seen>
    requires { equals < length word.now }
    ensures { result ≡ joined_at word.now seen equals }
{
    let setting = setting_named(&word[..equals])?;
    let number = number_of(&word[equals + 1..])?;
    put(seen, setting, number)
}

// A word `--name=value`.
fn joined(word: &[u8], seen: Seen) -> Option<Seen>
    ensures { result ≡ joined word.now seen }
{
    joined_at(word, seen, equals_in(word)?)
}

// A word that begins with `-`.
fn dashed(word: &[u8], seen: Seen) -> Option<Seen>
    ensures { result ≡ dashed word.now seen }
{
    match setting_named(word) {
        Some(setting) => Some(waits_for(seen, Some(setting))),
        None => joined(word, seen),
    }
}

// A word that is no setting's number.
fn start(place: usize, word: &[u8], seen: Seen) -> Option<Seen>
    ensures { result ≡ start place word.now seen }
{
    if is_root(word) {
        put_root(seen, place)
    } else {
        dashed(word, seen)
    }
}

// The word at a place.
fn step(place: usize, word: &[u8], seen: Seen) -> Option<Seen>
    ensures { result ≡ step place word.now seen }
{
    match seen.waiting {
        Some(setting) => put(waits_for(seen, None), setting, number_of(word)?),
        None => start(place, word, seen),
    }
}

// The number that was told, or the default one, where it is from 1 to the most.
fn ranged(told: Option<u128>, default: u32, most: u32) -> Option<u32>
    ensures { result ≡ ranged told default most }
{
    let Some(number) = told else {
        return Some(default);
    };
    if 1 <= number && number <= most as u128 {
        Some(number as u32)
    } else {
        None
    }
}

// Where the modules come from, where there may be so many.
fn form_of(seen: Seen, most: u32) -> Option<Form>
    ensures { result ≡ form_of seen most }
{
    match (seen.root, seen.generated, seen.seed) {
        (Some(place), None, None) => Some(Form::Folder { place }),
        (None, Some(modules), Some(seed)) => {
            if 1 <= modules && modules <= most as u128 && seed <= u64::MAX as u128 {
                Some(Form::Generated {
                    modules: modules as u32,
                    seed: seed as u64,
                })
            } else {
                None
            }
        }
        _ => None,
    }
}

// What all words tell.
fn finish(seen: Seen) -> Option<Command>
    ensures { result ≡ finish seen }
{
    if seen.waiting.is_some() {
        return None;
    }
    let workers = ranged(seen.workers, 4, 64)?;
    let lanes = ranged(seen.lanes, 2, 16)?;
    let modules = ranged(seen.modules, 1024, 4096)?;
    let form = form_of(seen, modules)?;
    Some(Command {
        form,
        workers,
        lanes,
        modules,
    })
}

fn walk(words: &[String]) -> Option<Command>
    ensures { result ≡ command_of (map string_bytes words.now) }
{
    let mut seen = nothing();
    for place in 0..words.len() {
        seen = step(place, words[place].as_bytes(), seen)?;
    }
    finish(seen)
}

/// What the words of the command, without the program's own name, tell a run, or `None` where they
/// are not of the command. They are read in one walk, without memory.

#[tactic(auto, using(crate::proofs::Exact::says_command, crate::proofs::Exact::says_none))]
pub fn read_words(words: &[String]) -> Option<Command>
    ensures says { IfSome result (Says (map string_bytes words.now)) }
    ensures none { IfNone result (AreOfCommand (map string_bytes words.now) → ⊥) }
{
    walk(words)
}

fn place_of(command: Command) -> Option<usize>
    ensures { result ≡ place_of command }
{
    match command.form {
        Form::Folder { place } => Some(place),
        Form::Generated { .. } => None,
    }
}

/// The place of the folder's word among the words of the command, without the program's own name,
/// or `None` where they are not of the command with a folder. They are read in one walk, without memory.
#[tactic(auto, using(crate::proofs::Exact::no_place, crate::proofs::Exact::place_is, crate::proofs::Exact::none_is))]
pub fn root_word(words: &[String]) -> Option<usize>
    ensures place { IfSome result (λ place. (c : the_command.Command) × Says (map string_bytes words.now) c × (place_of c ≡ Some place)) }
    ensures none { IfNone result ((c : the_command.Command) → Says (map string_bytes words.now) c → place_of c ≡ None) }
    ensures within { IfSome result (λ place. place < length words.now) }
{
    place_of(read_words(words)?)
}

/// The line that says how the program is called.
pub fn usage() -> &'static [u8]
    ensures { result.now ≡ usage_line }
{
    b"usage: flowd ROOT | --gen N --seed X [--workers N] [--lanes R] [--modules M]\n"
}
