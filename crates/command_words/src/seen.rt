//! What the words so far told.
ghost use Rattle.std.specs.Prelude.{◌≡◌};
ghost use Rattle.command_words.specs.Reading.{nothing, once, put, put_root, waits_for};

use crate::command::Setting;

/// What the words so far told: each number at most once, the place of the folder's word, and the
/// setting whose number is the next word.
#[derive(Clone, Copy)]
pub(crate) struct Seen {
    pub waiting: Option<Setting>,
    pub root: Option<usize>,
    pub workers: Option<u128>,
    pub lanes: Option<u128>,
    pub modules: Option<u128>,
    pub generated: Option<u128>,
    pub seed: Option<u128>,
}

/// Nothing.
pub(crate) fn nothing() -> Seen
    ensures { result ≡ nothing }
{
    Seen {
        waiting: None,
        root: None,
        workers: None,
        lanes: None,
        modules: None,
        generated: None,
        seed: None,
    }
}

// A number that was not told before.
fn once(told: Option<u128>, number: u128) -> Option<u128>
    ensures { result ≡ once told number }
{
    match told {
        Some(_) => None,
        None => Some(number),
    }
}

/// The number of a setting too, where it was not told before.
pub(crate) fn put(seen: Seen, setting: Setting, number: u128) -> Option<Seen>
    ensures { result ≡ put setting number seen }
{
    let mut seen = seen;
    match setting {
        Setting::Workers => seen.workers = Some(once(seen.workers, number)?),
        Setting::Lanes => seen.lanes = Some(once(seen.lanes, number)?),
        Setting::Modules => seen.modules = Some(once(seen.modules, number)?),
        Setting::Generated => seen.generated = Some(once(seen.generated, number)?),
        Setting::Seed => seen.seed = Some(once(seen.seed, number)?),
    }
    Some(seen)
}

/// The place of the folder's word too, where there was none before.
pub(crate) fn put_root(seen: Seen, place: usize) -> Option<Seen>
    ensures { result ≡ put_root place seen }
{
    if seen.root.is_some() {
        return None;
    }
    Some(Seen {
        root: Some(place),
        ..seen
    })
}

/// The number of this setting is the next word, or of none.
pub(crate) fn waits_for(seen: Seen, waiting: Option<Setting>) -> Seen
    ensures { result ≡ waits_for waiting seen }
{
    Seen { waiting, ..seen }
}
