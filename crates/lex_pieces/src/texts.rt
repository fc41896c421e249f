ghost use Rattle.std.specs.Prelude.{◌≡◌, ◌<◌, length, IfOk};

use flow_values::{NoMemory, Text};
use std::alloc::Global;

/// The number of places of a table of texts.
const PLACES: usize = 1024;

/// Texts that were made before, each at a place that its bytes give: a text that is made again is
/// shared while no other one took its place.
#[derive(Drop)]
pub struct Texts {
    alloc: Global,
    places: Vec<Option<Text>>,
    ghost whole: { length places.items ≡ 1024 },
}

impl Texts {
    /// An empty table.
    ///
    /// # Errors
    ///
    /// `NoMemory` where memory is refused.
    pub fn new(alloc: Global) -> Result<Texts, NoMemory> {
        let mut places = Vec::with_capacity(alloc, PLACES)?;
        for _place in 0..PLACES {
            places.push(None)?;
        }
        Ok(Texts { alloc, places })
    }

    /// A text of these bytes.
    ///
    /// # Errors
    ///
    /// `NoMemory` where memory is refused.
    pub fn text(&mut self, bytes: &[u8]) -> Result<Text, NoMemory>
        ensures { IfOk result (λ text. text ≡ bytes.now) }
    {
        let place = place_of(bytes);
        if let Some(text) = &self.places[place] {
            if text.as_bytes() == bytes {
                return text.share();
            }
        }
        let text = Text::from_bytes(self.alloc, bytes)?;
        self.places[place] = Some(text.share()?);
        Ok(text)
    }
}

// The place of a text of these bytes, which spreads short words.
#[inline]
fn place_of(bytes: &[u8]) -> usize
    ensures { result < 1024 }
{
    let mut sum: u32 = 0;
    for b in bytes {
        sum = sum.wrapping_mul(31).wrapping_add(u32::from(*b));
    }
    (sum ^ (sum >> 10)) as usize % PLACES
}
