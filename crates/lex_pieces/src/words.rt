ghost use Rattle.std.specs.Prelude.{◌≡◌, ◌≤◌, length, IfOk};
ghost use Rattle.std.specs.List.{prefix_len};
ghost use Rattle.std.specs.Str.{encode_utf8_all};
ghost use Rattle.source_characters.specs.Words.{continues_word};

use flow_values::{NoMemory, Text};
use source_characters::continues_word;
use std::alloc::Global;

/// How many characters at the front of a text may go on a word.
pub fn word_len(text: &[char]) -> usize
    ensures value { result ≡ prefix_len continues_word text.now }
    ensures within { result ≤ length text.now }
{
    text.iter().take_while(|c| continues_word(**c)).count()
}

/// The UTF-8 of characters.
///
/// # Errors
///
/// `NoMemory` where memory is refused.
#[tactic(auto, using(crate::proofs::Encoding::encoded_more))]
pub fn spelled(alloc: Global, chars: &[char]) -> Result<Text, NoMemory>
    ensures { IfOk result (λ text. text ≡ encode_utf8_all chars.now) }
{
    let mut text = String::with_capacity(alloc, chars.len())?;
    for c in chars {
        text.push(*c)?;
    }
    Text::from_vec(alloc, text.into_bytes())
}
