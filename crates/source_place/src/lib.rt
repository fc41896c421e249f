//! Where a byte of a source stands for people: its line and its column.
#![tactic(auto)]

ghost use Rattle.std.specs.Prelude.{◌≡◌, ◌≤◌, ◌<◌, ◌^◌, ◌-◌, length, count_by, not};
ghost use Rattle.std.specs.List.{suffix_len};
ghost use Rattle.source_place.specs.Place.{is_feed, line_at, line_front, column_at, IsPlace};

use source_characters::char_count;

/// Line and column of the byte place `at`, both from 1. A line ends after LF alone, and columns count
/// characters. The place is 0, or the text is UTF-8 and `at` is at most its length and below
/// 2^32 - 1. It takes no memory.
pub fn place(text: &[u8], at: u32) -> (u32, u32)
    requires { IsPlace text.now at }
    ensures line { result.0 ≡ line_at text.now at }
    ensures column { result.1 ≡ column_at text.now at }
{
    let front = &text[..at as usize];
    let line = feeds(front);
    let column = char_count(line_start(front));
    (line as u32 + 1, column as u32 + 1)
}

fn feeds(bytes: &[u8]) -> usize
    ensures count { result ≡ count_by is_feed bytes.now }
    ensures within { result ≤ length bytes.now }
{
    bytes.iter().filter(|b| **b == b'\n').count()
}

// How many bytes stand behind the last LF, or how many there are where there is none.
fn line_len(front: &[u8]) -> usize
    ensures count { result ≡ suffix_len (λ b. not (is_feed b)) front.now }
    ensures within { result ≤ length front.now }
{
    front.iter().rev().take_while(|b| **b != b'\n').count()
}

// What stands behind the last LF, or all where there is none.
#[tactic(auto, using(std::proofs::lemmas::Grind::common_steps))]
fn line_start(front: &[u8]) -> &[u8]
    ensures front { result.now ≡ line_front front.now }
    ensures within { length result.now ≤ length front.now }
{
    &front[front.len() - line_len(front)..]
}
