//! Characters and bytes that a line of cases has by a mark.
use flow_values::NoMemory;
use js_lexer::SOURCE_LIMIT;
use std::alloc::Global;

// The marks, and the characters that they stand for.
const MARKS: [(&str, &str); 13] = [
    ("⏎", "\n"),
    ("‹0›", "\0"),
    ("‹8›", "\u{8}"),
    ("‹9›", "\t"),
    ("‹B›", "\u{B}"),
    ("‹C›", "\u{C}"),
    ("‹D›", "\r"),
    ("‹A0›", "\u{A0}"),
    ("‹200C›", "\u{200C}"),
    ("‹2028›", "\u{2028}"),
    ("‹2029›", "\u{2029}"),
    ("‹FEFF›", "\u{FEFF}"),
    ("‹10FFFF›", "\u{10FFFF}"),
];

// Ends a line: a byte that is no UTF-8.
const NO_UTF8: &str = "‹a byte that is no UTF-8›";

// Ends a line: as many spaces as a source may have behind what stands before.
const TO_THE_LIMIT: &str = "‹spaces up to the limit›";

// Ends a line: one space more than that.
const PAST_THE_LIMIT: &str = "‹spaces past the limit›";

/// A text with marks for its characters.
///
/// # Errors
///
/// `NoMemory` where memory is refused.
pub(crate) fn marked(alloc: Global, text: &str) -> Result<String, NoMemory> {
    let mut marked = String::from_str(alloc, text)?;
    for (mark, meant) in MARKS.iter() {
        marked = marked.replace(alloc, *meant, mark)?;
    }
    Ok(marked)
}

// A text with characters for its marks.
fn meant(alloc: Global, line: &str) -> Result<String, NoMemory> {
    let mut text = String::from_str(alloc, line)?;
    for (mark, meant) in MARKS.iter() {
        text = text.replace(alloc, *mark, meant)?;
    }
    Ok(text)
}

fn bytes_of(alloc: Global, text: &str) -> Result<Vec<u8>, NoMemory> {
    let mut bytes = Vec::new(alloc);
    bytes.extend_from_slice(text.as_bytes())?;
    Ok(bytes)
}

// A text, with spaces behind it up to a length.
fn padded(alloc: Global, text: &str, length: usize) -> Result<Vec<u8>, NoMemory> {
    let mut bytes = bytes_of(alloc, text)?;
    for _ in text.len()..length {
        bytes.push(b' ')?;
    }
    Ok(bytes)
}

/// The source that a line stands for.
///
/// # Errors
///
/// `NoMemory` where memory is refused.
pub(crate) fn source_in(alloc: Global, line: &str) -> Result<Vec<u8>, NoMemory> {
    let text = meant(alloc, line)?;
    if let Some((front, _)) = text.split_once(NO_UTF8) {
        let mut bytes = bytes_of(alloc, front)?;
        bytes.push(0xff)?;
        return Ok(bytes);
    }
    if let Some((front, _)) = text.split_once(TO_THE_LIMIT) {
        return padded(alloc, front, SOURCE_LIMIT);
    }
    if let Some((front, _)) = text.split_once(PAST_THE_LIMIT) {
        return padded(alloc, front, SOURCE_LIMIT + 1);
    }
    bytes_of(alloc, text.as_str())
}
