ghost use Rattle.std.specs.Prelude.{◌≡◌, ◌≤◌, length};
ghost use Rattle.source_characters.specs.Bytes.{begins_char, char_count};

/// Whether a byte begins a character. Each other byte goes on with the character before it.
pub fn begins_char(b: u8) -> bool
    ensures { result ≡ begins_char b }
{
    b < 128 || b >= 192
}

/// How many characters begin in the bytes.
pub fn char_count(bytes: &[u8]) -> usize
    ensures count { result ≡ char_count bytes.now }
    ensures within { result ≤ length bytes.now }
{
    bytes.iter().filter(|b| begins_char(**b)).count()
}
