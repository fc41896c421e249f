ghost use Rattle.std.specs.Prelude.{◌≡◌, ◌≤◌, length, IfSome, IsTrue};
ghost use Rattle.lex_pieces.specs.Comments.{line_len, closes, closed_len, comment_len};

/// The length of the comment at the front of a text that begins with `/`, or `None` where none
/// stands there: one that is not closed is none.
#[tactic(auto, unfolding(crate::specs::Comments::comment_len))]
pub fn comment_len(text: &[char]) -> Option<usize>
    ensures { result ≡ comment_len text.now }
{
    match text {
        [_, '/', line @ ..] => Some(line_len(line) + 2),
        [_, '*', block @ ..] => Some(closed_len(block)? + 2),
        _ => None,
    }
}

// The rest of the line, without its LF.
#[tactic(auto, unfolding(crate::specs::Comments::line_len))]
fn line_len(text: &[char]) -> usize
    ensures value { result ≡ line_len text.now }
    ensures within { result ≤ length text.now }
{
    text.iter().take_while(|c| **c != '\n').count()
}

// Through the first `*/`.
#[tactic(auto, using(crate::proofs::Closing::closing))]
fn closed_len(text: &[char]) -> Option<usize>
    ensures value { result ≡ closed_len text.now }
    ensures within { IfSome result (λ len. len ≤ length text.now) }
{
    for at in 0..text.len() {
        if closes(&text[at..]) {
            return Some(at + 2);
        }
    }
    None
}

fn closes(text: &[char]) -> bool
    ensures value { result ≡ closes text.now }
    ensures within { IsTrue result → 2 ≤ length text.now }
{
    match text {
        [first, next, ..] => *first == '*' && *next == '/',
        _ => false,
    }
}
