// Whether a text's two parts are WITHOUT and ROWID, each letter in either case (02, viii).
#![tactic(auto)]

ghost use Rattle.std.specs.Prelude.{◌≡◌, ◌+◌, ◌≤◌, length, take, drop};
ghost use Rattle.rowid.specs.Rowid.{is_word as is_word', names as names'};

use white::Part;

// How many parts a text has that is accepted.
const TWO_PARTS: usize = 2;

// Whether bytes in capitals are a word.
fn is_word(bytes: &[u8], word: &[u8]) -> bool
    ensures { result ≡ is_word' bytes.now word.now }
{
    (bytes.len() == word.len())
        && bytes
            .iter()
            .zip(word)
            .all(|(b, w)| b.to_ascii_uppercase() == *w)
}

// Whether a part of a text in capitals is a word.
fn part_is(text: &[u8], part: Part, word: &[u8]) -> bool
    requires { part.start + part.len ≤ length text.now }
    ensures { result ≡ is_word' (take part.len (drop part.start text.now)) word.now }
{
    is_word(&text[part.start..part.start + part.len], word)
}

// Whether a text has two parts, and they are WITHOUT and ROWID in either case.
pub fn names(text: &[u8]) -> bool
    ensures { result ≡ names' text.now }
{
    let parts = white::split(text);
    if parts.count != TWO_PARTS {
        return false;
    }
    match (white::first_part(text), parts.second) {
        (Some(first), Some(second)) => {
            part_is(text, first, b"WITHOUT") & part_is(text, second, b"ROWID")
        }
        _ => false,
    }
}
