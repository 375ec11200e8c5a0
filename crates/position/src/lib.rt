// Where a text ends (02, ix): how many newlines are in it, and how many bytes stand behind the last one.
#![tactic(auto)]

ghost use Rattle.std.specs.Prelude.{◌≡◌, ◌+◌, ◌<◌, ◌^◌};
ghost use Rattle.position.specs.Position.{newline as newline', next as next', lines as lines', column};

const NEWLINE: u8 = 0x0A;

// What is found of some bytes: their newlines, and the bytes behind the last one, which are all where there is none.
#[derive(Clone, Copy, PartialEq, Eq)]
pub struct Found {
    pub lines: usize,
    pub behind: usize,
}

// How many newlines a byte is.
fn newline(b: u8) -> usize
    ensures { result ≡ newline' b }
{
    usize::from(b == NEWLINE)
}

// The column behind a byte at a column.
fn next(at: usize, b: u8) -> usize
    requires { at + 1 < 2 ^ 64 }
    ensures { result ≡ next' at b }
{
    if b == NEWLINE { 0 } else { at + 1 }
}

// The newlines of some bytes, and the bytes behind the last.
pub fn newlines(s: &[u8]) -> Found
    ensures { (result.lines ≡ lines' s.now) × (result.behind ≡ column 0 s.now) }
{
    let mut lines = 0;
    let mut behind = 0;
    for &b in s {
        lines += newline(b);
        behind = next(behind, b);
    }
    Found { lines, behind }
}
