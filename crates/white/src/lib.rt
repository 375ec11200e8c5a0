// The parts of a text between its White_Space characters (01, section 4). The text is UTF-8; any bytes are taken.
#![tactic(auto)]

ghost use Rattle.std.specs.Prelude.{◌≡◌, [], ◌∷◌, ◌+◌, ◌-◌, ◌≤◌, ◌<◌, length, drop};
ghost use Rattle.laws.specs.Among.{among};
ghost use Rattle.white.specs.White.{white_length as white_length'};
ghost use Rattle.white.specs.Parts.{split_of, first_of};
ghost use Rattle.white.specs.Steps.{ones, twos, threes, begins_one_of, spaces, SkipsWhite, SkipsPart, counted};

// One byte: 9 to D and 20.
const TAB: u8 = 0x09;

const CARRIAGE_RETURN: u8 = 0x0D;

const SPACE: u8 = 0x20;

// Two bytes: U+0085 and U+00A0.
const LATIN_LEAD: u8 = 0xC2;

const NEXT_LINE: u8 = 0x85;

const NO_BREAK_SPACE: u8 = 0xA0;

// Three bytes: U+1680.
const OGHAM_LEAD: u8 = 0xE1;

const OGHAM_MIDDLE: u8 = 0x9A;

const OGHAM_LAST: u8 = 0x80;

// Three bytes: U+2000 to U+200A, U+2028, U+2029 and U+202F.
const PUNCTUATION_LEAD: u8 = 0xE2;

const PUNCTUATION_MIDDLE: u8 = 0x80;

const EN_QUAD: u8 = 0x80;

const HAIR_SPACE: u8 = 0x8A;

const LINE_SEPARATOR: u8 = 0xA8;

const PARAGRAPH_SEPARATOR: u8 = 0xA9;

const NARROW_SPACE: u8 = 0xAF;

// Three bytes: U+205F, which begins as those do.
const MATH_MIDDLE: u8 = 0x81;

const MATH_LAST: u8 = 0x9F;

// Three bytes: U+3000.
const WIDE_LEAD: u8 = 0xE3;

const WIDE_MIDDLE: u8 = 0x80;

const WIDE_LAST: u8 = 0x80;

const ONE_BYTE: usize = 1;

const TWO_BYTES: usize = 2;

const THREE_BYTES: usize = 3;

// How many parts were counted when the second one comes.
const ONE_PART: usize = 1;

// Where a part of a text stands.
#[derive(Clone, Copy, PartialEq, Eq)]
pub struct Part {
    pub start: usize,
    pub len: usize,
}

// How many parts a text has, and where the second one stands.
#[derive(Clone, Copy, PartialEq, Eq)]
pub struct Parts {
    pub count: usize,
    pub second: Option<Part>,
}

// Whether a byte is a White_Space character by itself.
#[tactic(auto, unfolding(crate::specs::Steps::begins_one_of))]
fn one(a: u8) -> bool
    ensures { result ≡ begins_one_of (a ∷ []) ones }
{
    matches!(a, TAB..=CARRIAGE_RETURN | SPACE)
}

// Whether two bytes are one.
#[tactic(auto, unfolding(crate::specs::Steps::begins_one_of))]
fn two(a: u8, b: u8) -> bool
    ensures { result ≡ begins_one_of (a ∷ b ∷ []) twos }
{
    matches!((a, b), (LATIN_LEAD, NEXT_LINE | NO_BREAK_SPACE))
}

// Whether a byte is the last one of a space in the block of punctuation.
fn space(c: u8) -> bool
    ensures { result ≡ among c spaces }
{
    matches!(
        c,
        EN_QUAD..=HAIR_SPACE | LINE_SEPARATOR | PARAGRAPH_SEPARATOR | NARROW_SPACE
    )
}

// Whether three bytes are one.
#[tactic(auto, unfolding(crate::specs::Steps::begins_one_of))]
fn three(a: u8, b: u8, c: u8) -> bool
    ensures { result ≡ begins_one_of (a ∷ b ∷ c ∷ []) threes }
{
    match (a, b) {
        (OGHAM_LEAD, OGHAM_MIDDLE) => c == OGHAM_LAST,
        (PUNCTUATION_LEAD, PUNCTUATION_MIDDLE) => space(c),
        (PUNCTUATION_LEAD, MATH_MIDDLE) => c == MATH_LAST,
        (WIDE_LEAD, WIDE_MIDDLE) => c == WIDE_LAST,
        _ => false,
    }
}

// How many bytes the White_Space character takes that the bytes begin with; 0 where they begin with none. (No Option: the definition
// `white_length` counts bytes, and an Option would have to be turned back to that count.)
fn first_length(s: &[u8]) -> usize
    ensures { result ≡ white_length' s.now }
{
    match s {
        [a, ..] if one(*a) => ONE_BYTE,
        [a, b, ..] if two(*a, *b) => TWO_BYTES,
        [a, b, c, ..] if three(*a, *b, *c) => THREE_BYTES,
        _ => 0,
    }
}

// How many bytes the White_Space character takes that stands at a place; 0 where none does.
#[tactic(auto, using(crate::proofs::Lengths::past_end))]
pub fn white_length(s: &[u8], at: usize) -> usize
    ensures { result ≡ white_length' (drop at s.now) }
{
    if s.len() <= at {
        return 0;
    }
    first_length(&s[at..])
}

// The first place from `at` on where no White_Space character stands. (A `while`: a turn goes on by a character's length, 0 where none stands.)
fn skip_white(s: &[u8], at: usize) -> usize
    requires { at ≤ length s.now }
    ensures { SkipsWhite s.now at result }
{
    let mut i = at;
    let mut n = white_length(s, i);
    while 0 < n {
        i += n;
        n = white_length(s, i);
    }
    i
}

// The end of the part that starts at `at`: the next place where a White_Space character stands, or the text's end.
fn skip_part(s: &[u8], at: usize) -> usize
    requires { (at < length s.now) × (white_length' (drop at s.now) ≡ 0) }
    ensures { SkipsPart s.now at result }
{
    for i in at + 1..s.len() {
        if 0 < white_length(s, i) {
            return i;
        }
    }
    s.len()
}

// One part more, from `at` to `end`: the second one is kept.
#[tactic(auto, unfolding(crate::specs::Steps::counted))]
fn count_part(p: Parts, at: usize, end: usize) -> Parts
    requires { (p.count < end) × (at ≤ end) }
    ensures { result ≡ counted p at (end - at) }
{
    let part = Part {
        start: at,
        len: end - at,
    };
    Parts {
        count: p.count + 1,
        second: if p.count == ONE_PART {
            Some(part)
        } else {
            p.second
        },
    }
}

// The parts of a text that are not empty: how many there are, and where the second one stands.
pub fn split(s: &[u8]) -> Parts
    ensures { result ≡ split_of s.now }
{
    let mut p = Parts {
        count: 0,
        second: None,
    };
    let mut at = skip_white(s, 0);
    while at < s.len() {
        let end = skip_part(s, at);
        p = count_part(p, at, end);
        at = skip_white(s, end);
    }
    p
}

// Where the first of those parts stands.
pub fn first_part(s: &[u8]) -> Option<Part>
    ensures { result ≡ first_of s.now }
{
    let start = skip_white(s, 0);
    if s.len() <= start {
        return None;
    }
    let end = skip_part(s, start);
    Some(Part {
        start,
        len: end - start,
    })
}
