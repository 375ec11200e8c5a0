// The token stream (01, section 1): one token appended to a sink, by value.
//
// The sink takes everything: a byte that finds no room in the output is only counted, so to measure is to
// append to an empty output, and measuring and writing are one function.
#![tactic(auto)]

ghost use Rattle.std.specs.Prelude.{◌≡◌, [], ◌∷◌};
ghost use Rattle.stream.specs.Stream.{none, some, tight as tight', opens as opens', gap as gap', gapped, spelled_bit, written, valued_bit};
ghost use Rattle.spelling.specs.Token.{TK_STRING as TK_STRING'};
ghost use Rattle.stream.specs.Sink.{count, pour, mark, value_of, between, inside, doubled as doubled', step};

use spelling::token::{
    TK_BLOB, TK_COMMA, TK_DOT, TK_LBRACKET, TK_LP, TK_RBRACKET, TK_RP, TK_SEMI, TK_STRING,
};

const SPACE: u8 = b' ';

const QUOTE: u8 = b'\'';

// It is handed on field by field: a copy of the whole would move its unused bytes too, and wait for them.
#[derive(Clone, Copy, PartialEq, Eq, Debug)]
pub struct Sink {
    pub spaced: bool,
    pub at: usize,
}

// n more, but no more than the largest number.
#[tactic(auto, unfolding(crate::specs::Sink::count))]
pub fn plus(at: usize, n: usize) -> usize
    ensures { result ≡ count at n }
{
    at.saturating_add(n)
}

// Bytes are stored and counted.
fn put(s: Sink, out: &mut [u8], v: &[u8]) -> Sink
    ensures { (result, out.new) ≡ pour (s, out.old) v.now }
{
    store::store(out, s.at, v);
    Sink {
        spaced: s.spaced,
        at: plus(s.at, v.len()),
    }
}

// A byte is stored and counted.
pub fn put_byte(s: Sink, out: &mut [u8], b: u8) -> Sink
    ensures { (result, out.new) ≡ pour (s, out.old) (b ∷ []) }
{
    store::store_byte(out, s.at, b);
    Sink {
        spaced: s.spaced,
        at: plus(s.at, 1),
    }
}

// Whether a kind is written with no space before it.
#[tactic(auto, unfolding(crate::specs::Stream::tight))]
fn tight(kind: u16) -> bool
    ensures { result ≡ tight' kind }
{
    matches!(
        kind,
        TK_COMMA | TK_SEMI | TK_RP | TK_DOT | TK_LBRACKET | TK_RBRACKET
    )
}

// Whether the spelling of a kind sets the bit.
#[tactic(auto, unfolding(crate::specs::Stream::opens))]
pub fn opens(kind: u16) -> bool
    ensures { result ≡ opens' kind }
{
    matches!(kind, TK_LP | TK_DOT | TK_LBRACKET)
}

// The space before a token, where there is one.
pub fn gap(s: Sink, out: &mut [u8], kind: u16) -> Sink
    ensures { (result, out.new) ≡ mark (pour (s, out.old) (gap' s.spaced kind)) (gapped s.spaced kind) }
{
    if s.spaced | tight(kind) {
        Sink {
            spaced: s.spaced,
            at: s.at,
        }
    } else {
        let t = put_byte(s, out, SPACE);
        Sink {
            spaced: true,
            at: t.at,
        }
    }
}

// The fixed spelling, where there is one.
fn spell(s: Sink, out: &mut [u8], kind: u16, word: &[u8]) -> Sink
    ensures { (result, out.new) ≡ mark (pour (s, out.old) word.now) (spelled_bit s.spaced kind word.now) }
{
    if word.len() == 0 {
        Sink {
            spaced: s.spaced,
            at: s.at,
        }
    } else {
        let t = put(s, out, word);
        Sink {
            spaced: opens(kind),
            at: t.at,
        }
    }
}

// A value, which sets the bit if it is all blank.
fn value_put(s: Sink, out: &mut [u8], value: &[u8]) -> Sink
    ensures { (result, out.new) ≡ mark (pour (s, out.old) (written (some value.now))) (valued_bit s.spaced (some value.now)) }
{
    let t = put(s, out, value);
    Sink {
        spaced: blank::all_blank(value),
        at: t.at,
    }
}

// One token with no value: a kind, and word, which is the fixed spelling of its kind.
fn bare(s: Sink, out: &mut [u8], kind: u16, word: &[u8]) -> Sink
    ensures { (result, out.new) ≡ step (s, out.old) kind word.now none }
{
    let t = gap(s, out, kind);
    if kind != TK_BLOB {
        return spell(t, out, kind, word);
    }
    put(t, out, b"X''")
}

// The same with a value.
fn valued(s: Sink, out: &mut [u8], kind: u16, word: &[u8], value: &[u8]) -> Sink
    ensures { (result, out.new) ≡ step (s, out.old) kind word.now (some value.now) }
{
    let t = gap(s, out, kind);
    if kind == TK_BLOB {
        put(t, out, value)
    } else {
        let u = spell(t, out, kind, word);
        value_put(u, out, value)
    }
}

// One token: a kind, word, which is the fixed spelling of its kind, and its value, where it has one. Inlined, so that of a value which
// is known to be there, or not, nothing is stored and asked: render takes 280,000 instructions less on the schema.
#[inline(always)]
pub fn append(s: Sink, out: &mut [u8], kind: u16, word: &[u8], value: Option<&[u8]>) -> Sink
    ensures { (result, out.new) ≡ step (s, out.old) kind word.now (value_of value.entry) }
{
    match value {
        Some(v) => valued(s, out, kind, word, v),
        None => bare(s, out, kind, word),
    }
}

// A byte, and a quote twice.
fn twice(s: Sink, out: &mut [u8], b: u8) -> Sink
    ensures { (result, out.new) ≡ pour (s, out.old) (doubled' (b ∷ [])) }
{
    let t = put_byte(s, out, b);
    if b == QUOTE { put_byte(t, out, b) } else { t }
}

// A value with each quote in it doubled.
fn pour_doubled(s: Sink, out: &mut [u8], value: &[u8]) -> Sink
    ensures { (result, out.new) ≡ pour (s, out.old) (doubled' value.now) }
{
    let mut t = s;
    for &b in value {
        t = twice(t, out, b);
    }
    t
}

// A value, with each quote in it doubled where DOUBLED.
fn pour_inside<const DOUBLED: bool>(s: Sink, out: &mut [u8], value: &[u8]) -> Sink
    ensures { (result, out.new) ≡ pour (s, out.old) (inside DOUBLED value.now) }
{
    if DOUBLED {
        pour_doubled(s, out, value)
    } else {
        put(s, out, value)
    }
}

// A value between quotes, with each quote in it doubled where DOUBLED.
fn in_quotes<const DOUBLED: bool>(s: Sink, out: &mut [u8], value: &[u8]) -> Sink
    ensures { (result, out.new) ≡ pour (s, out.old) (between (inside DOUBLED value.now)) }
{
    let t = put(s, out, b"'");
    let t = pour_inside::<DOUBLED>(t, out, value);
    put(t, out, b"'")
}

// TK_STRING, whose fixed spelling is word, with a value between quotes, and each quote in it doubled where DOUBLED.
fn string<const DOUBLED: bool>(s: Sink, out: &mut [u8], word: &[u8], value: &[u8]) -> Sink
    ensures { (result, out.new) ≡ step (s, out.old) TK_STRING' word.now (some (between (inside DOUBLED value.now))) }
{
    let t = gap(s, out, TK_STRING);
    let u = spell(t, out, TK_STRING, word);
    let v = in_quotes::<DOUBLED>(u, out, value);
    Sink {
        spaced: false,
        at: v.at,
    }
}

// TK_STRING, whose fixed spelling is word, with a value between quotes.
pub fn quoted(s: Sink, out: &mut [u8], word: &[u8], value: &[u8]) -> Sink
    ensures { (result, out.new) ≡ step (s, out.old) TK_STRING' word.now (some (between value.now)) }
{
    string::<false>(s, out, word, value)
}

// TK_STRING, whose fixed spelling is word, with a value between quotes and each quote in it doubled.
pub fn doubled(s: Sink, out: &mut [u8], word: &[u8], value: &[u8]) -> Sink
    ensures { (result, out.new) ≡ step (s, out.old) TK_STRING' word.now (some (between (doubled' value.now))) }
{
    string::<true>(s, out, word, value)
}
