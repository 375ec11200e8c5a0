// The pen: it goes along the records of a tree and writes tokens to a sink, as fmt.rs does to its stream.
#![tactic(auto)]

ghost use Rattle.std.specs.Prelude.{◌≡◌, [], ◌∷◌, ◌+◌, min, length};
ghost use Rattle.record.specs.Record.{count as count'};
ghost use Rattle.store.specs.Laid.{lead};
ghost use Rattle.stream.specs.Sink.{value_of, count};
ghost use Rattle.grammar.specs.Shape.{word as word', line as line'};
ghost use Rattle.tokens.specs.Corners.{id, bare as bare', valued as valued'};
ghost use Rattle.pen.specs.Pen.{Says, Anywhere, Past};
ghost use Rattle.pen.specs.Quick.{led_to, led_out, alone as alone'};

use mode::Edition;
use spelling::token::{TK_FLOAT, TK_ID, TK_INTEGER, TK_VARIABLE};
use stream::Sink;

// The sink, and the index of the next record. Each renderer takes a pen by value and hands out the pen behind what it wrote, beside
// the output that is lent to it: so a pen goes in registers, and its contract names what goes in and what comes out.
#[derive(Clone, Copy)]
pub struct Pen {
    pub sink: Sink,
    pub next: usize,
}

// What is lent to a renderer: the pool of spellings, the records of the tree, the text that they name parts of, and the edition
// that is asked for.
#[derive(Clone, Copy)]
pub struct Input<'a> {
    pub pool: &'a [u8],
    pub tree: &'a [u8],
    pub text: &'a [u8],
    pub edition: Edition,
}

// One token: a kind, and a value or none.
pub fn append(p: Pen, out: &mut [u8], from: &Input, kind: u16, value: Option<&[u8]>) -> Pen
    ensures { Says from.now.pool.now (record { kind = kind; value = value_of value.entry } ∷ []) (p, out.old) (result, out.new) }
{
    let s = stream::append(p.sink, out, kind, spelling::of(from.pool, kind), value);
    Pen {
        sink: Sink {
            spaced: s.spaced,
            at: s.at,
        },
        next: p.next,
    }
}

// Where a sink's count comes to by a space, unless it has one, and n bytes.
fn counted(s: Sink, n: usize) -> usize
    ensures { result ≡ count s.at (length (lead s.spaced) + n) }
{
    if s.spaced {
        return stream::plus(s.at, n);
    }
    stream::plus(stream::plus(s.at, 1), n)
}

// A space, unless the sink has one, and v: they are stored where there is room for them all, and counted where there is none.
// Where there is room for some, and where v has no bytes, nothing need be done: `append` does it.
fn lay(s: Sink, out: &mut [u8], v: &[u8]) -> Option<usize>
    ensures { (result ≡ led_to s (length out.old) v.now) × (out.new ≡ led_out s out.old v.now) }
{
    if out.len() <= s.at {
        return Some(counted(s, v.len()));
    }
    store::lay_all(out, s.at, s.spaced, v)
}

// A token with no value, of a kind that a tree says. A spelling of one byte is a mark, which may be tight or opening; a longer
// one is neither, and is laid at once.
pub fn bare(p: Pen, out: &mut [u8], from: &Input, kind: u16) -> Pen
    ensures { Says from.now.pool.now (bare' kind ∷ []) (p, out.old) (result, out.new) }
{
    let w = spelling::cut(from.pool, spelling::row(kind));
    if w.len() == 1 {
        let t = stream::gap(p.sink, out, kind);
        let u = stream::put_byte(t, out, w[0]);
        return Pen {
            sink: Sink {
                spaced: stream::opens(kind),
                at: u.at,
            },
            next: p.next,
        };
    }
    if w.len() == 0 {
        return append(p, out, from, kind, None);
    }
    match lay(p.sink, out, w) {
        None => append(p, out, from, kind, None),
        Some(at) => Pen {
            sink: Sink { spaced: false, at },
            next: p.next,
        },
    }
}

// Whether a kind is one of those of most values, which are written by them alone.
#[tactic(auto, unfolding(crate::specs::Quick::alone))]
fn alone(kind: u16) -> bool
    ensures { result ≡ alone' kind }
{
    matches!(kind, TK_ID | TK_INTEGER | TK_FLOAT | TK_VARIABLE)
}

// A token with a value, of a kind that a tree says. Most values are all that their token writes, and are laid at once.
pub fn valued(p: Pen, out: &mut [u8], from: &Input, kind: u16, value: &[u8]) -> Pen
    ensures { Says from.now.pool.now (valued' kind value.now ∷ []) (p, out.old) (result, out.new) }
{
    if !alone(kind) {
        return append(p, out, from, kind, Some(value));
    }
    match lay(p.sink, out, value) {
        None => append(p, out, from, kind, Some(value)),
        Some(at) => Pen {
            sink: Sink {
                spaced: blank::all_blank(value),
                at,
            },
            next: p.next,
        },
    }
}

// A token with no value.
pub fn word(p: Pen, out: &mut [u8], from: &Input, kind: u16) -> Pen
    ensures { Anywhere from.now.pool.now (word' kind) (p, out.old) (result, out.new) }
{
    append(p, out, from, kind, None)
}

// TK_ID with this text.
pub fn said(p: Pen, out: &mut [u8], from: &Input, value: &[u8]) -> Pen
    ensures { Says from.now.pool.now (id value.now ∷ []) (p, out.old) (result, out.new) }
{
    append(p, out, from, TK_ID, Some(value))
}

// A token with a newline as its value.
pub fn line(p: Pen, out: &mut [u8], from: &Input, kind: u16) -> Pen
    ensures { Anywhere from.now.pool.now (line' kind) (p, out.old) (result, out.new) }
{
    append(p, out, from, kind, Some(b"\n"))
}

// The index behind one of a tree: no further than its end.
fn behind(tree: &[u8], index: usize) -> usize
    ensures { result ≡ min (index + 1) (count' tree.now) }
{
    let n = record::count(tree);
    if index < n { index + 1 } else { n }
}

// The pen passes over a record, and stops at the end of the tree.
pub fn pass(p: Pen, from: &Input) -> Pen
    ensures { Past from.now.tree.now p result }
{
    let s = p.sink;
    let next = behind(from.tree, p.next);
    Pen {
        sink: Sink {
            spaced: s.spaced,
            at: s.at,
        },
        next,
    }
}
