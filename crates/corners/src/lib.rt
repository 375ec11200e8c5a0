// The corners kept from the crate (01, section 4), and the numbers.
#![tactic(auto)]

ghost use Rattle.std.specs.Prelude.{◌≡◌, [], ◌∷◌, cond, eqb, take, drop};
ghost use Rattle.grammar.specs.Kind.{TEXT as TEXT'};
ghost use Rattle.tokens.specs.Tokens.{anything};
ghost use Rattle.decimal.specs.Decimal.{decimal};
ghost use Rattle.grammar.specs.Shape.{decimal as decimal', brackets, quoted as quoted', rowid as rowid', source as source', slot, both};
ghost use Rattle.grammar.specs.Grammar.{text as text', maybe};
ghost use Rattle.spelling.specs.Token.{TK_STRING as TK_STRING'};
ghost use Rattle.stream.specs.Stream.{some};
ghost use Rattle.stream.specs.Sink.{between, step};
ghost use Rattle.tokens.specs.Corners.{id, inner, without, dashes as dashes', pairs as pairs', sourced as sourced'};
ghost use Rattle.pen.specs.Pen.{input, input_in, Says, Always};
ghost use Rattle.corners.specs.Laws.{Textless};

use grammar::kind::{NUMBER, TEXT};
use mode::Edition;
use parts::{comma_if, name, part, run};
use pen::{Input, Pen, append, pass, word};
use record::Record;
use spelling::token::{TK_ID, TK_LBRACKET, TK_RBRACKET, TK_STRING, TK_WITHOUT};
use stream::Sink;

// The most dimensions of an array.
const MOST_DIMENSIONS: u32 = 255;

// How many parts the without-rowid text has where it is written.
const TWO_PARTS: usize = 2;

// The byte that a `--` has twice.
const DASH: u8 = 0x2D;

// A number's decimal text as TK_ID.
fn spelled(p: Pen, out: &mut [u8], from: &Input, n: i64) -> Pen
    ensures { Says from.now.pool.now (id (decimal n) ∷ []) (p, out.old) (result, out.new) }
{
    let number = decimal::spell(n);
    append(p, out, from, TK_ID, Some(number.text()))
}

// The next record, a NUMBER, as TK_ID. Any other kind, NONE too, writes nothing.
pub fn number(p: Pen, out: &mut [u8], from: &Input) -> Pen
    ensures { Textless from.now.tree.now from.now.pool.now decimal' (p, out.old) (result, out.new) }
{
    let r = record::read(from.tree, p.next);
    let q = pass(p, from);
    if r.kind != NUMBER {
        return q;
    }
    let n = record::number(r);
    spelled(q, out, from, n)
}

// So many pairs of brackets.
fn pairs(p: Pen, out: &mut [u8], from: &Input, n: u32) -> Pen
    ensures { Says from.now.pool.now (pairs' n) (p, out.old) (result, out.new) }
{
    let mut q = p;
    for _ in 0..n {
        q = word(q, out, from, TK_LBRACKET);
        q = word(q, out, from, TK_RBRACKET);
    }
    q
}

// The next record, a small NUMBER: so many pairs of brackets.
pub fn dimensions(p: Pen, out: &mut [u8], from: &Input) -> Pen
    ensures { Textless from.now.tree.now from.now.pool.now brackets (p, out.old) (result, out.new) }
{
    let r = record::read(from.tree, p.next);
    let q = pass(p, from);
    if r.kind != NUMBER {
        return q;
    }
    pairs(q, out, from, r.start.min(MOST_DIMENSIONS))
}

// TK_STRING, whose fixed spelling is word, with a value between quotes: as it is, or its quotes doubled.
fn in_edition(s: Sink, out: &mut [u8], word: &[u8], value: &[u8], edition: Edition) -> Sink
    ensures { (result, out.new) ≡ step (s, out.old) TK_STRING' word.now (some (between (inner edition value.now))) }
{
    if mode::sqlite(edition) {
        return stream::doubled(s, out, word, value);
    }
    stream::quoted(s, out, word, value)
}

// The next record, a TEXT, as TK_STRING between quotes; quotes in it are doubled in SQLite's edition alone.
pub fn quoted(p: Pen, out: &mut [u8], from: &Input) -> Pen
    ensures { Always (input_in from.now) from.now.pool.now quoted' (p, out.old) (result, out.new) }
{
    let r = record::read(from.tree, p.next);
    let q = pass(p, from);
    if r.kind != TEXT {
        return q;
    }
    let value = part(from.text, r.start as usize, r.len as usize);
    let s = in_edition(
        q.sink,
        out,
        spelling::of(from.pool, TK_STRING),
        value,
        from.edition,
    );
    Pen {
        sink: s,
        next: q.next,
    }
}

// The next record, the without-rowid TEXT: if it has two parts, WITHOUT and the second, whatever the first is.
fn rowid(p: Pen, out: &mut [u8], from: &Input) -> Pen
    ensures { Always (input from.now) from.now.pool.now rowid' (p, out.old) (result, out.new) }
{
    let r = record::read(from.tree, p.next);
    let q = pass(p, from);
    if r.kind != TEXT {
        return q;
    }
    let value = part(from.text, r.start as usize, r.len as usize);
    let parts = white::split(value);
    if parts.count != TWO_PARTS {
        return q;
    }
    match parts.second {
        Some(second) => {
            let second = part(value, second.start, second.len);
            let q = word(q, out, from, TK_WITHOUT);
            append(q, out, from, TK_ID, Some(second))
        }
        None => q,
    }
}

// Whether the without-rowid record is written.
fn rowid_written(r: Record, text: &[u8]) -> bool
    ensures { result ≡ anything (cond (eqb r.kind TEXT') (without (take r.len (drop r.start text.now))) []) }
{
    if r.kind != TEXT {
        return false;
    }
    let value = part(text, r.start as usize, r.len as usize);
    let parts = white::split(value);
    parts.count == TWO_PARTS
}

// The next records, the two options of a table: in SQLite's edition with a comma between them where both are written.
pub fn options(p: Pen, out: &mut [u8], from: &Input) -> Pen
    ensures { Always (input_in from.now) from.now.pool.now (both rowid' (slot (maybe text'))) (p, out.old) (result, out.new) }
{
    let r = record::read(from.tree, p.next);
    let q = rowid(p, out, from);
    if !mode::sqlite(from.edition) {
        return name(q, out, from);
    }
    let s = record::read(from.tree, q.next);
    let comma = rowid_written(r, from.text) & (s.kind == TEXT);
    let q = comma_if(q, out, from, comma);
    name(q, out, from)
}

// Whether a text contains `--`, in a literal too. By an index: over `windows(2)` with `any` the check
// does not find by itself that the answer is `dashes`.
fn dashes(text: &[u8]) -> bool
    ensures { result ≡ dashes' text.now }
{
    let n = text.len();
    let mut i = 1;
    while i < n {
        if (text[i - 1] == DASH) & (text[i] == DASH) {
            return true;
        }
        i += 1;
    }
    false
}

// A CHECK's source as TK_ID; a newline behind it where it has a `--`.
fn sourced(p: Pen, out: &mut [u8], from: &Input, value: &[u8]) -> Pen
    ensures { Says from.now.pool.now (sourced' value.now) (p, out.old) (result, out.new) }
{
    let q = append(p, out, from, TK_ID, Some(value));
    if dashes(value) {
        return append(q, out, from, TK_ID, Some(b"\n"));
    }
    q
}

// The next records, a CHECK's expression and its source: the source where it is there and not empty, else the expression.
pub fn source(p: Pen, out: &mut [u8], from: &Input) -> Pen
    ensures { Always (input from.now) from.now.pool.now source' (p, out.old) (result, out.new) }
{
    let mut nothing = [0u8; 0];
    let behind = run(p, &mut nothing, from);
    let next = behind.next;
    let r = record::read(from.tree, next);
    if (r.kind != TEXT) | (r.len == 0) {
        let q = run(p, out, from);
        return pass(q, from);
    }
    let s = p.sink;
    let q = pass(Pen { sink: s, next }, from);
    sourced(
        q,
        out,
        from,
        part(from.text, r.start as usize, r.len as usize),
    )
}
