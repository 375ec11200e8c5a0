// What fmt.rs's renderers share: runs and texts, lists of runs, parts that are there if a field is given or filled.
#![tactic(auto)]

ghost use Rattle.std.specs.Prelude.{◌≡◌, ℕ, [], take, drop};
ghost use Rattle.grammar.specs.Shape.{word as word', when, slot, commas as commas', row, lines as lines', tuples as tuples', filled, ◌·◌};
ghost use Rattle.grammar.specs.Grammar.{run as run', text as text', parens, clause as clause', on_conflict as on_conflict', if_not_exists as if_not_exists'};
ghost use Rattle.spelling.specs.Token.{TK_IF as TK_IF', TK_EXISTS as TK_EXISTS', TK_SEMI as TK_SEMI'};
ghost use Rattle.tokens.specs.Tokens.{Out, rows, listed, comma as comma'};
ghost use Rattle.mode.specs.declared.Edition.{Edition};
ghost use Rattle.pen.specs.Pen.{source_of, input, Puts, Says, Always, Flag, Under};
ghost use Rattle.pen.specs.Rows.{opt};
ghost use Rattle.pen.specs.Places.{token_at};
ghost use Rattle.parts.specs.Lists.{EachPuts};
ghost use Rattle.parts.specs.Runs.{Ended, SaidClause};

use grammar::kind::{LIST, NONE, RUN, TEXT, TOKEN};
use pen::{Input, Pen, append, bare, line, pass, said, valued, word};
use spelling::token::{
    TK_COMMA, TK_CONFLICT, TK_EXISTS, TK_ID, TK_IF, TK_LP, TK_NOT, TK_ON, TK_RP, TK_SEMI,
};
use stream::Sink;

// Bit 15 of a TOKEN's flags: a value is present. The number is below it.
const PRESENT: u16 = 0x8000;

// The part of the text from start on of len bytes; what of it is past the end is not there.
pub fn part(text: &[u8], start: usize, len: usize) -> &[u8]
    ensures { result.now ≡ take len (drop start text.now) }
{
    if text.len() < start {
        return &text[..0];
    }
    if text.len() - start < len {
        return &text[start..];
    }
    let end = start + len;
    &text[start..end]
}

// The next record, a TOKEN.
fn token(p: Pen, out: &mut [u8], from: &Input) -> Pen
    ensures { (v : Edition) → Puts from.now.pool.now (token_at (source_of v (input from.now)) p.next) (p, out.old) (result, out.new) }
{
    let r = record::read(from.tree, p.next);
    let q = pass(p, from);
    if r.kind != TOKEN {
        return q;
    }
    if r.flags < PRESENT {
        return bare(q, out, from, r.flags);
    }
    let value = part(from.text, r.start as usize, r.len as usize);
    valued(q, out, from, r.flags % PRESENT, value)
}

// So many TOKENs, one behind the other. The pen is moved field by field: assigned whole, its unused bytes are copied too, for
// each token (render takes 115,000 instructions more, 4.7 %).
fn tokens(p: Pen, out: &mut [u8], from: &Input, n: u16) -> Pen
    ensures { (v : Edition) → Puts from.now.pool.now (rows (token_at (source_of v (input from.now))) [] [] n p.next) (p, out.old) (result, out.new) }
{
    let mut q = p;
    for _ in 0..n {
        let t = token(q, out, from);
        q.sink.spaced = t.sink.spaced;
        q.sink.at = t.sink.at;
        q.next = t.next;
    }
    q
}

// The next record, a RUN: its tokens. Any other kind, NONE too, writes nothing. The pen comes in its fields: handed on whole, it
// would be stored and copied for each call, its unused bytes too (render takes 32,000 instructions more, 1.3 %).
fn run_from(spaced: bool, at: usize, next: usize, out: &mut [u8], from: &Input) -> Pen
    ensures { Always (input from.now) from.now.pool.now (slot run') (record { sink = record { spaced = spaced; at = at }; next = next }, out.old) (result, out.new) }
{
    let r = record::read(from.tree, next);
    let sink = Sink { spaced, at };
    let q = pass(Pen { sink, next }, from);
    if r.kind != RUN {
        return q;
    }
    tokens(q, out, from, r.kids)
}

// The same for a pen.
#[inline(always)]
pub fn run(p: Pen, out: &mut [u8], from: &Input) -> Pen
    ensures { Always (input from.now) from.now.pool.now (slot run') (p, out.old) (result, out.new) }
{
    run_from(p.sink.spaced, p.sink.at, p.next, out, from)
}

// The next record, a TEXT, as TK_ID. Any other kind, NONE too, writes nothing.
pub fn name(p: Pen, out: &mut [u8], from: &Input) -> Pen
    ensures { Always (input from.now) from.now.pool.now (slot text') (p, out.old) (result, out.new) }
{
    let r = record::read(from.tree, p.next);
    let q = pass(p, from);
    if r.kind != TEXT {
        return q;
    }
    let value = part(from.text, r.start as usize, r.len as usize);
    append(q, out, from, TK_ID, Some(value))
}

// ---- flags, and words under a flag. A bit has a function of one line: one function for any bit would ask each caller for a
// number below 16, and is no plainer.

// The first flag bit.
pub fn first_flag(flags: u16) -> bool
    ensures { Flag 0 flags result }
{
    flags % 2 == 1
}

// The second flag bit.
pub fn second_flag(flags: u16) -> bool
    ensures { Flag 1 flags result }
{
    (flags / 2) % 2 == 1
}

// The third flag bit.
pub fn third_flag(flags: u16) -> bool
    ensures { Flag 2 flags result }
{
    (flags / 4) % 2 == 1
}

// A word if so.
pub fn word_if(p: Pen, out: &mut [u8], from: &Input, on: bool, kind: u16) -> Pen
    ensures { Under on (λ bit. when bit (word' kind)) from.now.pool.now (p, out.old) (result, out.new) }
{
    if on {
        return word(p, out, from, kind);
    }
    p
}

// IF EXISTS if so.
pub fn if_exists(p: Pen, out: &mut [u8], from: &Input, on: bool) -> Pen
    ensures { Under on (λ bit. when bit (word' TK_IF' · word' TK_EXISTS')) from.now.pool.now (p, out.old) (result, out.new) }
{
    if on {
        let q = word(p, out, from, TK_IF);
        return word(q, out, from, TK_EXISTS);
    }
    p
}

// IF NOT EXISTS if so.
pub fn if_not_exists(p: Pen, out: &mut [u8], from: &Input, on: bool) -> Pen
    ensures { Under on if_not_exists' from.now.pool.now (p, out.old) (result, out.new) }
{
    if on {
        let q = word(p, out, from, TK_IF);
        let q = word(q, out, from, TK_NOT);
        return word(q, out, from, TK_EXISTS);
    }
    p
}

// ---- lists

// A comma if so.
pub fn comma_if(p: Pen, out: &mut [u8], from: &Input, on: bool) -> Pen
    ensures { Says from.now.pool.now (opt on comma') (p, out.old) (result, out.new) }
{
    if on {
        return append(p, out, from, TK_COMMA, None);
    }
    p
}

// So many elements, one behind the other, with commas between them or not: each is written by element.
pub fn elements<F: Fn(Pen, &mut [u8], &Input) -> Pen>(
    p: Pen,
    out: &mut [u8],
    from: &Input,
    n: u16,
    commas: bool,
    element: F,
) -> Pen
    requires { F.IsAlwaysCallable element }
    ensures { (f : ℕ → Out) → EachPuts from.now f (F.post element) → Puts from.now.pool.now (rows f [] (opt commas comma') n p.next) (p, out.old) (result, out.new) }
{
    let mut q = p;
    for i in 0..n {
        q = comma_if(q, out, from, commas & (0 < i));
        q = element(q, out, from);
    }
    q
}

// The next record, a LIST, with commas between its elements or not: each is written by element. Any other kind, NONE too, writes nothing.
pub fn list<F: Fn(Pen, &mut [u8], &Input) -> Pen>(
    p: Pen,
    out: &mut [u8],
    from: &Input,
    commas: bool,
    element: F,
) -> Pen
    requires { F.IsAlwaysCallable element }
    ensures { (v : Edition) (f : ℕ → Out) → EachPuts from.now f (F.post element) → Puts from.now.pool.now (listed (source_of v (input from.now)) f (opt commas comma') p.next) (p, out.old) (result, out.new) }
{
    let r = record::read(from.tree, p.next);
    let q = pass(p, from);
    if r.kind != LIST {
        return q;
    }
    elements(q, out, from, r.kids, commas, element)
}

// The next record, a LIST of RUNs, with commas between them.
pub fn comma(p: Pen, out: &mut [u8], from: &Input) -> Pen
    ensures { Always (input from.now) from.now.pool.now (commas' run') (p, out.old) (result, out.new) }
{
    list(p, out, from, true, run)
}

// The next record, a LIST of RUNs, one behind the other.
pub fn each(p: Pen, out: &mut [u8], from: &Input) -> Pen
    ensures { Always (input from.now) from.now.pool.now (row run') (p, out.old) (result, out.new) }
{
    list(p, out, from, false, run)
}

// The same as `comma`, in brackets.
pub fn in_parens(p: Pen, out: &mut [u8], from: &Input) -> Pen
    ensures { Always (input from.now) from.now.pool.now (parens (commas' run')) (p, out.old) (result, out.new) }
{
    let q = word(p, out, from, TK_LP);
    let q = comma(q, out, from);
    word(q, out, from, TK_RP)
}

// A RUN with a `;` and a newline behind it.
fn ended(p: Pen, out: &mut [u8], from: &Input) -> Pen
    ensures { Ended (input from.now) from.now.pool.now (p, out.old) (result, out.new) }
{
    let q = run(p, out, from);
    line(q, out, from, TK_SEMI)
}

// The next record, a LIST of RUNs, each with a `;` and a newline behind it.
pub fn lines(p: Pen, out: &mut [u8], from: &Input) -> Pen
    ensures { Always (input from.now) from.now.pool.now (lines' run' TK_SEMI') (p, out.old) (result, out.new) }
{
    list(p, out, from, false, ended)
}

// The next record, a LIST of LISTs of RUNs, each in brackets, with commas between them.
pub fn tuples(p: Pen, out: &mut [u8], from: &Input) -> Pen
    ensures { Always (input from.now) from.now.pool.now (tuples' run') (p, out.old) (result, out.new) }
{
    list(p, out, from, true, in_parens)
}

// ---- parts that are there if a field is filled or given

// A LIST of RUNs in brackets, unless it is empty.
pub fn columns(p: Pen, out: &mut [u8], from: &Input) -> Pen
    ensures { Always (input from.now) from.now.pool.now (filled (parens (commas' run'))) (p, out.old) (result, out.new) }
{
    let r = record::read(from.tree, p.next);
    if r.kids == 0 {
        return pass(p, from);
    }
    in_parens(p, out, from)
}

// A word and a LIST of RUNs, unless it is empty.
pub fn word_list(p: Pen, out: &mut [u8], from: &Input, kind: u16) -> Pen
    ensures { Always (input from.now) from.now.pool.now (filled (word' kind · commas' run')) (p, out.old) (result, out.new) }
{
    let r = record::read(from.tree, p.next);
    if r.kids == 0 {
        return pass(p, from);
    }
    let q = word(p, out, from, kind);
    comma(q, out, from)
}

// A word and a RUN, unless that is NONE.
pub fn clause(p: Pen, out: &mut [u8], from: &Input, kind: u16) -> Pen
    ensures { Always (input from.now) from.now.pool.now (clause' kind run') (p, out.old) (result, out.new) }
{
    let r = record::read(from.tree, p.next);
    if r.kind == NONE {
        return pass(p, from);
    }
    let q = word(p, out, from, kind);
    run(q, out, from)
}

// TK_ID with a text and a RUN, unless that is NONE.
pub fn said_clause(p: Pen, out: &mut [u8], from: &Input, value: &[u8]) -> Pen
    ensures { SaidClause (input from.now) from.now.pool.now value.now (p, out.old) (result, out.new) }
{
    let r = record::read(from.tree, p.next);
    if r.kind == NONE {
        return pass(p, from);
    }
    let q = said(p, out, from, value);
    run(q, out, from)
}

// ON CONFLICT and a RUN, unless that is NONE.
pub fn on_conflict(p: Pen, out: &mut [u8], from: &Input) -> Pen
    ensures { Always (input from.now) from.now.pool.now on_conflict' (p, out.old) (result, out.new) }
{
    let r = record::read(from.tree, p.next);
    if r.kind == NONE {
        return pass(p, from);
    }
    let q = word(p, out, from, TK_ON);
    let q = word(q, out, from, TK_CONFLICT);
    run(q, out, from)
}
