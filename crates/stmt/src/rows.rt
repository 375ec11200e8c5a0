// Statements that change the rows of a table.
ghost use Rattle.grammar.specs.Kind.{Delete, Insert, Update};
ghost use Rattle.grammar.specs.Grammar.{shape};
ghost use Rattle.pen.specs.Pen.{input, Always, Below};
ghost use Rattle.stmt.specs.Parts.{insert_or as insert_or', update_rest as update_rest'};

use clause::select::{from_given, with_clause};
use grammar::kind::REPLACE;
use parts::{clause, columns, comma, run, word_list};
use pen::{Input, Pen, pass, word};
use spelling::token::{
    TK_DELETE, TK_FROM, TK_INSERT, TK_INTO, TK_OR, TK_REPLACE, TK_RETURNING, TK_SET, TK_UPDATE,
    TK_WHERE,
};

// Delete (43).
pub fn delete(p: Pen, out: &mut [u8], from: &Input, left: usize) -> Pen
    ensures { Below (input from.now) from.now.pool.now left (shape Delete) (p, out.old) (result, out.new) }
{
    let q = with_clause(p, out, from, left);
    let q = word(q, out, from, TK_DELETE);
    let q = word(q, out, from, TK_FROM);
    let q = run(q, out, from);
    let q = run(q, out, from);
    let q = clause(q, out, from, TK_WHERE);
    word_list(q, out, from, TK_RETURNING)
}

// REPLACE, or INSERT and any OR.
fn insert_or(p: Pen, out: &mut [u8], from: &Input) -> Pen
    ensures { Always (input from.now) from.now.pool.now (insert_or') (p, out.old) (result, out.new) }
{
    let r = record::read(from.tree, p.next);
    if r.kind == REPLACE {
        let q = word(p, out, from, TK_REPLACE);
        return pass(q, from);
    }
    let q = word(p, out, from, TK_INSERT);
    clause(q, out, from, TK_OR)
}

// Insert (49).
pub fn insert(p: Pen, out: &mut [u8], from: &Input, left: usize) -> Pen
    ensures { Below (input from.now) from.now.pool.now left (shape Insert) (p, out.old) (result, out.new) }
{
    let q = with_clause(p, out, from, left);
    let q = insert_or(q, out, from);
    let q = word(q, out, from, TK_INTO);
    let q = run(q, out, from);
    let q = columns(q, out, from);
    let q = run(q, out, from);
    word_list(q, out, from, TK_RETURNING)
}

// What stands behind an update's table.
fn update_rest(p: Pen, out: &mut [u8], from: &Input, left: usize) -> Pen
    ensures { Below (input from.now) from.now.pool.now left (update_rest') (p, out.old) (result, out.new) }
{
    let q = word(p, out, from, TK_SET);
    let q = comma(q, out, from);
    let q = from_given(q, out, from, left);
    let q = clause(q, out, from, TK_WHERE);
    word_list(q, out, from, TK_RETURNING)
}

// Update (57).
pub fn update(p: Pen, out: &mut [u8], from: &Input, left: usize) -> Pen
    ensures { Below (input from.now) from.now.pool.now left (shape Update) (p, out.old) (result, out.new) }
{
    let q = with_clause(p, out, from, left);
    let q = word(q, out, from, TK_UPDATE);
    let q = clause(q, out, from, TK_OR);
    let q = run(q, out, from);
    let q = run(q, out, from);
    update_rest(q, out, from, left)
}
