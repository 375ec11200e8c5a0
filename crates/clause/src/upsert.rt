// What an upsert does.
ghost use Rattle.std.specs.Prelude.{[], ◌∷◌};
ghost use Rattle.grammar.specs.Kind.{UpsertSet, UpsertNothing};
ghost use Rattle.grammar.specs.Shape.{slot};
ghost use Rattle.grammar.specs.Grammar.{shape, node};
ghost use Rattle.pen.specs.Pen.{input, Always, Anywhere, Below};

use grammar::kind::{UPSERT_NOTHING, UPSERT_SET};
use parts::{clause, comma, run};
use pen::{Input, Pen, pass, word};
use spelling::token::{TK_DO, TK_NOTHING, TK_SET, TK_UPDATE, TK_WHERE};

// UpsertDo::Set (108).
fn upsert_set(p: Pen, out: &mut [u8], from: &Input) -> Pen
    ensures { Always (input from.now) from.now.pool.now (shape UpsertSet) (p, out.old) (result, out.new) }
{
    let q = word(p, out, from, TK_DO);
    let q = word(q, out, from, TK_UPDATE);
    let q = word(q, out, from, TK_SET);
    let q = comma(q, out, from);
    clause(q, out, from, TK_WHERE)
}

// UpsertDo::Nothing (109).
fn upsert_nothing(p: Pen, out: &mut [u8], from: &Input) -> Pen
    ensures { Anywhere from.now.pool.now (shape UpsertNothing) (p, out.old) (result, out.new) }
{
    let q = word(p, out, from, TK_DO);
    word(q, out, from, TK_NOTHING)
}

// UpsertDo (108 and 109).
pub fn upsert_do(p: Pen, out: &mut [u8], from: &Input, left: usize) -> Pen
    ensures { Below (input from.now) from.now.pool.now left (slot (node (UpsertSet ∷ UpsertNothing ∷ []))) (p, out.old) (result, out.new) }
{
    let r = record::read(from.tree, p.next);
    if left == 0 {
        return run(p, out, from);
    }
    let q = pass(p, from);
    if r.kind == UPSERT_SET {
        return upsert_set(q, out, from);
    }
    if r.kind == UPSERT_NOTHING {
        return upsert_nothing(q, out, from);
    }
    run(p, out, from)
}
