// What a join goes by.
ghost use Rattle.std.specs.Prelude.{[], ◌∷◌};
ghost use Rattle.grammar.specs.Kind.{On, Using};
ghost use Rattle.grammar.specs.Shape.{slot};
ghost use Rattle.grammar.specs.Grammar.{shape, node};
ghost use Rattle.pen.specs.Pen.{input, Always, Below};

use grammar::kind::{ON, USING};
use parts::{in_parens, run};
use pen::{Input, Pen, pass, word};
use spelling::token::{TK_ON, TK_USING};

// On (91).
fn on(p: Pen, out: &mut [u8], from: &Input) -> Pen
    ensures { Always (input from.now) from.now.pool.now (shape On) (p, out.old) (result, out.new) }
{
    let q = word(p, out, from, TK_ON);
    run(q, out, from)
}

// Using (92).
fn using_columns(p: Pen, out: &mut [u8], from: &Input) -> Pen
    ensures { Always (input from.now) from.now.pool.now (shape Using) (p, out.old) (result, out.new) }
{
    let q = word(p, out, from, TK_USING);
    in_parens(q, out, from)
}

// JoinConstraint (91 and 92).
pub fn join_constraint(p: Pen, out: &mut [u8], from: &Input, left: usize) -> Pen
    ensures { Below (input from.now) from.now.pool.now left (slot (node (On ∷ Using ∷ []))) (p, out.old) (result, out.new) }
{
    let r = record::read(from.tree, p.next);
    if left == 0 {
        return run(p, out, from);
    }
    let q = pass(p, from);
    if r.kind == ON {
        return on(q, out, from);
    }
    if r.kind == USING {
        return using_columns(q, out, from);
    }
    run(p, out, from)
}
