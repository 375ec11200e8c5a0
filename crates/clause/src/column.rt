// A column of a table, and a name with its value.
ghost use Rattle.std.specs.Prelude.{[], ◌∷◌};
ghost use Rattle.grammar.specs.Kind.{Pair};
ghost use Rattle.grammar.specs.Shape.{slot};
ghost use Rattle.grammar.specs.Grammar.{node, column_definition as column_definition'};
ghost use Rattle.pen.specs.Pen.{input, Below};

use super::types::type_name;
use grammar::kind::{COLUMN_DEFINITION, PAIR};
use parts::{each, run};
use pen::{Input, Pen, pass, word};
use spelling::token::TK_EQ;

// ColumnDefinition (100).
pub fn column_definition(p: Pen, out: &mut [u8], from: &Input, left: usize) -> Pen
    ensures { Below (input from.now) from.now.pool.now left (slot column_definition') (p, out.old) (result, out.new) }
{
    let r = record::read(from.tree, p.next);
    if (left == 0) | (r.kind != COLUMN_DEFINITION) {
        return run(p, out, from);
    }
    let q = pass(p, from);
    let q = run(q, out, from);
    let q = type_name(q, out, from, left - 1);
    each(q, out, from)
}

// Name and value of an index's WITH (118).
pub fn pair(p: Pen, out: &mut [u8], from: &Input, left: usize) -> Pen
    ensures { Below (input from.now) from.now.pool.now left (slot (node (Pair ∷ []))) (p, out.old) (result, out.new) }
{
    let r = record::read(from.tree, p.next);
    if (left == 0) | (r.kind != PAIR) {
        return run(p, out, from);
    }
    let q = pass(p, from);
    let q = run(q, out, from);
    let q = word(q, out, from, TK_EQ);
    run(q, out, from)
}
