// The body of CREATE TABLE.
ghost use Rattle.std.specs.Prelude.{[], ◌∷◌};
ghost use Rattle.grammar.specs.Kind.{ColumnsAndConstraints, AsSelect};
ghost use Rattle.grammar.specs.Shape.{slot};
ghost use Rattle.grammar.specs.Grammar.{shape, node};
ghost use Rattle.pen.specs.Pen.{input, input_in, Below};

use super::select::select;
use super::table::columns_and_constraints;
use grammar::kind::{AS_SELECT, COLUMNS_AND_CONSTRAINTS};
use parts::run;
use pen::{Input, Pen, pass, word};
use spelling::token::TK_AS;

// AsSelect (99).
fn as_select(p: Pen, out: &mut [u8], from: &Input, left: usize) -> Pen
    ensures { Below (input from.now) from.now.pool.now left (shape AsSelect) (p, out.old) (result, out.new) }
{
    let q = word(p, out, from, TK_AS);
    select(q, out, from, left)
}

// CreateTableBody (98 and 99).
pub fn create_table_body(p: Pen, out: &mut [u8], from: &Input, left: usize) -> Pen
    ensures { Below (input_in from.now) from.now.pool.now left (slot (node (ColumnsAndConstraints ∷ AsSelect ∷ []))) (p, out.old) (result, out.new) }
{
    let r = record::read(from.tree, p.next);
    if left == 0 {
        return run(p, out, from);
    }
    let q = pass(p, from);
    if r.kind == COLUMNS_AND_CONSTRAINTS {
        return columns_and_constraints(q, out, from, left - 1);
    }
    if r.kind == AS_SELECT {
        return as_select(q, out, from, left - 1);
    }
    run(p, out, from)
}
