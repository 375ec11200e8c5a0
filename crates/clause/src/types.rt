// The parts of types: a type's name, a field, a parameter and an operator clause.
ghost use Rattle.std.specs.Prelude.{[], ◌∷◌};
ghost use Rattle.grammar.specs.Kind.{TypeField, TypeParam, OperatorClause};
ghost use Rattle.grammar.specs.Shape.{slot, given};
ghost use Rattle.grammar.specs.Grammar.{run as run', node, maybe, parens, type_name as type_name'};
ghost use Rattle.pen.specs.Pen.{input, input_in, Always, Below};

use corners::{dimensions, quoted};
use grammar::kind::{NONE, OPERATOR_CLAUSE, TYPE_FIELD, TYPE_NAME, TYPE_PARAM};
use parts::{name, run};
use pen::{Input, Pen, pass, said, word};
use spelling::token::{TK_LP, TK_RP};

// The size of a type, in brackets, unless it is NONE.
fn size(p: Pen, out: &mut [u8], from: &Input) -> Pen
    ensures { Always (input from.now) from.now.pool.now (given (parens (slot (maybe run')))) (p, out.old) (result, out.new) }
{
    let r = record::read(from.tree, p.next);
    if r.kind == NONE {
        return pass(p, from);
    }
    let q = word(p, out, from, TK_LP);
    let q = run(q, out, from);
    word(q, out, from, TK_RP)
}

// Type (107).
pub fn type_name(p: Pen, out: &mut [u8], from: &Input, left: usize) -> Pen
    ensures { Below (input from.now) from.now.pool.now left (slot type_name') (p, out.old) (result, out.new) }
{
    let r = record::read(from.tree, p.next);
    if (left == 0) | (r.kind != TYPE_NAME) {
        return run(p, out, from);
    }
    let q = pass(p, from);
    let q = name(q, out, from);
    let q = size(q, out, from);
    dimensions(q, out, from)
}

// TypeField (114).
pub fn type_field(p: Pen, out: &mut [u8], from: &Input, left: usize) -> Pen
    ensures { Below (input from.now) from.now.pool.now left (slot (node (TypeField ∷ []))) (p, out.old) (result, out.new) }
{
    let r = record::read(from.tree, p.next);
    if (left == 0) | (r.kind != TYPE_FIELD) {
        return run(p, out, from);
    }
    let q = pass(p, from);
    let q = run(q, out, from);
    type_name(q, out, from, left - 1)
}

// A type parameter (115).
pub fn type_param(p: Pen, out: &mut [u8], from: &Input, left: usize) -> Pen
    ensures { Below (input from.now) from.now.pool.now left (slot (node (TypeParam ∷ []))) (p, out.old) (result, out.new) }
{
    let r = record::read(from.tree, p.next);
    if (left == 0) | (r.kind != TYPE_PARAM) {
        return run(p, out, from);
    }
    let q = pass(p, from);
    let q = name(q, out, from);
    name(q, out, from)
}

// An operator clause (116).
pub fn operator_clause(p: Pen, out: &mut [u8], from: &Input, left: usize) -> Pen
    ensures { Below (input_in from.now) from.now.pool.now left (slot (node (OperatorClause ∷ []))) (p, out.old) (result, out.new) }
{
    let r = record::read(from.tree, p.next);
    if (left == 0) | (r.kind != OPERATOR_CLAUSE) {
        return run(p, out, from);
    }
    let q = pass(p, from);
    let q = said(q, out, from, b"OPERATOR");
    let q = quoted(q, out, from);
    name(q, out, from)
}
