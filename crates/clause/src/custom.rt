// What a type is made of.
ghost use Rattle.std.specs.Prelude.{[], ◌∷◌};
ghost use Rattle.spelling.specs.Token.{TK_AS as TK_AS'};
ghost use Rattle.grammar.specs.Kind.{Struct, Union, CustomType, TypeField, TypeParam, OperatorClause};
ghost use Rattle.grammar.specs.Shape.{slot, word as word', said as said', commas, row, filled, ◌·◌};
ghost use Rattle.grammar.specs.Grammar.{shape, node, parens};
ghost use Rattle.pen.specs.Pen.{input, input_in, Below, WithText};
ghost use Rattle.clause.specs.Later.{operators_later};

use super::select::elements_in_parens;
use super::types::{operator_clause, type_field, type_param};
use grammar::kind::{CUSTOM_TYPE, STRUCT, UNION};
use parts::{list, name, run, said_clause};
use pen::{Input, Pen, pass, said, word};
use spelling::token::TK_AS;

// AS, a word and the fields, in brackets: Struct (111) and Union (112).
fn type_fields(p: Pen, out: &mut [u8], from: &Input, left: usize, value: &[u8]) -> Pen
    ensures { WithText value.now (λ v. Below (input from.now) from.now.pool.now left (word' TK_AS' · said' v · parens (commas (node (TypeField ∷ [])))) (p, out.old) (result, out.new)) }
{
    let q = word(p, out, from, TK_AS);
    let q = said(q, out, from, value);
    elements_in_parens(q, out, from, |q, out, from| type_field(q, out, from, left))
}

// The parameters, in brackets, unless there are none.
fn params(p: Pen, out: &mut [u8], from: &Input, left: usize) -> Pen
    ensures { Below (input from.now) from.now.pool.now left (filled (parens (commas (node (TypeParam ∷ []))))) (p, out.old) (result, out.new) }
{
    let r = record::read(from.tree, p.next);
    if r.kids == 0 {
        return pass(p, from);
    }
    elements_in_parens(p, out, from, |q, out, from| type_param(q, out, from, left))
}

// The next record, a LIST of operator clauses.
fn operators(p: Pen, out: &mut [u8], from: &Input, left: usize) -> Pen
    ensures { Below (input_in from.now) from.now.pool.now left (row (node (OperatorClause ∷ []))) (p, out.old) (result, out.new) }
{
    let element = |q: Pen, out: &mut [u8], from: &Input| operator_clause(q, out, from, left);
    list(p, out, from, false, element)
}

// The operators and the default: held in this order, written in the other.
fn default_first(p: Pen, out: &mut [u8], from: &Input, left: usize) -> Pen
    ensures { Below (input_in from.now) from.now.pool.now left (operators_later) (p, out.old) (result, out.new) }
{
    let mut nothing = [0u8; 0];
    let behind = operators(p, &mut nothing, from, left);
    let start = p.next;
    let s = p.sink;
    let q = said_clause(
        Pen {
            sink: s,
            next: behind.next,
        },
        out,
        from,
        b"DEFAULT",
    );
    let end = q.next;
    let s = q.sink;
    let q = operators(
        Pen {
            sink: s,
            next: start,
        },
        out,
        from,
        left,
    );
    let s = q.sink;
    Pen { sink: s, next: end }
}

// CustomType (113).
fn custom_type(p: Pen, out: &mut [u8], from: &Input, left: usize) -> Pen
    ensures { Below (input_in from.now) from.now.pool.now left (shape CustomType) (p, out.old) (result, out.new) }
{
    let q = params(p, out, from, left);
    let q = said(q, out, from, b"BASE");
    let q = name(q, out, from);
    let q = said_clause(q, out, from, b"ENCODE");
    let q = said_clause(q, out, from, b"DECODE");
    default_first(q, out, from, left)
}

// CreateTypeBody (111 to 113).
pub fn create_type_body(p: Pen, out: &mut [u8], from: &Input, left: usize) -> Pen
    ensures { Below (input_in from.now) from.now.pool.now left (slot (node (Struct ∷ Union ∷ CustomType ∷ []))) (p, out.old) (result, out.new) }
{
    let r = record::read(from.tree, p.next);
    if left == 0 {
        return run(p, out, from);
    }
    let q = pass(p, from);
    if r.kind == STRUCT {
        return type_fields(q, out, from, left - 1, b"STRUCT");
    }
    if r.kind == UNION {
        return type_fields(q, out, from, left - 1, b"UNION");
    }
    if r.kind == CUSTOM_TYPE {
        return custom_type(q, out, from, left - 1);
    }
    run(p, out, from)
}
