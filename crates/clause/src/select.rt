// Select, one-select, from and table: each may hold the next, and a table a select again; the depth that is left falls. And the lists of clauses.
ghost use Rattle.std.specs.Prelude.{◌≡◌, ℕ, cond, [], ◌∷◌};
ghost use Rattle.record.specs.declared.Record.{Record as Record'};
ghost use Rattle.spelling.specs.Token.{TK_FROM as TK_FROM'};
ghost use Rattle.grammar.specs.Kind.{SelectBody, CompoundSelect, OneSelect, Values, JoinedTable, Table, TableCall, TableSelect, Sub, CommonTableExpr};
ghost use Rattle.grammar.specs.Shape.{Class, slot, commas as commas', row as row'};
ghost use Rattle.grammar.specs.Grammar.{shape, node, parens, clause as clause', select as select', one_select as one_select', from_clause as from_clause', select_table, with};
ghost use Rattle.pen.specs.Pen.{input, Writes, Always, Below, IfFlags};
ghost use Rattle.parts.specs.Lists.{EachBelow};
ghost use Rattle.clause.specs.Held.{held};
ghost use Rattle.clause.specs.Parts.{filters as filters', cte_body as cte_body', is_materialized, is_not_materialized};

use super::column::{column_definition, pair};
use super::constraint::{domain_constraint, named_table_constraint};
use super::join::join_constraint;
use super::types::{type_field, type_param};
use grammar::kind::{
    COLUMN_DEFINITION, COMMON_TABLE_EXPR, COMPOUND_SELECT, DOMAIN_CONSTRAINT, FROM_CLAUSE,
    JOINED_TABLE, NAMED_TABLE_CONSTRAINT, NONE, ONE_SELECT, PAIR, SELECT, SELECT_BODY, SUB, TABLE,
    TABLE_CALL, TABLE_SELECT, TYPE_FIELD, TYPE_PARAM, VALUES, WITH,
};
use parts::{clause, columns, comma, in_parens, run, tuples, word_list};
use pen::{Input, Pen, pass, word};
use spelling::token::{
    TK_AS, TK_FROM, TK_LP, TK_MATERIALIZED, TK_NOT, TK_RP, TK_SELECT, TK_VALUES, TK_WHERE,
    TK_WINDOW,
};

// The values of a CommonTableExpr's flags that write a word.
const MATERIALIZED: u16 = 1;

const NOT_MATERIALIZED: u16 = 2;

// Select (80).
#[cycle(select)]
pub fn select(p: Pen, out: &mut [u8], from: &Input, left: usize) -> Pen
    ensures { Below (input from.now) from.now.pool.now left (slot select') (p, out.old) (result, out.new) }
{
    let r = record::read(from.tree, p.next);
    if (left == 0) | (r.kind != SELECT) {
        return run(p, out, from);
    }
    let q = pass(p, from);
    let q = with_clause(q, out, from, left - 1);
    let q = body(q, out, from, left - 1);
    let q = run(q, out, from);
    run(q, out, from)
}

// SelectBody (81).
#[cycle(select)]
pub fn body(p: Pen, out: &mut [u8], from: &Input, left: usize) -> Pen
    ensures { Below (input from.now) from.now.pool.now left (slot (node (SelectBody ∷ []))) (p, out.old) (result, out.new) }
{
    let r = record::read(from.tree, p.next);
    if (left == 0) | (r.kind != SELECT_BODY) {
        return run(p, out, from);
    }
    let q = pass(p, from);
    let below = left - 1;
    let q = one_select(q, out, from, below);
    let next_select = |q: Pen, out: &mut [u8], from: &Input| -> Pen
        ensures { Below (input from.now) from.now.pool.now below (slot (node (CompoundSelect ∷ []))) (q, out.old) (result, out.new) }
    { compound(q, out, from, below) };
    parts::list(q, out, from, false, next_select)
}

// CompoundSelect (82).
#[cycle(select)]
pub fn compound(p: Pen, out: &mut [u8], from: &Input, left: usize) -> Pen
    ensures { Below (input from.now) from.now.pool.now left (slot (node (CompoundSelect ∷ []))) (p, out.old) (result, out.new) }
{
    let r = record::read(from.tree, p.next);
    if (left == 0) | (r.kind != COMPOUND_SELECT) {
        return run(p, out, from);
    }
    let q = pass(p, from);
    let q = run(q, out, from);
    one_select(q, out, from, left - 1)
}

// OneSelect (83 and 84).
#[cycle(select)]
pub fn one_select(p: Pen, out: &mut [u8], from: &Input, left: usize) -> Pen
    ensures { Below (input from.now) from.now.pool.now left (slot one_select') (p, out.old) (result, out.new) }
{
    let r = record::read(from.tree, p.next);
    if left == 0 {
        return run(p, out, from);
    }
    let q = pass(p, from);
    if r.kind == ONE_SELECT {
        return one(q, out, from, left - 1);
    }
    if r.kind == VALUES {
        return values(q, out, from);
    }
    run(p, out, from)
}

// OneSelect::Select (83).
#[cycle(select)]
fn one(p: Pen, out: &mut [u8], from: &Input, left: usize) -> Pen
    ensures { Below (input from.now) from.now.pool.now left (shape OneSelect) (p, out.old) (result, out.new) }
{
    let q = word(p, out, from, TK_SELECT);
    let q = run(q, out, from);
    let q = comma(q, out, from);
    let q = from_given(q, out, from, left);
    filters(q, out, from)
}

// What stands behind a from clause.
fn filters(p: Pen, out: &mut [u8], from: &Input) -> Pen
    ensures { Always (input from.now) from.now.pool.now (filters') (p, out.old) (result, out.new) }
{
    let q = clause(p, out, from, TK_WHERE);
    let q = run(q, out, from);
    word_list(q, out, from, TK_WINDOW)
}

// Values (84): nothing where there are no rows.
fn values(p: Pen, out: &mut [u8], from: &Input) -> Pen
    ensures { Always (input from.now) from.now.pool.now (shape Values) (p, out.old) (result, out.new) }
{
    let r = record::read(from.tree, p.next);
    if r.kids == 0 {
        return pass(p, from);
    }
    let q = word(p, out, from, TK_VALUES);
    tuples(q, out, from)
}

// FROM and a from clause, unless that is NONE.
#[cycle(select)]
pub fn from_given(p: Pen, out: &mut [u8], from: &Input, left: usize) -> Pen
    ensures { Below (input from.now) from.now.pool.now left (clause' TK_FROM' from_clause') (p, out.old) (result, out.new) }
{
    let r = record::read(from.tree, p.next);
    if r.kind == NONE {
        return pass(p, from);
    }
    let q = word(p, out, from, TK_FROM);
    from_clause(q, out, from, left)
}

// FromClause (85).
#[cycle(select)]
pub fn from_clause(p: Pen, out: &mut [u8], from: &Input, left: usize) -> Pen
    ensures { Below (input from.now) from.now.pool.now left (slot from_clause') (p, out.old) (result, out.new) }
{
    let r = record::read(from.tree, p.next);
    if (left == 0) | (r.kind != FROM_CLAUSE) {
        return run(p, out, from);
    }
    let q = pass(p, from);
    let below = left - 1;
    let q = table(q, out, from, below);
    let next_table = |q: Pen, out: &mut [u8], from: &Input| -> Pen
        ensures { Below (input from.now) from.now.pool.now below (slot (node (JoinedTable ∷ []))) (q, out.old) (result, out.new) }
    { joined(q, out, from, below) };
    parts::list(q, out, from, false, next_table)
}

// A joined table (86).
#[cycle(select)]
pub fn joined(p: Pen, out: &mut [u8], from: &Input, left: usize) -> Pen
    ensures { Below (input from.now) from.now.pool.now left (slot (node (JoinedTable ∷ []))) (p, out.old) (result, out.new) }
{
    let r = record::read(from.tree, p.next);
    if (left == 0) | (r.kind != JOINED_TABLE) {
        return run(p, out, from);
    }
    let q = pass(p, from);
    let q = run(q, out, from);
    let q = table(q, out, from, left - 1);
    join_constraint(q, out, from, left - 1)
}

// SelectTable (87 to 90).
#[cycle(select)]
pub fn table(p: Pen, out: &mut [u8], from: &Input, left: usize) -> Pen
    ensures { Below (input from.now) from.now.pool.now left (slot select_table) (p, out.old) (result, out.new) }
{
    let r = record::read(from.tree, p.next);
    if left == 0 {
        return run(p, out, from);
    }
    let q = pass(p, from);
    if r.kind == TABLE {
        return table_name(q, out, from);
    }
    if r.kind == TABLE_CALL {
        return table_call(q, out, from);
    }
    if r.kind == TABLE_SELECT {
        return table_select(q, out, from, left - 1);
    }
    if r.kind == SUB {
        return sub(q, out, from, left - 1);
    }
    run(p, out, from)
}

// SelectTable::Table (87).
fn table_name(p: Pen, out: &mut [u8], from: &Input) -> Pen
    ensures { Always (input from.now) from.now.pool.now (shape Table) (p, out.old) (result, out.new) }
{
    let q = run(p, out, from);
    let q = run(q, out, from);
    run(q, out, from)
}

// SelectTable::TableCall (88).
fn table_call(p: Pen, out: &mut [u8], from: &Input) -> Pen
    ensures { Always (input from.now) from.now.pool.now (shape TableCall) (p, out.old) (result, out.new) }
{
    let q = run(p, out, from);
    let q = in_parens(q, out, from);
    run(q, out, from)
}

// SelectTable::Select (89).
#[cycle(select)]
fn table_select(p: Pen, out: &mut [u8], from: &Input, left: usize) -> Pen
    ensures { Below (input from.now) from.now.pool.now left (shape TableSelect) (p, out.old) (result, out.new) }
{
    let q = word(p, out, from, TK_LP);
    let q = select(q, out, from, left);
    let q = word(q, out, from, TK_RP);
    run(q, out, from)
}

// SelectTable::Sub (90).
#[cycle(select)]
fn sub(p: Pen, out: &mut [u8], from: &Input, left: usize) -> Pen
    ensures { Below (input from.now) from.now.pool.now left (shape Sub) (p, out.old) (result, out.new) }
{
    let q = word(p, out, from, TK_LP);
    let q = from_clause(q, out, from, left);
    let q = word(q, out, from, TK_RP);
    run(q, out, from)
}

// With (110).
#[cycle(select)]
pub fn with_clause(p: Pen, out: &mut [u8], from: &Input, left: usize) -> Pen
    ensures { Below (input from.now) from.now.pool.now left (slot with) (p, out.old) (result, out.new) }
{
    let r = record::read(from.tree, p.next);
    if (left == 0) | (r.kind != WITH) {
        return run(p, out, from);
    }
    let q = pass(p, from);
    let q = run(q, out, from);
    let below = left - 1;
    let next_cte = |q: Pen, out: &mut [u8], from: &Input| -> Pen
        ensures { Below (input from.now) from.now.pool.now below (slot (node (CommonTableExpr ∷ []))) (q, out.old) (result, out.new) }
    { cte(q, out, from, below) };
    parts::list(q, out, from, true, next_cte)
}

// CommonTableExpr (106).
#[cycle(select)]
pub fn cte(p: Pen, out: &mut [u8], from: &Input, left: usize) -> Pen
    ensures { Below (input from.now) from.now.pool.now left (slot (node (CommonTableExpr ∷ []))) (p, out.old) (result, out.new) }
{
    let r = record::read(from.tree, p.next);
    if (left == 0) | (r.kind != COMMON_TABLE_EXPR) {
        return run(p, out, from);
    }
    let q = pass(p, from);
    let q = run(q, out, from);
    let q = columns(q, out, from);
    let q = word(q, out, from, TK_AS);
    cte_body(q, out, from, left - 1, r.flags)
}

// MATERIALIZED where the flags say so.
fn materialized(p: Pen, out: &mut [u8], from: &Input, flags: u16) -> Pen
    ensures { IfFlags flags is_materialized from.now.pool.now (p, out.old) (result, out.new) }
{
    if flags == MATERIALIZED {
        return word(p, out, from, TK_MATERIALIZED);
    }
    p
}

// NOT MATERIALIZED where the flags say so.
fn not_materialized(p: Pen, out: &mut [u8], from: &Input, flags: u16) -> Pen
    ensures { IfFlags flags is_not_materialized from.now.pool.now (p, out.old) (result, out.new) }
{
    if flags == NOT_MATERIALIZED {
        let q = word(p, out, from, TK_NOT);
        return word(q, out, from, TK_MATERIALIZED);
    }
    p
}

// What stands behind the AS of a CommonTableExpr.
#[cycle(select)]
fn cte_body(p: Pen, out: &mut [u8], from: &Input, left: usize, flags: u16) -> Pen
    ensures { (r : Record') → flags ≡ r.flags → Writes (input from.now) from.now.pool.now left r cte_body' (p, out.old) (result, out.new) }
{
    let q = materialized(p, out, from, flags);
    let q = not_materialized(q, out, from, flags);
    let q = word(q, out, from, TK_LP);
    let q = select(q, out, from, left);
    word(q, out, from, TK_RP)
}

// A LIST in brackets, with commas between its elements: each is written by element.
pub fn elements_in_parens<F: Fn(Pen, &mut [u8], &Input) -> Pen>(
    p: Pen,
    out: &mut [u8],
    from: &Input,
    element: F,
) -> Pen
    requires { F.IsAlwaysCallable element }
    ensures { (d : ℕ) (c : Class) → EachBelow input d c (F.post element) → Below (input from.now) from.now.pool.now d (parens (commas' c)) (p, out.old) (result, out.new) }
{
    let q = word(p, out, from, TK_LP);
    let q = parts::list(q, out, from, true, element);
    word(q, out, from, TK_RP)
}

// The next record, a clause of this kind, if such clauses stand in lists.
fn clause_of(p: Pen, out: &mut [u8], from: &Input, left: usize, kind: u16) -> Pen
    ensures { Below (input from.now) from.now.pool.now left (slot (node (held kind))) (p, out.old) (result, out.new) }
{
    if kind == COLUMN_DEFINITION {
        return column_definition(p, out, from, left);
    }
    if kind == NAMED_TABLE_CONSTRAINT {
        return named_table_constraint(p, out, from, left);
    }
    if kind == TYPE_FIELD {
        return type_field(p, out, from, left);
    }
    if kind == TYPE_PARAM {
        return type_param(p, out, from, left);
    }
    if kind == DOMAIN_CONSTRAINT {
        return domain_constraint(p, out, from, left);
    }
    if kind == PAIR {
        return pair(p, out, from, left);
    }
    if kind == COMMON_TABLE_EXPR {
        return cte(p, out, from, left);
    }
    if kind == COMPOUND_SELECT {
        return compound(p, out, from, left);
    }
    if kind == JOINED_TABLE {
        return joined(p, out, from, left);
    }
    run(p, out, from)
}

// The next record, a LIST of clauses of this kind, with commas between them or not. (For a caller who has the kind: it asks for no function, and any
// number is answered.)
pub fn list(p: Pen, out: &mut [u8], from: &Input, left: usize, kind: u16, commas: bool) -> Pen
    ensures { Below (input from.now) from.now.pool.now left (cond commas (commas' (node (held kind))) (row' (node (held kind)))) (p, out.old) (result, out.new) }
{
    let element = |q: Pen, out: &mut [u8], from: &Input| -> Pen
        ensures { Below (input from.now) from.now.pool.now left (slot (node (held kind))) (q, out.old) (result, out.new) }
    { clause_of(q, out, from, left, kind) };
    parts::list(p, out, from, commas, element)
}

// The same, with commas and in brackets.
pub fn list_in_parens(p: Pen, out: &mut [u8], from: &Input, left: usize, kind: u16) -> Pen
    ensures { Below (input from.now) from.now.pool.now left (parens (commas' (node (held kind)))) (p, out.old) (result, out.new) }
{
    let q = word(p, out, from, TK_LP);
    let q = list(q, out, from, left, kind, true);
    word(q, out, from, TK_RP)
}
