// Cmd and the root of a tree (01, section 2): what a whole tree writes.
#![tactic(auto)]

ghost use Rattle.std.specs.Prelude.{◌≡◌};
ghost use Rattle.record.specs.declared.Record.{Record as Record'};
ghost use Rattle.grammar.specs.Kind.{Cmd, Select};
ghost use Rattle.grammar.specs.Shape.{one, slot};
ghost use Rattle.grammar.specs.Grammar.{shape, from as from', node, root_kinds};
ghost use Rattle.tokens.specs.Tokens.{tokens_of};
ghost use Rattle.tokens.specs.Tokens.{in_edition};
ghost use Rattle.pen.specs.Pen.{input_in, emit, Writes, Anywhere, Below, IfFlags};
ghost use Rattle.cmd.specs.Root.{explaining, plan, planning, format_json as format_json', planning_json, late_clauses, RootRow, Rooted};

use clause::column::{column_definition, pair};
use clause::constraint::{
    domain_constraint, foreign_key_clause, named_table_constraint, table_constraint,
};
use clause::create_table::create_table_body;
use clause::custom::create_type_body;
use clause::join::join_constraint;
use clause::select::{
    body, compound, cte, from_clause, joined, one_select, select, table, with_clause,
};
use clause::table::alter_table_body;
use clause::types::{operator_clause, type_field, type_name, type_param};
use clause::upsert::upsert_do;
use grammar::kind::{
    AS_SELECT, CMD, COLUMN_DEFINITION, COMMON_TABLE_EXPR, COMPOUND_SELECT, CUSTOM_TYPE,
    DOMAIN_CONSTRAINT, DROP_COLUMN, FOREIGN_KEY, FOREIGN_KEY_CLAUSE, FROM_CLAUSE, JOINED_TABLE,
    LIST, OPERATOR_CLAUSE, PAIR, SELECT, SELECT_BODY, SUB, TYPE_FIELD, TYPE_NAME, TYPE_PARAM,
    UPSERT_NOTHING, USING, VALUES, WITH,
};
use parts::{elements, run};
use pen::{Input, Pen, pass, said, word};
use spelling::token::{TK_EQ, TK_EXPLAIN, TK_PLAN, TK_QUERY, TK_SEMI};
use stmt::stmt;
use stream::Sink;

// The values of Cmd's flags that write words.
const EXPLAIN: u16 = 1;

const QUERY_PLAN: u16 = 2;

const JSON: u16 = 3;

// How many records may stand below one another, the root among them.
const DEEPEST: usize = 64;

// EXPLAIN where the flags say so.
fn explain(p: Pen, out: &mut [u8], from: &Input, flags: u16) -> Pen
    ensures { IfFlags flags explaining from.now.pool.now (p, out.old) (result, out.new) }
{
    if flags == EXPLAIN {
        return word(p, out, from, TK_EXPLAIN);
    }
    p
}

// EXPLAIN QUERY PLAN.
fn query_plan(p: Pen, out: &mut [u8], from: &Input) -> Pen
    ensures { Anywhere from.now.pool.now plan (p, out.old) (result, out.new) }
{
    let q = word(p, out, from, TK_EXPLAIN);
    let q = word(q, out, from, TK_QUERY);
    word(q, out, from, TK_PLAN)
}

// EXPLAIN QUERY PLAN where the flags say so.
fn explain_query_plan(p: Pen, out: &mut [u8], from: &Input, flags: u16) -> Pen
    ensures { IfFlags flags planning from.now.pool.now (p, out.old) (result, out.new) }
{
    if flags == QUERY_PLAN {
        return query_plan(p, out, from);
    }
    p
}

// FORMAT = JSON.
fn format_json(p: Pen, out: &mut [u8], from: &Input) -> Pen
    ensures { Anywhere from.now.pool.now format_json' (p, out.old) (result, out.new) }
{
    let q = said(p, out, from, b"FORMAT");
    let q = word(q, out, from, TK_EQ);
    said(q, out, from, b"JSON")
}

// The same with Json where the flags say so.
fn explain_json(p: Pen, out: &mut [u8], from: &Input, flags: u16) -> Pen
    ensures { IfFlags flags planning_json from.now.pool.now (p, out.old) (result, out.new) }
{
    if flags == JSON {
        let q = query_plan(p, out, from);
        return format_json(q, out, from);
    }
    p
}

// Cmd (10).
fn cmd(p: Pen, out: &mut [u8], from: &Input, left: usize, flags: u16) -> Pen
    ensures { (r : Record') → flags ≡ r.flags → Writes (input_in from.now) from.now.pool.now left r (shape Cmd) (p, out.old) (result, out.new) }
{
    let q = explain(p, out, from, flags);
    let q = explain_query_plan(q, out, from, flags);
    let q = explain_json(q, out, from, flags);
    let q = stmt(q, out, from, left);
    word(q, out, from, TK_SEMI)
}

// The clauses from Select to AsSelect (80 to 99).
fn clause_to_as_select(p: Pen, out: &mut [u8], from: &Input, left: usize) -> Pen
    ensures { Below (input_in from.now) from.now.pool.now left (slot (node (from' Select 20))) (p, out.old) (result, out.new) }
{
    let r = record::read(from.tree, p.next);
    if r.kind < SELECT {
        return run(p, out, from);
    }
    if r.kind <= SELECT {
        return select(p, out, from, left);
    }
    if r.kind <= SELECT_BODY {
        return body(p, out, from, left);
    }
    if r.kind <= COMPOUND_SELECT {
        return compound(p, out, from, left);
    }
    if r.kind <= VALUES {
        return one_select(p, out, from, left);
    }
    if r.kind <= FROM_CLAUSE {
        return from_clause(p, out, from, left);
    }
    if r.kind <= JOINED_TABLE {
        return joined(p, out, from, left);
    }
    if r.kind <= SUB {
        return table(p, out, from, left);
    }
    if r.kind <= USING {
        return join_constraint(p, out, from, left);
    }
    if r.kind <= DROP_COLUMN {
        return alter_table_body(p, out, from, left);
    }
    if r.kind <= AS_SELECT {
        return create_table_body(p, out, from, left);
    }
    run(p, out, from)
}

// The clauses from ColumnDefinition to a named table constraint (100 to 118, and 120).
fn clause_to_named_table_constraint(p: Pen, out: &mut [u8], from: &Input, left: usize) -> Pen
    ensures { Below (input_in from.now) from.now.pool.now left (slot (node late_clauses)) (p, out.old) (result, out.new) }
{
    let r = record::read(from.tree, p.next);
    if r.kind < COLUMN_DEFINITION {
        return run(p, out, from);
    }
    if r.kind <= COLUMN_DEFINITION {
        return column_definition(p, out, from, left);
    }
    if r.kind <= FOREIGN_KEY {
        return table_constraint(p, out, from, left);
    }
    if r.kind <= FOREIGN_KEY_CLAUSE {
        return foreign_key_clause(p, out, from, left);
    }
    if r.kind <= COMMON_TABLE_EXPR {
        return cte(p, out, from, left);
    }
    if r.kind <= TYPE_NAME {
        return type_name(p, out, from, left);
    }
    if r.kind <= UPSERT_NOTHING {
        return upsert_do(p, out, from, left);
    }
    if r.kind <= WITH {
        return with_clause(p, out, from, left);
    }
    if r.kind <= CUSTOM_TYPE {
        return create_type_body(p, out, from, left);
    }
    if r.kind <= TYPE_FIELD {
        return type_field(p, out, from, left);
    }
    if r.kind <= TYPE_PARAM {
        return type_param(p, out, from, left);
    }
    if r.kind <= OPERATOR_CLAUSE {
        return operator_clause(p, out, from, left);
    }
    if r.kind <= DOMAIN_CONSTRAINT {
        return domain_constraint(p, out, from, left);
    }
    if r.kind <= PAIR {
        return pair(p, out, from, left);
    }
    named_table_constraint(p, out, from, left)
}

// What may stand in a root LIST: a RUN, a statement or a clause.
fn root_element(p: Pen, out: &mut [u8], from: &Input, left: usize) -> Pen
    ensures { Below (input_in from.now) from.now.pool.now left (slot (one root_kinds)) (p, out.old) (result, out.new) }
{
    let r = record::read(from.tree, p.next);
    if r.kind < SELECT {
        return stmt(p, out, from, left);
    }
    if r.kind < COLUMN_DEFINITION {
        return clause_to_as_select(p, out, from, left);
    }
    clause_to_named_table_constraint(p, out, from, left)
}

// So many elements of a root LIST, with commas between them.
fn root_elements(p: Pen, out: &mut [u8], from: &Input, left: usize, n: u16) -> Pen
    ensures { RootRow (in_edition from.now.tree.now from.now.text.now from.now.edition) from.now.pool.now left n (p, out.old) (result, out.new) }
{
    let element = |q: Pen, out: &mut [u8], from: &Input| root_element(q, out, from, left);
    elements(p, out, from, n, true, element)
}

// The root: Cmd, a LIST with commas, a RUN, a statement or a clause.
fn root(p: Pen, out: &mut [u8], from: &Input) -> Pen
    ensures { Rooted (in_edition from.now.tree.now from.now.text.now from.now.edition) from.now.pool.now 64 (p, out.old) (result, out.new) }
{
    let r = record::read(from.tree, p.next);
    let q = pass(p, from);
    if r.kind == LIST {
        return root_elements(q, out, from, DEEPEST, r.kids);
    }
    if r.kind == CMD {
        return cmd(q, out, from, DEEPEST - 1, r.flags);
    }
    root_element(p, out, from, DEEPEST)
}

// The tokens of a tree, written from its root on.
pub fn to_tokens(s: Sink, out: &mut [u8], from: &Input) -> Sink
    ensures { (result, out.new) ≡ emit from.now.pool.now (s, out.old) (tokens_of (in_edition from.now.tree.now from.now.text.now from.now.edition)) }
{
    let p = Pen { sink: s, next: 0 };
    let q = root(p, out, from);
    q.sink
}
