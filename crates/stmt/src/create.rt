// Statements that make something.
ghost use Rattle.std.specs.Prelude.{◌≡◌, ℕ};
ghost use Rattle.record.specs.declared.Record.{Record as Record'};
ghost use Rattle.grammar.specs.Kind.{CreateIndex, CreateTable, CreateTrigger, CreateView, CreateMaterializedView, CreateVirtualTable, CreateType, CreateDomain, CreateSequence};
ghost use Rattle.grammar.specs.Shape.{said as said', given, decimal, ◌·◌};
ghost use Rattle.grammar.specs.Grammar.{shape};
ghost use Rattle.tokens.specs.Tokens.{flagged};
ghost use Rattle.pen.specs.Pen.{input, input_in, Writes, Always, Below, Under, WithText};
ghost use Rattle.stmt.specs.Parts.{index_options as index_options', trigger_body as trigger_body', view_body as view_body', for_each_row', not_null', cycle'};

use clause::column::pair;
use clause::constraint::domain_constraint;
use clause::create_table::create_table_body;
use clause::custom::create_type_body;
use clause::select::{elements_in_parens, select};
use corners::number;
use grammar::kind::NONE;
use parts::{clause, columns, if_not_exists, in_parens, lines, list, name, run, word_if};
use pen::{Input, Pen, line, pass, said, word};
use spelling::token::{
    TK_AS, TK_BEGIN, TK_CREATE, TK_DEFAULT, TK_EACH, TK_END, TK_FOR, TK_INDEX, TK_MATERIALIZED,
    TK_NOT, TK_NULL, TK_ON, TK_ROW, TK_TABLE, TK_TEMP, TK_TRIGGER, TK_TYPE, TK_UNIQUE, TK_USING,
    TK_VIEW, TK_VIRTUAL, TK_WHEN, TK_WHERE, TK_WITH,
};

// An index's WITH, unless it is empty.
fn index_options(p: Pen, out: &mut [u8], from: &Input, left: usize) -> Pen
    ensures { Below (input from.now) from.now.pool.now left (index_options') (p, out.old) (result, out.new) }
{
    let r = record::read(from.tree, p.next);
    if r.kids == 0 {
        return pass(p, from);
    }
    let q = word(p, out, from, TK_WITH);
    elements_in_parens(q, out, from, |q, out, from| pair(q, out, from, left))
}

// CreateIndex (37).
pub fn create_index(
    p: Pen,
    out: &mut [u8],
    from: &Input,
    left: usize,
    unique: bool,
    not_there: bool,
) -> Pen
    ensures { (r : Record') → unique ≡ flagged 0 r → not_there ≡ flagged 1 r → Writes (input from.now) from.now.pool.now left r (shape CreateIndex) (p, out.old) (result, out.new) }
{
    let q = word(p, out, from, TK_CREATE);
    let q = word_if(q, out, from, unique, TK_UNIQUE);
    let q = word(q, out, from, TK_INDEX);
    let q = if_not_exists(q, out, from, not_there);
    let q = run(q, out, from);
    let q = word(q, out, from, TK_ON);
    let q = run(q, out, from);
    let q = clause(q, out, from, TK_USING);
    let q = in_parens(q, out, from);
    let q = index_options(q, out, from, left);
    clause(q, out, from, TK_WHERE)
}

// CreateTable (38).
pub fn create_table(
    p: Pen,
    out: &mut [u8],
    from: &Input,
    left: usize,
    temporary: bool,
    not_there: bool,
) -> Pen
    ensures { (r : Record') → temporary ≡ flagged 0 r → not_there ≡ flagged 1 r → Writes (input_in from.now) from.now.pool.now left r (shape CreateTable) (p, out.old) (result, out.new) }
{
    let q = word(p, out, from, TK_CREATE);
    let q = word_if(q, out, from, temporary, TK_TEMP);
    let q = word(q, out, from, TK_TABLE);
    let q = if_not_exists(q, out, from, not_there);
    let q = run(q, out, from);
    create_table_body(q, out, from, left)
}

// FOR EACH ROW if so.
fn for_each_row(p: Pen, out: &mut [u8], from: &Input, on: bool) -> Pen
    ensures { Under on for_each_row' from.now.pool.now (p, out.old) (result, out.new) }
{
    if on {
        let q = word(p, out, from, TK_FOR);
        let q = word(q, out, from, TK_EACH);
        return word(q, out, from, TK_ROW);
    }
    p
}

// What stands behind a trigger's table.
fn trigger_body(p: Pen, out: &mut [u8], from: &Input) -> Pen
    ensures { Always (input from.now) from.now.pool.now (trigger_body') (p, out.old) (result, out.new) }
{
    let q = clause(p, out, from, TK_WHEN);
    let q = line(q, out, from, TK_BEGIN);
    let q = lines(q, out, from);
    word(q, out, from, TK_END)
}

// CreateTrigger (39).
pub fn create_trigger(
    p: Pen,
    out: &mut [u8],
    from: &Input,
    temporary: bool,
    not_there: bool,
    each_row: bool,
) -> Pen
    ensures { (d : ℕ) (r : Record') → temporary ≡ flagged 0 r → not_there ≡ flagged 1 r → each_row ≡ flagged 2 r → Writes (input from.now) from.now.pool.now d r (shape CreateTrigger) (p, out.old) (result, out.new) }
{
    let q = word(p, out, from, TK_CREATE);
    let q = word_if(q, out, from, temporary, TK_TEMP);
    let q = word(q, out, from, TK_TRIGGER);
    let q = if_not_exists(q, out, from, not_there);
    let q = run(q, out, from);
    let q = run(q, out, from);
    let q = run(q, out, from);
    let q = word(q, out, from, TK_ON);
    let q = run(q, out, from);
    let q = for_each_row(q, out, from, each_row);
    trigger_body(q, out, from)
}

// A view's name, its columns and its select.
fn view_body(p: Pen, out: &mut [u8], from: &Input, left: usize) -> Pen
    ensures { Below (input from.now) from.now.pool.now left (view_body') (p, out.old) (result, out.new) }
{
    let q = run(p, out, from);
    let q = columns(q, out, from);
    let q = word(q, out, from, TK_AS);
    select(q, out, from, left)
}

// CreateView (40).
pub fn create_view(
    p: Pen,
    out: &mut [u8],
    from: &Input,
    left: usize,
    temporary: bool,
    not_there: bool,
) -> Pen
    ensures { (r : Record') → temporary ≡ flagged 0 r → not_there ≡ flagged 1 r → Writes (input from.now) from.now.pool.now left r (shape CreateView) (p, out.old) (result, out.new) }
{
    let q = word(p, out, from, TK_CREATE);
    let q = word_if(q, out, from, temporary, TK_TEMP);
    let q = word(q, out, from, TK_VIEW);
    let q = if_not_exists(q, out, from, not_there);
    view_body(q, out, from, left)
}

// CreateMaterializedView (41).
pub fn create_materialized_view(
    p: Pen,
    out: &mut [u8],
    from: &Input,
    left: usize,
    not_there: bool,
) -> Pen
    ensures { (r : Record') → not_there ≡ flagged 0 r → Writes (input from.now) from.now.pool.now left r (shape CreateMaterializedView) (p, out.old) (result, out.new) }
{
    let q = word(p, out, from, TK_CREATE);
    let q = word(q, out, from, TK_MATERIALIZED);
    let q = word(q, out, from, TK_VIEW);
    let q = if_not_exists(q, out, from, not_there);
    view_body(q, out, from, left)
}

// CreateVirtualTable (42).
pub fn create_virtual_table(p: Pen, out: &mut [u8], from: &Input, not_there: bool) -> Pen
    ensures { (d : ℕ) (r : Record') → not_there ≡ flagged 0 r → Writes (input from.now) from.now.pool.now d r (shape CreateVirtualTable) (p, out.old) (result, out.new) }
{
    let q = word(p, out, from, TK_CREATE);
    let q = word(q, out, from, TK_VIRTUAL);
    let q = word(q, out, from, TK_TABLE);
    let q = if_not_exists(q, out, from, not_there);
    let q = run(q, out, from);
    let q = word(q, out, from, TK_USING);
    let q = run(q, out, from);
    in_parens(q, out, from)
}

// CreateType (59).
pub fn create_type(p: Pen, out: &mut [u8], from: &Input, left: usize, not_there: bool) -> Pen
    ensures { (r : Record') → not_there ≡ flagged 0 r → Writes (input_in from.now) from.now.pool.now left r (shape CreateType) (p, out.old) (result, out.new) }
{
    let q = word(p, out, from, TK_CREATE);
    let q = word(q, out, from, TK_TYPE);
    let q = if_not_exists(q, out, from, not_there);
    let q = name(q, out, from);
    create_type_body(q, out, from, left)
}

// NOT NULL if so.
fn not_null(p: Pen, out: &mut [u8], from: &Input, on: bool) -> Pen
    ensures { Under on not_null' from.now.pool.now (p, out.old) (result, out.new) }
{
    if on {
        let q = word(p, out, from, TK_NOT);
        return word(q, out, from, TK_NULL);
    }
    p
}

// CreateDomain (60).
pub fn create_domain(
    p: Pen,
    out: &mut [u8],
    from: &Input,
    left: usize,
    not_there: bool,
    no_null: bool,
) -> Pen
    ensures { (r : Record') → not_there ≡ flagged 0 r → no_null ≡ flagged 1 r → Writes (input from.now) from.now.pool.now left r (shape CreateDomain) (p, out.old) (result, out.new) }
{
    let q = word(p, out, from, TK_CREATE);
    let q = said(q, out, from, b"DOMAIN");
    let q = if_not_exists(q, out, from, not_there);
    let q = name(q, out, from);
    let q = word(q, out, from, TK_AS);
    let q = name(q, out, from);
    let q = clause(q, out, from, TK_DEFAULT);
    let q = not_null(q, out, from, no_null);
    let element = |q: Pen, out: &mut [u8], from: &Input| domain_constraint(q, out, from, left);
    list(q, out, from, false, element)
}

// A word and a number, unless that is NONE.
fn number_clause(p: Pen, out: &mut [u8], from: &Input, value: &[u8]) -> Pen
    ensures { WithText value.now (λ v. Always (input from.now) from.now.pool.now (given (said' v · decimal)) (p, out.old) (result, out.new)) }
{
    let r = record::read(from.tree, p.next);
    if r.kind == NONE {
        return pass(p, from);
    }
    let q = said(p, out, from, value);
    number(q, out, from)
}

// Two words and a number, unless that is NONE.
fn number_clause_of_two(p: Pen, out: &mut [u8], from: &Input, first: &[u8], second: &[u8]) -> Pen
    ensures { WithText first.now (λ v. WithText second.now (λ z. Always (input from.now) from.now.pool.now (given (said' v · said' z · decimal)) (p, out.old) (result, out.new))) }
{
    let r = record::read(from.tree, p.next);
    if r.kind == NONE {
        return pass(p, from);
    }
    let q = said(p, out, from, first);
    let q = said(q, out, from, second);
    number(q, out, from)
}

// CYCLE if so.
fn cycles(p: Pen, out: &mut [u8], from: &Input, on: bool) -> Pen
    ensures { Under on cycle' from.now.pool.now (p, out.old) (result, out.new) }
{
    if on {
        return said(p, out, from, b"CYCLE");
    }
    p
}

// CreateSequence (62).
pub fn create_sequence(p: Pen, out: &mut [u8], from: &Input, not_there: bool, cycle: bool) -> Pen
    ensures { (d : ℕ) (r : Record') → not_there ≡ flagged 0 r → cycle ≡ flagged 1 r → Writes (input from.now) from.now.pool.now d r (shape CreateSequence) (p, out.old) (result, out.new) }
{
    let q = word(p, out, from, TK_CREATE);
    let q = said(q, out, from, b"SEQUENCE");
    let q = if_not_exists(q, out, from, not_there);
    let q = run(q, out, from);
    let q = number_clause_of_two(q, out, from, b"START", b"WITH");
    let q = number_clause_of_two(q, out, from, b"INCREMENT", b"BY");
    let q = number_clause(q, out, from, b"MINVALUE");
    let q = number_clause(q, out, from, b"MAXVALUE");
    cycles(q, out, from, cycle)
}
