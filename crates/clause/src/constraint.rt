// Constraints of a table and of a domain.
ghost use Rattle.std.specs.Prelude.{◌≡◌, [], ◌∷◌, ℕ};
ghost use Rattle.record.specs.declared.Record.{Record as Record'};
ghost use Rattle.spelling.specs.Token.{TK_CONSTRAINT as TK_CONSTRAINT'};
ghost use Rattle.grammar.specs.Kind.{PrimaryKey, Unique, Check, ForeignKey, ForeignKeyClause, DomainConstraint, NamedTableConstraint};
ghost use Rattle.grammar.specs.Shape.{slot};
ghost use Rattle.grammar.specs.Grammar.{shape, from as from', text as text', node, clause};
ghost use Rattle.tokens.specs.Tokens.{flagged};
ghost use Rattle.pen.specs.Pen.{input, Writes, Always, Below};

use corners::source as check_source;
use grammar::kind::{
    CHECK, DOMAIN_CONSTRAINT, FOREIGN_KEY, FOREIGN_KEY_CLAUSE, NAMED_TABLE_CONSTRAINT, NONE,
    PRIMARY_KEY, UNIQUE,
};
use parts::{columns, comma, each, first_flag, in_parens, name, on_conflict, run, word_if};
use pen::{Input, Pen, pass, word};
use spelling::token::{
    TK_AUTOINCR, TK_CHECK, TK_CONSTRAINT, TK_FOREIGN, TK_KEY, TK_LP, TK_PRIMARY, TK_REFERENCES,
    TK_RP, TK_UNIQUE,
};

// PrimaryKey (101).
fn primary_key(p: Pen, out: &mut [u8], from: &Input, auto_increment: bool) -> Pen
    ensures { (d : ℕ) (r : Record') → auto_increment ≡ flagged 0 r → Writes (input from.now) from.now.pool.now d r (shape PrimaryKey) (p, out.old) (result, out.new) }
{
    let q = word(p, out, from, TK_PRIMARY);
    let q = word(q, out, from, TK_KEY);
    let q = word(q, out, from, TK_LP);
    let q = comma(q, out, from);
    let q = word_if(q, out, from, auto_increment, TK_AUTOINCR);
    let q = word(q, out, from, TK_RP);
    on_conflict(q, out, from)
}

// Unique (102).
fn unique(p: Pen, out: &mut [u8], from: &Input) -> Pen
    ensures { Always (input from.now) from.now.pool.now (shape Unique) (p, out.old) (result, out.new) }
{
    let q = word(p, out, from, TK_UNIQUE);
    let q = in_parens(q, out, from);
    on_conflict(q, out, from)
}

// Check (103).
fn check(p: Pen, out: &mut [u8], from: &Input) -> Pen
    ensures { Always (input from.now) from.now.pool.now (shape Check) (p, out.old) (result, out.new) }
{
    let q = word(p, out, from, TK_CHECK);
    let q = word(q, out, from, TK_LP);
    let q = check_source(q, out, from);
    word(q, out, from, TK_RP)
}

// ForeignKeyClause (105).
pub fn foreign_key_clause(p: Pen, out: &mut [u8], from: &Input, left: usize) -> Pen
    ensures { Below (input from.now) from.now.pool.now left (slot (node (ForeignKeyClause ∷ []))) (p, out.old) (result, out.new) }
{
    let r = record::read(from.tree, p.next);
    if (left == 0) | (r.kind != FOREIGN_KEY_CLAUSE) {
        return run(p, out, from);
    }
    let q = pass(p, from);
    let q = run(q, out, from);
    let q = columns(q, out, from);
    each(q, out, from)
}

// ForeignKey (104).
fn foreign_key(p: Pen, out: &mut [u8], from: &Input, left: usize) -> Pen
    ensures { Below (input from.now) from.now.pool.now left (shape ForeignKey) (p, out.old) (result, out.new) }
{
    let q = word(p, out, from, TK_FOREIGN);
    let q = word(q, out, from, TK_KEY);
    let q = in_parens(q, out, from);
    let q = word(q, out, from, TK_REFERENCES);
    let q = foreign_key_clause(q, out, from, left);
    run(q, out, from)
}

// TableConstraint (101 to 104).
pub fn table_constraint(p: Pen, out: &mut [u8], from: &Input, left: usize) -> Pen
    ensures { Below (input from.now) from.now.pool.now left (slot (node (from' PrimaryKey 4))) (p, out.old) (result, out.new) }
{
    let r = record::read(from.tree, p.next);
    if left == 0 {
        return run(p, out, from);
    }
    let q = pass(p, from);
    let auto_increment = first_flag(r.flags);
    if r.kind == PRIMARY_KEY {
        return primary_key(q, out, from, auto_increment);
    }
    if r.kind == UNIQUE {
        return unique(q, out, from);
    }
    if r.kind == CHECK {
        return check(q, out, from);
    }
    if r.kind == FOREIGN_KEY {
        return foreign_key(q, out, from, left - 1);
    }
    run(p, out, from)
}

// A named table constraint (120).
pub fn named_table_constraint(p: Pen, out: &mut [u8], from: &Input, left: usize) -> Pen
    ensures { Below (input from.now) from.now.pool.now left (slot (node (NamedTableConstraint ∷ []))) (p, out.old) (result, out.new) }
{
    let r = record::read(from.tree, p.next);
    if (left == 0) | (r.kind != NAMED_TABLE_CONSTRAINT) {
        return run(p, out, from);
    }
    let q = pass(p, from);
    let q = run(q, out, from);
    table_constraint(q, out, from, left - 1)
}

// CONSTRAINT and a name, unless that is NONE.
fn constraint_name(p: Pen, out: &mut [u8], from: &Input) -> Pen
    ensures { Always (input from.now) from.now.pool.now (clause TK_CONSTRAINT' text') (p, out.old) (result, out.new) }
{
    let r = record::read(from.tree, p.next);
    if r.kind == NONE {
        return pass(p, from);
    }
    let q = word(p, out, from, TK_CONSTRAINT);
    name(q, out, from)
}

// A domain constraint (117).
pub fn domain_constraint(p: Pen, out: &mut [u8], from: &Input, left: usize) -> Pen
    ensures { Below (input from.now) from.now.pool.now left (slot (node (DomainConstraint ∷ []))) (p, out.old) (result, out.new) }
{
    let r = record::read(from.tree, p.next);
    if (left == 0) | (r.kind != DOMAIN_CONSTRAINT) {
        return run(p, out, from);
    }
    let q = pass(p, from);
    let q = constraint_name(q, out, from);
    let q = word(q, out, from, TK_CHECK);
    let q = word(q, out, from, TK_LP);
    let q = run(q, out, from);
    word(q, out, from, TK_RP)
}
