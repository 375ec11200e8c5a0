// The statements (01, section 2, kinds 32 to 64): a function a kind, with fmt.rs's names, each proved to write its entry.
#![tactic(auto)]

ghost use Rattle.grammar.specs.Kind.{AlterTable, Delete, Savepoint};
ghost use Rattle.grammar.specs.Shape.{slot};
ghost use Rattle.grammar.specs.Grammar.{from as from', node, statement};
ghost use Rattle.pen.specs.Pen.{input, input_in, Below};

use clause::select::select;
use create::{
    create_domain, create_index, create_materialized_view, create_sequence, create_table,
    create_trigger, create_type, create_view, create_virtual_table,
};
use drop::{drop_domain, drop_named, drop_sequence, drop_type};
use grammar::kind::{
    ALTER_TABLE, ANALYZE, ATTACH, BEGIN, COMMIT, CREATE_DOMAIN, CREATE_INDEX,
    CREATE_MATERIALIZED_VIEW, CREATE_SEQUENCE, CREATE_TABLE, CREATE_TRIGGER, CREATE_TYPE,
    CREATE_VIEW, CREATE_VIRTUAL_TABLE, DELETE, DETACH, DROP_DOMAIN, DROP_INDEX, DROP_SEQUENCE,
    DROP_TABLE, DROP_TRIGGER, DROP_TYPE, DROP_VIEW, INSERT, OPTIMIZE, PRAGMA, REINDEX, RELEASE,
    ROLLBACK, SAVEPOINT, SELECT_STMT, UPDATE, VACUUM,
};
use parts::{first_flag, run, second_flag, third_flag};
use pen::{Input, Pen, pass};
use plain::{alter_table, attach, begin, commit, optimize, pragma, rollback, vacuum, word_run};
use rows::{delete, insert, update};
use spelling::token::{
    TK_ANALYZE, TK_DETACH, TK_INDEX, TK_REINDEX, TK_RELEASE, TK_SAVEPOINT, TK_TABLE, TK_TRIGGER,
    TK_VIEW,
};

mod create;
mod drop;
mod plain;
mod rows;

// The statements from AlterTable to CreateVirtualTable (32 to 42).
fn stmt_to_create_virtual_table(p: Pen, out: &mut [u8], from: &Input, left: usize) -> Pen
    ensures { Below (input_in from.now) from.now.pool.now left (slot (node (from' AlterTable 11))) (p, out.old) (result, out.new) }
{
    let r = record::read(from.tree, p.next);
    if left == 0 {
        return run(p, out, from);
    }
    let q = pass(p, from);
    let first = first_flag(r.flags);
    let second = second_flag(r.flags);
    let third = third_flag(r.flags);
    if r.kind == ALTER_TABLE {
        return alter_table(q, out, from, left - 1);
    }
    if r.kind == ANALYZE {
        return word_run(q, out, from, TK_ANALYZE);
    }
    if r.kind == ATTACH {
        return attach(q, out, from);
    }
    if r.kind == BEGIN {
        return begin(q, out, from);
    }
    if r.kind == COMMIT {
        return commit(q, out, from);
    }
    if r.kind == CREATE_INDEX {
        return create_index(q, out, from, left - 1, first, second);
    }
    if r.kind == CREATE_TABLE {
        return create_table(q, out, from, left - 1, first, second);
    }
    if r.kind == CREATE_TRIGGER {
        return create_trigger(q, out, from, first, second, third);
    }
    if r.kind == CREATE_VIEW {
        return create_view(q, out, from, left - 1, first, second);
    }
    if r.kind == CREATE_MATERIALIZED_VIEW {
        return create_materialized_view(q, out, from, left - 1, first);
    }
    if r.kind == CREATE_VIRTUAL_TABLE {
        return create_virtual_table(q, out, from, first);
    }
    run(p, out, from)
}

// The statements from Delete to Rollback (43 to 54).
fn stmt_to_rollback(p: Pen, out: &mut [u8], from: &Input, left: usize) -> Pen
    ensures { Below (input from.now) from.now.pool.now left (slot (node (from' Delete 12))) (p, out.old) (result, out.new) }
{
    let r = record::read(from.tree, p.next);
    if left == 0 {
        return run(p, out, from);
    }
    let q = pass(p, from);
    let first = first_flag(r.flags);
    if r.kind == DELETE {
        return delete(q, out, from, left - 1);
    }
    if r.kind == DETACH {
        return word_run(q, out, from, TK_DETACH);
    }
    if r.kind == DROP_INDEX {
        return drop_named(q, out, from, first, TK_INDEX);
    }
    if r.kind == DROP_TABLE {
        return drop_named(q, out, from, first, TK_TABLE);
    }
    if r.kind == DROP_TRIGGER {
        return drop_named(q, out, from, first, TK_TRIGGER);
    }
    if r.kind == DROP_VIEW {
        return drop_named(q, out, from, first, TK_VIEW);
    }
    if r.kind == INSERT {
        return insert(q, out, from, left - 1);
    }
    if r.kind == PRAGMA {
        return pragma(q, out, from);
    }
    if r.kind == REINDEX {
        return word_run(q, out, from, TK_REINDEX);
    }
    if r.kind == OPTIMIZE {
        return optimize(q, out, from);
    }
    if r.kind == RELEASE {
        return word_run(q, out, from, TK_RELEASE);
    }
    if r.kind == ROLLBACK {
        return rollback(q, out, from);
    }
    run(p, out, from)
}

// The statements from Savepoint to DropDomain (55 to 64).
fn stmt_to_drop_domain(p: Pen, out: &mut [u8], from: &Input, left: usize) -> Pen
    ensures { Below (input_in from.now) from.now.pool.now left (slot (node (from' Savepoint 10))) (p, out.old) (result, out.new) }
{
    let r = record::read(from.tree, p.next);
    if left == 0 {
        return run(p, out, from);
    }
    let q = pass(p, from);
    let first = first_flag(r.flags);
    let second = second_flag(r.flags);
    if r.kind == SAVEPOINT {
        return word_run(q, out, from, TK_SAVEPOINT);
    }
    if r.kind == SELECT_STMT {
        return select(q, out, from, left - 1);
    }
    if r.kind == UPDATE {
        return update(q, out, from, left - 1);
    }
    if r.kind == VACUUM {
        return vacuum(q, out, from);
    }
    if r.kind == CREATE_TYPE {
        return create_type(q, out, from, left - 1, first);
    }
    if r.kind == CREATE_DOMAIN {
        return create_domain(q, out, from, left - 1, first, second);
    }
    if r.kind == DROP_TYPE {
        return drop_type(q, out, from, first);
    }
    if r.kind == CREATE_SEQUENCE {
        return create_sequence(q, out, from, first, second);
    }
    if r.kind == DROP_SEQUENCE {
        return drop_sequence(q, out, from, first);
    }
    if r.kind == DROP_DOMAIN {
        return drop_domain(q, out, from, first);
    }
    run(p, out, from)
}

// Stmt (32 to 64).
pub fn stmt(p: Pen, out: &mut [u8], from: &Input, left: usize) -> Pen
    ensures { Below (input_in from.now) from.now.pool.now left (slot statement) (p, out.old) (result, out.new) }
{
    let r = record::read(from.tree, p.next);
    if r.kind < DELETE {
        return stmt_to_create_virtual_table(p, out, from, left);
    }
    if r.kind < SAVEPOINT {
        return stmt_to_rollback(p, out, from, left);
    }
    stmt_to_drop_domain(p, out, from, left)
}
