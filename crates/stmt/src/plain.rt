// Statements of a few words.
ghost use Rattle.grammar.specs.Kind.{AlterTable, Attach, Begin, Commit, Pragma, Optimize, Rollback, Vacuum};
ghost use Rattle.grammar.specs.Shape.{word as word', slot, ◌·◌};
ghost use Rattle.grammar.specs.Grammar.{shape, run as run'};
ghost use Rattle.pen.specs.Pen.{input, Always, Below};

use clause::table::alter_table_body;
use parts::{clause, run};
use pen::{Input, Pen, word};
use spelling::token::{
    TK_ALTER, TK_AS, TK_ATTACH, TK_BEGIN, TK_COMMIT, TK_INDEX, TK_INTO, TK_KEY, TK_OPTIMIZE,
    TK_PRAGMA, TK_ROLLBACK, TK_TABLE, TK_TO, TK_TRANSACTION, TK_VACUUM,
};

// A word and a RUN: Detach, Release and Savepoint (44, 53 and 55); Analyze and Reindex (33 and 51), which may have none.
pub fn word_run(p: Pen, out: &mut [u8], from: &Input, kind: u16) -> Pen
    ensures { Always (input from.now) from.now.pool.now (word' kind · slot run') (p, out.old) (result, out.new) }
{
    let q = word(p, out, from, kind);
    run(q, out, from)
}

// AlterTable (32).
pub fn alter_table(p: Pen, out: &mut [u8], from: &Input, left: usize) -> Pen
    ensures { Below (input from.now) from.now.pool.now left (shape AlterTable) (p, out.old) (result, out.new) }
{
    let q = word(p, out, from, TK_ALTER);
    let q = word(q, out, from, TK_TABLE);
    let q = run(q, out, from);
    alter_table_body(q, out, from, left)
}

// Attach (34).
pub fn attach(p: Pen, out: &mut [u8], from: &Input) -> Pen
    ensures { Always (input from.now) from.now.pool.now (shape Attach) (p, out.old) (result, out.new) }
{
    let q = word(p, out, from, TK_ATTACH);
    let q = run(q, out, from);
    let q = word(q, out, from, TK_AS);
    let q = run(q, out, from);
    clause(q, out, from, TK_KEY)
}

// Begin (35).
pub fn begin(p: Pen, out: &mut [u8], from: &Input) -> Pen
    ensures { Always (input from.now) from.now.pool.now (shape Begin) (p, out.old) (result, out.new) }
{
    let q = word(p, out, from, TK_BEGIN);
    let q = run(q, out, from);
    clause(q, out, from, TK_TRANSACTION)
}

// Commit (36).
pub fn commit(p: Pen, out: &mut [u8], from: &Input) -> Pen
    ensures { Always (input from.now) from.now.pool.now (shape Commit) (p, out.old) (result, out.new) }
{
    let q = word(p, out, from, TK_COMMIT);
    clause(q, out, from, TK_TRANSACTION)
}

// Pragma (50).
pub fn pragma(p: Pen, out: &mut [u8], from: &Input) -> Pen
    ensures { Always (input from.now) from.now.pool.now (shape Pragma) (p, out.old) (result, out.new) }
{
    let q = word(p, out, from, TK_PRAGMA);
    let q = run(q, out, from);
    run(q, out, from)
}

// Optimize (52).
pub fn optimize(p: Pen, out: &mut [u8], from: &Input) -> Pen
    ensures { Always (input from.now) from.now.pool.now (shape Optimize) (p, out.old) (result, out.new) }
{
    let q = word(p, out, from, TK_OPTIMIZE);
    let q = word(q, out, from, TK_INDEX);
    run(q, out, from)
}

// Rollback (54).
pub fn rollback(p: Pen, out: &mut [u8], from: &Input) -> Pen
    ensures { Always (input from.now) from.now.pool.now (shape Rollback) (p, out.old) (result, out.new) }
{
    let q = word(p, out, from, TK_ROLLBACK);
    let q = clause(q, out, from, TK_TRANSACTION);
    clause(q, out, from, TK_TO)
}

// Vacuum (58).
pub fn vacuum(p: Pen, out: &mut [u8], from: &Input) -> Pen
    ensures { Always (input from.now) from.now.pool.now (shape Vacuum) (p, out.old) (result, out.new) }
{
    let q = word(p, out, from, TK_VACUUM);
    let q = run(q, out, from);
    clause(q, out, from, TK_INTO)
}
