// What a table is made of, and what changes in it.
ghost use Rattle.std.specs.Prelude.{[], ◌∷◌};
ghost use Rattle.spelling.specs.Token.{TK_COMMA as TK_COMMA'};
ghost use Rattle.grammar.specs.Kind.{RenameTo, AddColumn, AlterColumn, RenameColumn, DropColumn, ColumnsAndConstraints, NamedTableConstraint};
ghost use Rattle.grammar.specs.Shape.{slot, word as word', commas, filled, ◌·◌};
ghost use Rattle.grammar.specs.Grammar.{shape, from as from', node};
ghost use Rattle.pen.specs.Pen.{input, input_in, Always, Below};

use super::column::column_definition;
use super::constraint::named_table_constraint;
use corners::options;
use grammar::kind::{ADD_COLUMN, ALTER_COLUMN, DROP_COLUMN, RENAME_COLUMN, RENAME_TO};
use parts::{list, run};
use pen::{Input, Pen, pass, word};
use spelling::token::{
    TK_ADD, TK_ALTER, TK_COLUMNKW, TK_COMMA, TK_DROP, TK_LP, TK_RENAME, TK_RP, TK_TO,
};

// RenameTo (93).
fn rename_to(p: Pen, out: &mut [u8], from: &Input) -> Pen
    ensures { Always (input from.now) from.now.pool.now (shape RenameTo) (p, out.old) (result, out.new) }
{
    let q = word(p, out, from, TK_RENAME);
    let q = word(q, out, from, TK_TO);
    run(q, out, from)
}

// AddColumn (94).
fn add_column(p: Pen, out: &mut [u8], from: &Input, left: usize) -> Pen
    ensures { Below (input from.now) from.now.pool.now left (shape AddColumn) (p, out.old) (result, out.new) }
{
    let q = word(p, out, from, TK_ADD);
    let q = word(q, out, from, TK_COLUMNKW);
    column_definition(q, out, from, left)
}

// AlterColumn (95).
fn alter_column(p: Pen, out: &mut [u8], from: &Input, left: usize) -> Pen
    ensures { Below (input from.now) from.now.pool.now left (shape AlterColumn) (p, out.old) (result, out.new) }
{
    let q = word(p, out, from, TK_ALTER);
    let q = word(q, out, from, TK_COLUMNKW);
    let q = run(q, out, from);
    let q = word(q, out, from, TK_TO);
    column_definition(q, out, from, left)
}

// RenameColumn (96).
fn rename_column(p: Pen, out: &mut [u8], from: &Input) -> Pen
    ensures { Always (input from.now) from.now.pool.now (shape RenameColumn) (p, out.old) (result, out.new) }
{
    let q = word(p, out, from, TK_RENAME);
    let q = word(q, out, from, TK_COLUMNKW);
    let q = run(q, out, from);
    let q = word(q, out, from, TK_TO);
    run(q, out, from)
}

// DropColumn (97).
fn drop_column(p: Pen, out: &mut [u8], from: &Input) -> Pen
    ensures { Always (input from.now) from.now.pool.now (shape DropColumn) (p, out.old) (result, out.new) }
{
    let q = word(p, out, from, TK_DROP);
    let q = word(q, out, from, TK_COLUMNKW);
    run(q, out, from)
}

// AlterTableBody (93 to 97).
pub fn alter_table_body(p: Pen, out: &mut [u8], from: &Input, left: usize) -> Pen
    ensures { Below (input from.now) from.now.pool.now left (slot (node (from' RenameTo 5))) (p, out.old) (result, out.new) }
{
    let r = record::read(from.tree, p.next);
    if left == 0 {
        return run(p, out, from);
    }
    let q = pass(p, from);
    if r.kind == RENAME_TO {
        return rename_to(q, out, from);
    }
    if r.kind == ADD_COLUMN {
        return add_column(q, out, from, left - 1);
    }
    if r.kind == ALTER_COLUMN {
        return alter_column(q, out, from, left - 1);
    }
    if r.kind == RENAME_COLUMN {
        return rename_column(q, out, from);
    }
    if r.kind == DROP_COLUMN {
        return drop_column(q, out, from);
    }
    run(p, out, from)
}

// A comma and the constraints, unless there are none.
fn constraints(p: Pen, out: &mut [u8], from: &Input, left: usize) -> Pen
    ensures { Below (input from.now) from.now.pool.now left (filled (word' TK_COMMA' · commas (node (NamedTableConstraint ∷ [])))) (p, out.old) (result, out.new) }
{
    let r = record::read(from.tree, p.next);
    if r.kids == 0 {
        return pass(p, from);
    }
    let q = word(p, out, from, TK_COMMA);
    let element = |q: Pen, out: &mut [u8], from: &Input| named_table_constraint(q, out, from, left);
    list(q, out, from, true, element)
}

// ColumnsAndConstraints (98).
pub fn columns_and_constraints(p: Pen, out: &mut [u8], from: &Input, left: usize) -> Pen
    ensures { Below (input_in from.now) from.now.pool.now left (shape ColumnsAndConstraints) (p, out.old) (result, out.new) }
{
    let q = word(p, out, from, TK_LP);
    let element = |q: Pen, out: &mut [u8], from: &Input| column_definition(q, out, from, left);
    let q = list(q, out, from, true, element);
    let q = constraints(q, out, from, left);
    let q = word(q, out, from, TK_RP);
    options(q, out, from)
}
