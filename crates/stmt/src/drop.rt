// Statements that drop something.
ghost use Rattle.std.specs.Prelude.{◌≡◌, ℕ};
ghost use Rattle.record.specs.declared.Record.{Record as Record'};
ghost use Rattle.spelling.specs.Token.{TK_DROP as TK_DROP'};
ghost use Rattle.grammar.specs.Kind.{DropType, DropSequence, DropDomain};
ghost use Rattle.grammar.specs.Shape.{word as word', slot, ◌·◌};
ghost use Rattle.grammar.specs.Grammar.{shape, run as run', if_exists_lem};
ghost use Rattle.tokens.specs.Tokens.{flagged};
ghost use Rattle.pen.specs.Pen.{input, Writes};

use parts::{if_exists, name, run};
use pen::{Input, Pen, said, word};
use spelling::token::{TK_DROP, TK_TYPE};

// DropIndex, DropTable, DropTrigger and DropView (45 to 48): the word says which.
pub fn drop_named(p: Pen, out: &mut [u8], from: &Input, there: bool, kind: u16) -> Pen
    ensures { (d : ℕ) (r : Record') → there ≡ flagged 0 r → Writes (input from.now) from.now.pool.now d r (word' TK_DROP' · word' kind · if_exists_lem · slot run') (p, out.old) (result, out.new) }
{
    let q = word(p, out, from, TK_DROP);
    let q = word(q, out, from, kind);
    let q = if_exists(q, out, from, there);
    run(q, out, from)
}

// DropType (61).
pub fn drop_type(p: Pen, out: &mut [u8], from: &Input, there: bool) -> Pen
    ensures { (d : ℕ) (r : Record') → there ≡ flagged 0 r → Writes (input from.now) from.now.pool.now d r (shape DropType) (p, out.old) (result, out.new) }
{
    let q = word(p, out, from, TK_DROP);
    let q = word(q, out, from, TK_TYPE);
    let q = if_exists(q, out, from, there);
    name(q, out, from)
}

// DropSequence (63).
pub fn drop_sequence(p: Pen, out: &mut [u8], from: &Input, there: bool) -> Pen
    ensures { (d : ℕ) (r : Record') → there ≡ flagged 0 r → Writes (input from.now) from.now.pool.now d r (shape DropSequence) (p, out.old) (result, out.new) }
{
    let q = word(p, out, from, TK_DROP);
    let q = said(q, out, from, b"SEQUENCE");
    let q = if_exists(q, out, from, there);
    run(q, out, from)
}

// DropDomain (64).
pub fn drop_domain(p: Pen, out: &mut [u8], from: &Input, there: bool) -> Pen
    ensures { (d : ℕ) (r : Record') → there ≡ flagged 0 r → Writes (input from.now) from.now.pool.now d r (shape DropDomain) (p, out.old) (result, out.new) }
{
    let q = word(p, out, from, TK_DROP);
    let q = said(q, out, from, b"DOMAIN");
    let q = if_exists(q, out, from, there);
    name(q, out, from)
}
