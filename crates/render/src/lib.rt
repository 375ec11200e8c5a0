// The whole-tree calls (01, section 3): measure gives the length, render writes.
//
// Both check the tree first, and both write the text: what there is no room for is counted. So the two cannot disagree.
#![tactic(auto)]

ghost use Rattle.std.specs.Prelude.{◌≡◌, ◌≤◌, length as length'};
ghost use Rattle.std.proofs.lemmas.List.Edits.{sets};
ghost use Rattle.spelling.specs.Table.{bytes};
ghost use Rattle.render.specs.Render.{text_in, MeasuresIn, RendersIn, number_of, place_of};
ghost use Rattle.tree.specs.Check.{ChecksIn};
ghost use Rattle.render.specs.declared.Refusal.TheVariants.{Tree};
ghost use Rattle.render.specs.Steps.{Writes, Drafted};

use mode::Mode;
use pen::Input;
use stream::Sink;
use tree::Answer;

// Many trees at once.
pub mod jobs;

// 01's number for an output that is too short.
const NO_ROOM: u64 = 8;

// The bytes of a draft: few texts of a schema are longer.
const DRAFT: usize = 1024;

// Why the text of a tree is not measured or written.
#[derive(Clone, Copy, PartialEq, Eq)]
pub enum Refusal {
    // The check refuses.
    Tree(tree::Refusal),
    // The output is shorter than the so many bytes needed.
    NoRoom(usize),
}

impl From<tree::Refusal> for Refusal {
    ghost from_gives = { λ r o. o ≡ Tree r };

    fn from(r: tree::Refusal) -> Refusal {
        Refusal::Tree(r)
    }
}

// What a call comes to: so many bytes are measured or written, or a refusal.
pub type Outcome = Result<usize, Refusal>;

// An outcome's number in 01's table.
pub fn number(o: Outcome) -> u64
    ensures { result ≡ number_of o }
{
    match o {
        Ok(_) => 0,
        Err(Refusal::Tree(r)) => tree::number(Err(r)),
        Err(Refusal::NoRoom(_)) => NO_ROOM,
    }
}

// An outcome's place in 01's table.
pub fn place(o: Outcome) -> usize
    ensures { result ≡ place_of o }
{
    match o {
        Ok(n) => n,
        Err(Refusal::Tree(r)) => tree::place(Err(r)),
        Err(Refusal::NoRoom(n)) => n,
    }
}

// The text of a tree, from the output's first byte on, as much of it as there is room for; and how long it is.
fn write(out: &mut [u8], from: &Input) -> usize
    requires { from.now.pool.now ≡ bytes }
    ensures { Writes from.now.edition from.now.tree.now from.now.text.now out.old result out.new }
{
    let s = Sink {
        spaced: true,
        at: 0,
    };
    let end = cmd::to_tokens(s, out, from);
    end.at
}

// The length of the text of a tree, or the check's refusal: there is no room for a draft.
pub fn measure(mode: Mode, tree: &[u8], text: &[u8]) -> Outcome
    ensures { MeasuresIn mode tree.now text.now result }
{
    rules::check(tree, text, mode)?;
    let pool = spelling::pool();
    let from = Input {
        pool: &pool,
        tree,
        text,
        edition: mode.edition,
    };
    let mut nothing = [0u8; 0];
    Ok(write(&mut nothing, &from))
}

// The text of a tree, which has so many bytes, in the output: copied from its draft, if that has room for all of it.
fn fair_copy(out: &mut [u8], draft: &[u8], from: &Input, length: usize)
    requires { (from.now.pool.now ≡ bytes) × ((length ≡ length' (text_in from.now.edition from.now.tree.now from.now.text.now)) × ((length ≤ length' out.old) × Drafted from.now.edition from.now.tree.now from.now.text.now draft.now)) }
    ensures { out.new ≡ sets out.old 0 (text_in from.now.edition from.now.tree.now from.now.text.now) }
{
    if length <= draft.len() {
        out[..length].copy_from_slice(&draft[..length]);
    } else {
        write(out, from);
    }
}

// The text of a tree that the check answers this for, written to the output, or a refusal, which writes nothing. Most texts are short, and their draft
// is copied; a longer one is written twice, the first time for its length.
fn render_checked(
    answer: Answer,
    out: &mut [u8],
    pool: &[u8],
    tree: &[u8],
    text: &[u8],
    mode: Mode,
) -> Outcome
    requires { (pool.now ≡ bytes) × ChecksIn mode tree.now text.now answer }
    ensures { RendersIn mode tree.now text.now out.old result out.new }
{
    answer?;
    let from = Input {
        pool,
        tree,
        text,
        edition: mode.edition,
    };
    let mut draft = [0u8; DRAFT];
    let length = write(&mut draft, &from);
    if out.len() < length {
        return Err(Refusal::NoRoom(length));
    }
    fair_copy(out, &draft, &from, length);
    Ok(length)
}

// The text of a tree written to the output, or a refusal, which writes nothing.
pub fn render(mode: Mode, tree: &[u8], text: &[u8], out: &mut [u8]) -> Outcome
    ensures { RendersIn mode tree.now text.now out.old result out.new }
{
    let pool = spelling::pool();
    render_checked(rules::check(tree, text, mode), out, &pool, tree, text, mode)
}
