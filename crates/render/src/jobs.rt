// Many trees at once (02, i): a list of jobs over one tree buffer and one text, with their texts one behind the other in one output.
//
// The text's encoding is checked once, and the pool of spellings is made once.
ghost use Rattle.std.specs.Prelude.{◌≡◌, ◌+◌, ◌^◌, ◌≤◌, ◌<◌, length};
ghost use Rattle.mode.specs.Options.{mode_of};
ghost use Rattle.utf8.specs.Rfc3629.{Encoded};
ghost use Rattle.spelling.specs.Table.{bytes};
ghost use Rattle.tree.specs.Check.{longest, ChecksIn};
ghost use Rattle.tokens.specs.Ample.{ample_for};
ghost use Rattle.render.specs.Render.{RendersIn, number_of, place_of};
ghost use Rattle.render.specs.Jobs.{answered as answered', written, outside as outside', Single, RendersJobs};

use super::{Outcome, number, place, render_checked, write};
use mode::Mode;
use pen::Input;
use tree::Answer;
use utf8::Encoding;

// 01's number for a tree that is not there: a job outside the tree buffer.
const OUTSIDE: u64 = 1;

// What a record takes at most beside its text part.
const EACH_TAKES: u64 = 200;

#[repr(C)]
#[derive(Clone, Copy)]
pub struct Job {
    // Where its tree begins in the tree buffer, and how many bytes it has.
    pub tree_start: u64,
    pub tree_len: u64,
    // What the single call answers: 0 and the length of the text, or the number of a refusal and its place.
    pub refusal: u64,
    pub place: u64,
    // Where its text begins in the output; that of a refused one is where the next text begins.
    pub out_start: u64,
}

// A job with what is answered.
fn answered(job: Job, refusal: u64, place: usize, at: usize) -> Job
    ensures { result ≡ answered' job refusal place at }
{
    Job {
        refusal,
        place: place as u64,
        out_start: at as u64,
        ..job
    }
}

// Where the next text begins behind one that begins here.
fn behind(outcome: Outcome, at: usize) -> usize
    requires { at + written outcome < 2 ^ 64 }
    ensures { result ≡ at + written outcome }
{
    at + outcome.unwrap_or(0)
}

// Whether the tree buffer ends before a job's tree does.
fn outside(job: Job, trees: &[u8]) -> bool
    ensures { result ≡ outside' trees.now job }
{
    let size = trees.len() as u64;
    if size < job.tree_start {
        return true;
    }
    size - job.tree_start < job.tree_len
}

// Room that is ample for the text of a tree that the check admits.
fn ample(tree: &[u8]) -> u64
    requires { length tree.now ≤ longest }
    ensures { result ≡ ample_for tree.now }
{
    let count = record::count(tree);
    let mut lengths: u64 = 0;
    for i in 0..count {
        lengths += record::read(tree, i).len as u64;
    }
    count as u64 * EACH_TAKES + 2 * lengths
}

// The text of a tree that the check answers this for, written to the output, or a refusal, which writes nothing. In ample room it is written at once.
fn render_ample(
    answer: Answer,
    out: &mut [u8],
    pool: &[u8],
    tree: &[u8],
    text: &[u8],
    mode: Mode,
) -> Outcome
    requires { (pool.now ≡ bytes) × ChecksIn mode tree.now text.now answer }
    ensures { RendersIn mode tree.now text.now out.old result out.new }
{
    answer?;
    if ample(tree) <= out.len() as u64 {
        let from = Input {
            pool,
            tree,
            text,
            edition: mode.edition,
        };
        return Ok(write(out, &from));
    }
    render_checked(answer, out, pool, tree, text, mode)
}

// What stays the same from job to job: the pool of spellings, and that the text's encoding is told, among it.
#[derive(Clone, Copy)]
struct Batch<'a> {
    options: u32,
    trees: &'a [u8],
    text: &'a [u8],
    told: Encoding,
    pool: &'a [u8],
}

// One job, from where the next text begins: the answer is where the one behind it does.
fn one(job: &mut Job, of: &Batch, out: &mut [u8], at: usize) -> usize
    requires { (of.now.pool.now ≡ bytes) × (Encoded of.now.text.now of.now.told × (at ≤ length out.old)) }
    ensures { Single (mode_of of.now.options) of.now.trees.now of.now.text.now job.old out.old at job.new out.new result }
{
    if outside(*job, of.trees) {
        *job = answered(*job, OUTSIDE, 0, at);
        return at;
    }
    let start = job.tree_start as usize;
    let end = start + job.tree_len as usize;
    let tree = &of.trees[start..end];
    let mode = mode::of(of.options);
    let answer = rules::check_told(tree, of.text, of.told, mode);
    let outcome = render_ample(answer, &mut out[at..], of.pool, tree, of.text, mode);
    *job = answered(*job, number(outcome), place(outcome), at);
    behind(outcome, at)
}

// Every job in order: the answer is the bytes written in all.
pub fn render_jobs(
    options: u32,
    jobs: &mut [Job],
    trees: &[u8],
    text: &[u8],
    out: &mut [u8],
) -> usize
    ensures { RendersJobs (mode_of options) trees.now text.now jobs.old out.old jobs.new out.new result }
{
    let pool = spelling::pool();
    let of = Batch {
        options,
        trees,
        text,
        told: utf8::check(text),
        pool: &pool,
    };
    let mut at = 0;
    for job in jobs.iter_mut() {
        at = one(job, &of, out, at);
    }
    at
}
