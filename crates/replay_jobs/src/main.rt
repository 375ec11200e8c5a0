// Replays lists of jobs from standard input through the call for many trees, and prints a line for each: the answer; for each job its refusal, place
// and start with colons between; what was written, in hex (`-` for nothing); and `kept` or `changed`, whether all other bytes of the output are as
// they were.
//
// A case is its options, the number of its jobs and the lengths of its trees, its text and its output, each of four bytes, little-endian; for each job
// the start and the length of its tree, each of eight; the trees' bytes, and the text's.
#![tactic(auto)]

ghost use Rattle.std.specs.Prelude.{◌+◌, ◌≤◌, length};

use render::jobs::Job;

// The numbers before the jobs: the options, the number of jobs and three lengths.
const HEAD: usize = 5;

// The bytes of the start of a tree, and of that with its length.
const PLACE: usize = 8;

const JOB: usize = 2 * PLACE;

// One more than the largest number of four bytes.
const WORD: u64 = 0x1_0000_0000;

// More than the most jobs of a case, and their bytes.
const MOST: usize = 32;

const JOBS: usize = JOB * MOST;

// The most bytes of the trees and of the text of a case, more than the check admits.
const ROOM: usize = 69632;

// The most bytes of an output, and what they are before the call.
const OUTPUT: usize = 8192;

const BEFORE: u8 = 0xAA;

// A job before the call.
fn fresh(tree_start: u64, tree_len: u64) -> Job {
    Job {
        tree_start,
        tree_len,
        refusal: 0,
        place: 0,
        out_start: 0,
    }
}

// The number of eight bytes from a place on, the lowest first.
fn number(bytes: &[u8], at: usize) -> u64
    requires { at + 8 ≤ length bytes.now }
{
    let low = lines::word(bytes[at], bytes[at + 1], bytes[at + 2], bytes[at + 3]);
    let high = lines::word(bytes[at + 4], bytes[at + 5], bytes[at + 6], bytes[at + 7]);
    low as u64 + high as u64 * WORD
}

// Reads so many jobs; behind them are jobs outside every buffer, which add nothing. Nothing where the input ends first.
fn read_jobs(count: usize) -> Option<[Job; MOST]>
    requires { count ≤ 32 }
{
    let mut bytes = [0u8; JOBS];
    if !lines::fill(&mut bytes[..JOB * count]) {
        return None;
    }
    let mut jobs = [fresh(u64::MAX, u64::MAX); MOST];
    for (i, job) in jobs.iter_mut().take(count).enumerate() {
        *job = fresh(number(&bytes, JOB * i), number(&bytes, JOB * i + PLACE));
    }
    Some(jobs)
}

// Prints what a job says, and answers whether it was written.
fn print_job(job: &Job) -> bool {
    lines::print_number(job.refusal, b':')
        && lines::print_number(job.place, b':')
        && lines::print_number(job.out_start, b' ')
}

// Whether all bytes are as they were before the call.
fn kept(rest: &[u8]) -> bool {
    rest.iter().all(|b| *b == BEFORE)
}

// Prints the line of a case behind its call, and answers whether it was written. The last job is outside every buffer, so it starts behind all texts.
fn print_ran(jobs: &[Job], count: usize, out: &[u8]) -> bool {
    let Some(last) = jobs.last() else {
        return false;
    };
    let n = last.out_start as usize;
    if out.len() < n {
        return lines::stop(b"beyond the room\n");
    }
    let behind = if kept(&out[n..]) {
        b" kept\n".as_slice()
    } else {
        b" changed\n".as_slice()
    };
    lines::print_number(n as u64, b' ')
        && jobs.iter().take(count).all(|job| print_job(job))
        && lines::print_bytes(&out[..n])
        && lines::print(behind)
}

// Reads the trees and the text into all of their parts, makes the call with so much room, prints the line, and answers whether to go on.
fn replay_parts(options: u32, count: usize, trees: &mut [u8], text: &mut [u8], room: usize) -> bool
    requires { count ≤ 32 }
{
    let mut out = [BEFORE; OUTPUT];
    if OUTPUT < room {
        return lines::stop(b"too long for this program\n");
    }
    let Some(mut jobs) = read_jobs(count) else {
        return lines::stop(b"cut off\n");
    };
    if !lines::fill(trees) || !lines::fill(text) {
        return lines::stop(b"cut off\n");
    }
    render::jobs::render_jobs(options, &mut jobs, trees, text, &mut out[..room]);
    print_ran(&jobs, count, &out[..room])
}

// Replays a case by way of two buffers, and answers whether to go on: not at the end of the input.
fn replay_case(trees: &mut [u8], texts: &mut [u8]) -> bool {
    let Some(words) = lines::head::<HEAD>() else {
        return false;
    };
    let [options, count, tree, text, room] = words;
    let (count, tree, text) = (count as usize, tree as usize, text as usize);
    if count >= MOST || tree > trees.len() || text > texts.len() {
        return lines::stop(b"too long for this program\n");
    }
    replay_parts(
        options,
        count,
        &mut trees[..tree],
        &mut texts[..text],
        room as usize,
    )
}

// Makes the two buffers once, for every case.
fn main() {
    let mut trees = [0u8; ROOM];
    let mut texts = [0u8; ROOM];
    lines::replay(|| replay_case(&mut trees, &mut texts));
}
