// What the programs share: reading a file or standard input to its end, and the one line that answers what cannot be done.
#![tactic(auto)]

ghost use Rattle.std.specs.Prelude.{MatchResult};
ghost use Rattle.io.specs.Counts.{IsPrefixLen};

use std::fs::File;
use std::io::Read;
use std::rt::Files;

// The descriptor of standard output.
pub const STDOUT_FILENO: i32 = 1;

// One byte more than a tree or a text may have, so that one that is longer is seen to be.
pub const ROOM: usize = 65537;

// A file that was not read to its end: how many bytes of it were read.
#[derive(Clone, Copy)]
pub struct CutOff {
    pub len: usize,
}

// Reads until the buffer is full, the input ends or a read fails, and answers how many bytes stand at its start.
// (A read may give fewer bytes than there is room for, so the loop counts them by hand.)
fn read_full<S: Read>(from: &mut S, buf: &mut [u8]) -> usize
    ensures { IsPrefixLen result buf.new }
{
    let mut done = 0;
    while done < buf.len() {
        let Ok(n) = from.read(&mut buf[done..]) else {
            return done;
        };
        if n == 0 {
            return done;
        }
        done += n;
    }
    done
}

// Whether an input has ended: a read gives 0 bytes.
fn is_at_end<S: Read>(from: &mut S) -> bool {
    let mut behind = [0u8; 1];
    matches!(from.read(&mut behind), Ok(0))
}

// Reads an open file to its end, or until the buffer is full, and answers how many bytes stand at its start. Behind the end a read gives 0 bytes.
pub fn read_to_end<S: Read>(from: &mut S, buf: &mut [u8]) -> Result<usize, CutOff>
    ensures { MatchResult result (λ len. IsPrefixLen len buf.new) (λ cut. IsPrefixLen cut.len buf.new) }
{
    let len = read_full(from, buf);
    if len == buf.len() || is_at_end(from) {
        Ok(len)
    } else {
        Err(CutOff { len })
    }
}

// Reads the file of a name. No file is opened by a name that is not UTF-8.
pub fn read_file<R: Files>(rt: &R, name: &[u8], buf: &mut [u8]) -> Result<usize, CutOff>
    ensures { MatchResult result (λ len. IsPrefixLen len buf.new) (λ cut. IsPrefixLen cut.len buf.new) }
{
    let Ok(path) = str::from_utf8(name) else {
        return Err(CutOff { len: 0 });
    };
    let Ok(mut file) = File::open(rt, path) else {
        return Err(CutOff { len: 0 });
    };
    read_to_end(&mut file, buf)
}

// Hands on what stands in the files of two names, or prints that one cannot be read.
pub fn with_both<R: Files, F: FnOnce(&[u8], &[u8])>(rt: &R, first: &[u8], second: &[u8], f: F)
    requires { F.IsAlwaysCallable f }
{
    let mut firsts = [0u8; ROOM];
    let mut seconds = [0u8; ROOM];
    let read = (
        read_file(rt, first, &mut firsts),
        read_file(rt, second, &mut seconds),
    );
    match read {
        (Ok(first), Ok(second)) => f(&firsts[..first], &seconds[..second]),
        _ => print_unreadable(),
    }
}

// Prints that a file cannot be read.
pub fn print_unreadable() {
    io::write_all(STDOUT_FILENO, b"unreadable\n");
}

// Prints a number, a space, a place and a newline.
pub fn print_answer(number: u64, place: usize) {
    io::print_decimal(STDOUT_FILENO, number);
    io::write_all(STDOUT_FILENO, b" ");
    io::print_decimal(STDOUT_FILENO, place as u64);
    io::write_all(STDOUT_FILENO, b"\n");
}
