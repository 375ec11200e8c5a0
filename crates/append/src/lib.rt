// Append over the stream record (01, sections 1 and 3): refusals 1, 4, 2, 8 in that order, else the token's bytes.
//
// `step` takes the record by value and returns it; `append` is the same over a lent record.
#![tactic(auto)]

ghost use Rattle.std.specs.Prelude.{◌≡◌, ◌-◌, ◌≤◌, true, Err, length};
ghost use Rattle.spelling.specs.Spelling.{spelling};
ghost use Rattle.append.specs.Append.{Appends, news, number_of, number as number', place as place', present as present', unsound as unsound'};
ghost use Rattle.append.specs.Steps.{Checks, Ample, room_test, Verdict, Writes, counted, moved_to, Ready};

use stream::Sink;
use utf8::Broken;

// Bit 15 of a token word: a value is present. The number is below it.
pub const PRESENT: u16 = 0x8000;

// No value is longer.
pub const LONGEST: usize = 65536;

// No token adds more beside its value: a space and the longest spelling.
const LONGEST_TOKEN: usize = 14;

// 01's numbers of the refusals.
const MALFORMED: u64 = 1;

const TOO_LONG: u64 = 2;

const UNKNOWN: u64 = 4;

const NO_ROOM: u64 = 8;

// The stream record: the bit, the bytes written so far, and where they end: the line, and the bytes since the last newline.
#[derive(Clone, Copy)]
pub struct Stream {
    pub spaced: bool,
    pub count: usize,
    pub line: usize,
    pub column: usize,
}

// Why a token is not appended.
#[derive(Clone, Copy, PartialEq, Eq)]
pub enum Refusal {
    // The record's count is past the output's end, or its line or its column is larger than the count.
    Malformed,
    // No token has the number, or value bytes stand where none is present.
    Unknown,
    // The value is over-long.
    TooLong,
    // The value is not UTF-8.
    Broken(Broken),
    // There is no room for the so many bytes that the token adds.
    NoRoom(usize),
}

// So many bytes were added, or none.
pub type Answer = Result<usize, Refusal>;

// What is known before the bytes are measured.
type Check = Result<(), Refusal>;

#[derive(Clone, Copy)]
pub struct Next {
    pub answer: Answer,
    pub rec: Stream,
}

// A refusal's number in 01's table.
fn refusal_number(refusal: Refusal) -> u64
    ensures { result ≡ number' (Err refusal) }
{
    match refusal {
        Refusal::Malformed => MALFORMED,
        Refusal::Unknown => UNKNOWN,
        Refusal::TooLong => TOO_LONG,
        Refusal::Broken(broken) => utf8::number(Err(broken)),
        Refusal::NoRoom(_) => NO_ROOM,
    }
}

// An answer's number in 01's table.
pub fn number(a: Answer) -> u64
    ensures { result ≡ number' a }
{
    match a {
        Ok(_) => 0,
        Err(refusal) => refusal_number(refusal),
    }
}

// A refusal's place in 01's table.
fn refusal_place(refusal: Refusal) -> u64
    ensures { result ≡ place' (Err refusal) }
{
    match refusal {
        Refusal::Malformed | Refusal::Unknown => 0,
        Refusal::TooLong => LONGEST as u64,
        Refusal::Broken(broken) => utf8::place(Err(broken)) as u64,
        Refusal::NoRoom(n) => n as u64,
    }
}

// An answer's place in 01's table.
pub fn place(a: Answer) -> u64
    ensures { result ≡ place' a }
{
    match a {
        Ok(n) => n as u64,
        Err(refusal) => refusal_place(refusal),
    }
}

// The token number of a token word.
pub fn number_of(token: u16) -> u16
    ensures { result ≡ number_of token }
{
    token % PRESENT
}

// Whether a token word says that a value is present.
pub fn present(token: u16) -> bool
    ensures { result ≡ present' token }
{
    PRESENT <= token
}

// Whether a record is none that appends leave: its count is past an output of size bytes, or its line or its column is larger than the count.
fn unsound(rec: Stream, size: usize) -> bool
    ensures { result ≡ unsound' rec size }
{
    (size < rec.count) | ((rec.count < rec.line) | (rec.count < rec.column))
}

// The first fitting one of the refusals 1, 4 and 2, for an output of size bytes.
fn first_refusal(rec: Stream, size: usize, token: u16, value: &[u8]) -> Check
    ensures { Checks rec size token value.now result }
{
    if unsound(rec, size) {
        return Err(Refusal::Malformed);
    }
    if !spelling::known(number_of(token)) {
        return Err(Refusal::Unknown);
    }
    if value.len() == 0 {
        return Ok(());
    }
    if !present(token) {
        return Err(Refusal::Unknown);
    }
    if LONGEST < value.len() {
        return Err(Refusal::TooLong);
    }
    match utf8::check(value) {
        Ok(()) => Ok(()),
        Err(broken) => Err(Refusal::Broken(broken)),
    }
}

// How many bytes the token, whose kind is spelled as word, adds: it is appended to an output with no room.
fn measure(spaced: bool, token: u16, word: &[u8], value: &[u8]) -> usize
    ensures { result ≡ counted spaced token word.now value.now }
{
    let mut nothing = [0u8; 0];
    let start = Sink { spaced, at: 0 };
    let s = stream::append(
        start,
        &mut nothing,
        number_of(token),
        word,
        present(token).then_some(value),
    );
    s.at
}

// Whether an output of size bytes has room for a value of len bytes, a space and the longest spelling behind the record's count.
fn ample(rec: Stream, size: usize, len: usize) -> bool
    ensures { result ≡ true → Ample rec size len }
{
    if size <= rec.count {
        return false;
    }
    let room = size - rec.count;
    if room < LONGEST_TOKEN {
        return false;
    }
    if room - LONGEST_TOKEN < len {
        return false;
    }
    true
}

// 8, where there is no room for the token: its bytes are measured only where there may be none.
fn no_room(rec: Stream, size: usize, token: u16, word: &[u8], value: &[u8]) -> Check
    requires { (rec.count ≤ size) × (word.now ≡ spelling (number_of token)) }
    ensures { result ≡ room_test rec size (length (news rec token value.now)) }
{
    if ample(rec, size, value.len()) {
        return Ok(());
    }
    let n = measure(rec.spaced, token, word, value);
    let room = size - rec.count;
    if room < n {
        return Err(Refusal::NoRoom(n));
    }
    Ok(())
}

// The first fitting one of all refusals, for a token whose kind is spelled as word.
fn any_refusal(rec: Stream, size: usize, token: u16, word: &[u8], value: &[u8]) -> Check
    requires { word.now ≡ spelling (number_of token) }
    ensures { Verdict rec size token value.now result }
{
    first_refusal(rec, size, token, value)?;
    no_room(rec, size, token, word, value)
}

// The record that is left where the sink stands now. Only a value has newlines: behind the last of them the column begins anew.
fn moved(rec: Stream, to: Sink, value: &[u8]) -> Stream
    requires { (rec.count ≤ to.at) × ((rec.line ≤ rec.count) × ((rec.column ≤ rec.count) × (length value.now ≤ to.at - rec.count))) }
    ensures { result ≡ moved_to rec to value.now }
{
    let found = position::newlines(value);
    let line = rec.line + found.lines;
    let spaced = to.spaced;
    let count = to.at;
    if found.lines == 0 {
        return Stream {
            spaced,
            count,
            line,
            column: rec.column + (count - rec.count),
        };
    }
    Stream {
        spaced,
        count,
        line,
        column: found.behind,
    }
}

// The token's bytes behind the record's count, where there is room for them.
fn put(rec: Stream, out: &mut [u8], token: u16, word: &[u8], value: &[u8]) -> Next
    requires { Ready rec out.old token word.now value.now }
    ensures { Writes rec out.old token value.now result.answer result.rec out.new }
{
    let start = Sink {
        spaced: rec.spaced,
        at: rec.count,
    };
    let s = stream::append(
        start,
        out,
        number_of(token),
        word,
        present(token).then_some(value),
    );
    let added = s.at - rec.count;
    let left = moved(rec, s, value);
    Next {
        answer: Ok(added),
        rec: left,
    }
}

// One token whose kind is spelled as word, after all refusals are asked for.
fn checked(rec: Stream, out: &mut [u8], token: u16, word: &[u8], value: &[u8]) -> Next
    requires { word.now ≡ spelling (number_of token) }
    ensures { Appends rec out.old token value.now result.answer result.rec out.new }
{
    let first = any_refusal(rec, out.len(), token, word, value);
    match first {
        Err(refusal) => Next {
            answer: Err(refusal),
            rec,
        },
        Ok(()) => put(rec, out, token, word, value),
    }
}

// One token appended: the answer, and the record that is left.
pub fn step(rec: Stream, out: &mut [u8], token: u16, value: &[u8]) -> Next
    ensures { Appends rec out.old token value.now result.answer result.rec out.new }
{
    let pool = spelling::pool();
    checked(
        rec,
        out,
        token,
        spelling::of(&pool, number_of(token)),
        value,
    )
}

// The same over a lent record: it is copied out, and what is left of it stored back.
pub fn append(rec: &mut Stream, out: &mut [u8], token: u16, value: &[u8]) -> Answer
    ensures { Appends rec.old out.old token value.now result rec.new out.new }
{
    let next = step(*rec, out, token, value);
    *rec = next.rec;
    next.answer
}

// The same for a record by value: it is lent to `append`, and what is left of it handed back.
pub fn lent(rec: Stream, out: &mut [u8], token: u16, value: &[u8]) -> Next
    ensures { Appends rec out.old token value.now result.answer result.rec out.new }
{
    let mut own = rec;
    let answer = append(&mut own, out, token, value);
    Next { answer, rec: own }
}
