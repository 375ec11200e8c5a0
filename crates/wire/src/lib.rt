// Append as it crosses to the engine (01, section 9; 02, ix): the record as 25 bytes, the answer as one number.
//
// A token is laid at once where it may be. The way with all refusals is a function that two others call: so the compiler
// leaves it by itself, and the quick ways need few registers.
#![tactic(auto)]

ghost use Rattle.std.specs.Prelude.{◌≡◌, ◌+◌, ◌-◌, ◌*◌, ◌%◌, ◌≤◌, ◌<◌, ◌^◌, ◌++◌, length, take, drop, true, ◌&&◌};
ghost use Rattle.laws.specs.Little.{little, from_little};
ghost use Rattle.stream.specs.Stream.{leaves};
ghost use Rattle.quick.specs.Quick.{many_may, Comes, on_line};
ghost use Rattle.append.specs.Append.{place as place', code as code', news, token_of};
ghost use Rattle.wire.specs.Wire.{well_formed as well_formed', held as held', unpacked, bit_of, packed, repacked, Crosses};

use append::{Answer, Refusal, Stream};
use stream::Sink;

// All places are below this number.
pub const PLACES: u64 = 0x1_0000_0000;

// A record's bytes: the bit, and the count, the line and the column in eight each.
const RECORD: usize = 25;

// Where each of the three begins.
const COUNT: usize = 1;

const LINE: usize = 9;

const COLUMN: usize = 17;

// The bytes of a number.
const NUMBER: usize = 8;

// A number of 01's table and a place as one number.
fn joined(number: u64, place: u64) -> u64
    requires { (number < 16) × (place < 2 ^ 32) }
    ensures { result ≡ number * 2 ^ 32 + place }
{
    number * PLACES + place
}

// An answer as one number.
fn code(a: Answer) -> u64
    requires { place' a < 2 ^ 32 }
    ensures { result ≡ code' a }
{
    joined(append::number(a), append::place(a))
}

// Whether a record's bytes are well formed.
fn well_formed(rec: &[u8]) -> bool
    ensures { result ≡ well_formed' rec.now }
{
    if rec.len() != RECORD {
        return false;
    }
    rec[0] <= 1
}

// Whether a record's line and column are each within its count.
fn held(s: Stream) -> bool
    ensures { result ≡ held' s }
{
    (s.line <= s.count) & (s.column <= s.count)
}

// The number of the eight bytes from a place on, the lowest first.
fn number_at(rec: &[u8], at: usize) -> u64
    requires { at + 8 ≤ length rec.now }
    ensures { result ≡ from_little (take 8 (drop at rec.now)) }
{
    let mut bytes = [0u8; NUMBER];
    bytes.copy_from_slice(&rec[at..at + NUMBER]);
    u64::from_le_bytes(bytes)
}

// The record of its bytes.
fn unpack(rec: &[u8]) -> Stream
    requires { well_formed' rec.now ≡ true }
    ensures { result ≡ unpacked rec.now }
{
    Stream {
        spaced: rec[0] != 0,
        count: number_at(rec, COUNT) as usize,
        line: number_at(rec, LINE) as usize,
        column: number_at(rec, COLUMN) as usize,
    }
}

// The byte of the bit.
fn bit(spaced: bool) -> u8
    ensures { result ≡ bit_of spaced }
{
    u8::from(spaced)
}

// A number's bytes, the lowest first, are written over the eight from a place on.
fn put_number(rec: &mut [u8], at: usize, n: u64)
    requires { at + 8 ≤ length rec.old }
    ensures { rec.new ≡ take at rec.old ++ (little 8 n ++ drop 8 (drop at rec.old)) }
{
    rec[at..at + NUMBER].copy_from_slice(&n.to_le_bytes());
}

// The record's bytes are written.
fn pack(rec: &mut [u8], s: Stream)
    requires { length rec.old ≡ 25 }
    ensures { rec.new ≡ packed s }
{
    rec[0] = bit(s.spaced);
    put_number(rec, COUNT, s.count as u64);
    put_number(rec, LINE, s.line as u64);
    put_number(rec, COLUMN, s.column as u64);
}

// The bytes of the record that an answer leaves: on a refusal they stay.
fn repack(rec: &mut [u8], a: Answer, s: Stream)
    requires { length rec.old ≡ 25 }
    ensures { rec.new ≡ repacked a s rec.old }
{
    match a {
        Ok(_) => pack(rec, s),
        Err(_) => {}
    }
}

// A token was laid where the count was, with no newline: the bit and the count are written, the column goes on, and the line's bytes stay. The answer is how
// many bytes were added. The column is read again here, so that the compiler adds to it where it lies.
fn laid(rec: &mut [u8], count: usize, s: Sink) -> u64
    requires { (well_formed' rec.old ≡ true) × ((count ≡ (unpacked rec.old).count) × (((unpacked rec.old).column ≤ count) × (count ≤ s.at))) }
    ensures { (result ≡ s.at - count) × (rec.new ≡ packed (on_line (unpacked rec.old) s)) }
{
    let added = (s.at - count) as u64;
    rec[0] = bit(s.spaced);
    put_number(rec, COUNT, s.at as u64);
    let column = number_at(rec, COLUMN);
    put_number(rec, COLUMN, column + added);
    added
}

// One token over a record that is well formed, with all refusals asked for: a record of our own is lent, and what is left of it packed. The value is taken
// up first, so that where it lies comes in a register.
fn asked(rec: &mut [u8], out: &mut [u8], token: u16, value: &[u8]) -> u64
    requires { well_formed' rec.old ≡ true }
    ensures { Crosses rec.old out.old token value.now result rec.new out.new }
{
    let v = &value[0..];
    let next = append::lent(unpack(rec), out, token, v);
    let answer = next.answer;
    let left = next.rec;
    repack(rec, answer, left);
    code(answer)
}

// A long value is laid at once where it may be.
fn long_tried(rec: Stream, out: &mut [u8], token: u16, value: &[u8]) -> Option<Sink>
    ensures { Comes (held' rec && many_may rec (length out.old) token value.now) rec out.old (news rec token value.now) (leaves rec.spaced (token_of token value.now)) result out.new }
{
    if !held(rec) {
        return None;
    }
    quick::long_alone(rec, out, token, value)
}

// A token that is not laid at once yet: a long value is where it may be, and for all else all refusals are asked for.
fn checked(rec: &mut [u8], out: &mut [u8], token: u16, value: &[u8]) -> u64
    requires { well_formed' rec.old ≡ true }
    ensures { Crosses rec.old out.old token value.now result rec.new out.new }
{
    let v = &value[0..];
    let before = unpack(rec);
    let q = long_tried(before, out, token, v);
    match q {
        Some(s) => laid(rec, before.count, s),
        None => asked(rec, out, token, v),
    }
}

// A token with no value bytes: laid at once where it may be.
fn bare(rec: &mut [u8], out: &mut [u8], token: u16, value: &[u8]) -> u64
    requires { (well_formed' rec.old ≡ true) × ((held' (unpacked rec.old) ≡ true) × (length value.now ≡ 0)) }
    ensures { Crosses rec.old out.old token value.now result rec.new out.new }
{
    let before = unpack(rec);
    let q = quick::word_alone(before, out, token);
    match q {
        Some(s) => laid(rec, before.count, s),
        None => checked(rec, out, token, value),
    }
}

// A token with a value: one of few bytes is laid at once where it may be.
fn valued(rec: &mut [u8], out: &mut [u8], token: u16, value: &[u8]) -> u64
    requires { (well_formed' rec.old ≡ true) × (held' (unpacked rec.old) ≡ true) }
    ensures { Crosses rec.old out.old token value.now result rec.new out.new }
{
    let before = unpack(rec);
    let q = quick::value_alone(before, out, token, value);
    match q {
        Some(s) => laid(rec, before.count, s),
        None => checked(rec, out, token, value),
    }
}

// Appends one token: 01's append, with the record as 25 bytes. Answers number * 2^32 + place. It stays a function of its own, so that the export, which mends
// the places of three slices, saves no register: inlined there, append over the schema takes 1,199,886 instructions in place of 1,133,872.
#[inline(never)]
pub fn append(rec: &mut [u8], out: &mut [u8], token: u16, value: &[u8]) -> u64
    ensures { Crosses rec.old out.old token value.now result rec.new out.new }
{
    if !well_formed(rec) {
        return code(Err(Refusal::Malformed));
    }
    if !held(unpack(rec)) {
        return checked(rec, out, token, value);
    }
    if value.len() == 0 {
        return bare(rec, out, token, value);
    }
    valued(rec, out, token, value)
}
