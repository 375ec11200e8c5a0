// Replays cases of append from standard input, and prints a line for each: the bytes written, in hex, and the
// record's bit, line and column; or the refusal.
//
// A case is a byte, the number of its tokens, and the tokens. A token is its word and the length of its value, each of
// two bytes, little-endian, and the value's bytes.
#![tactic(auto)]

ghost use Rattle.std.specs.Prelude.{◌≡◌, ◌≤◌, length, IfSome};
ghost use Rattle.replay.specs.Case.{room, Within};

use append::{Refusal, Stream};

// The bytes before a token's value.
const HEAD: usize = 4;
// The bytes that a case may write, and more than a value may have.
const TEXT: usize = 65536;

// How a case stands: each token so far was appended, and left this record, or one was refused.
type Case = Result<Stream, Refusal>;

// A case with no token so far.
fn fresh() -> Case
    ensures { Within result }
{
    Ok(Stream {
        spaced: true,
        count: 0,
        line: 0,
        column: 0,
    })
}

// Appends a token behind what a case has written: the case's record is lent.
fn append_token(rec: Stream, text: &mut [u8; TEXT], token: u16, value: &[u8]) -> Case
    ensures { Within result }
{
    let next = append::lent(rec, text, token, value);
    let left = next.rec;
    match next.answer {
        Ok(_) => Ok(left),
        Err(refusal) => Err(refusal),
    }
}

// Reads a token's value into all of value, and appends the token to a case: none behind one that was refused. Nothing where the input ends first.
fn replay_value(case: Case, text: &mut [u8; TEXT], token: u16, value: &mut [u8]) -> Option<Case>
    requires { Within case }
    ensures { IfSome result Within }
{
    if !lines::fill(value) {
        return None;
    }
    match case {
        Ok(rec) => Some(append_token(rec, text, token, value)),
        Err(_) => Some(case),
    }
}

// Reads a token and appends it to a case. Nothing where the input ends first.
fn replay_token(case: Case, text: &mut [u8; TEXT]) -> Option<Case>
    requires { Within case }
    ensures { IfSome result Within }
{
    let mut head = [0u8; HEAD];
    if !lines::fill(&mut head) {
        return None;
    }
    let token = u16::from_le_bytes([head[0], head[1]]);
    let len = u16::from_le_bytes([head[2], head[3]]) as usize;
    let mut value = io::large_buffer();
    replay_value(case, text, token, &mut value[..len])
}

// Replays a case of so many tokens. Nothing where the input ends in the midst of them.
fn replay_tokens(tokens: u8, text: &mut [u8; TEXT]) -> Option<Case>
    ensures { IfSome result Within }
{
    let mut case = fresh();
    for _ in 0..tokens {
        case = replay_token(case, text)?;
    }
    Some(case)
}

// Prints the line of a case that was written, whose bytes are at the start of text.
fn print_written(rec: Stream, text: &[u8])
    requires count_le_room { rec.count ≤ room }
    requires text_len { length text.now ≡ room }
{
    let count = rec.count;
    lines::print_bytes(&text[..count]);
    lines::print(if rec.spaced { b" 1 " } else { b" 0 " });
    lines::print_numbers(rec.line as u64, rec.column as u64, b'\n');
}

// Prints the line of a case with a token that was refused: the refusal's number and place.
fn print_refused(refusal: Refusal) {
    let answer = Err(refusal);
    lines::print(b"refused ");
    lines::print_numbers(append::number(answer), append::place(answer), b'\n');
}

// Replays a case and prints its line, and answers whether to go on: not at the end of the input. A line that cannot be written is no reason to stop.
fn replay_case() -> bool {
    let mut tokens = [0u8; 1];
    if !lines::fill(&mut tokens) {
        return false;
    }
    let mut text = [0u8; TEXT];
    match replay_tokens(tokens[0], &mut text) {
        Some(Ok(rec)) => print_written(rec, &text),
        Some(Err(refusal)) => print_refused(refusal),
        None => return lines::stop(b"cut off\n"),
    }
    true
}

fn main() {
    lines::replay(replay_case);
}
