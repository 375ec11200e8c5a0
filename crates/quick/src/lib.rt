// A token that is laid at once, with its refusals (01, section 1): most tokens are a plain value alone or a fixed spelling alone, and
// there is room for them. For all others nothing is done, and `append` has the answer.
#![tactic(auto)]

ghost use Rattle.std.specs.Prelude.{◌≡◌, false, ◌||◌, [], ◌++◌, length, get_or};
ghost use Rattle.spelling.specs.Spelling.{spelling};
ghost use Rattle.store.specs.Laid.{lead, room_for};
ghost use Rattle.stream.specs.Stream.{leaves};
ghost use Rattle.append.specs.Append.{news, token_of, number_of, present as present'};
ghost use Rattle.laws.specs.Among.{among};
ghost use Rattle.blank.specs.Blank.{all_blank as all_blank'};
ghost use Rattle.quick.specs.Quick.{other_kinds, alone as alone', marked as marked', tight_marks, opening_marks, few_may, many_may, word_may, Comes};

use append::{LONGEST, PRESENT, Stream, number_of, present};
use spelling::token::{
    TK_CTIME_KW, TK_FLOAT, TK_ID, TK_INTEGER, TK_JOIN_KW, TK_LIKE_KW, TK_PTR, TK_STRING,
    TK_VARIABLE,
};
use stream::Sink;

// The token word of most values.
const ID: u16 = PRESENT + TK_ID;

// A set of marks has a bit for each byte that may be one: counted from 40, the opening bracket, and from the start again after 64.
const MARKS: u64 = 64;

const MARKS_FROM: u64 = 24;

// The marks with no space before them: ) , . ; [ ]
const TIGHT: u64 = 0x28_0000_0008_0052;

// The marks that set the bit: ( . [
const OPENING: u64 = 0x8_0000_0000_0041;

// Whether a kind is one of those that are written by their value alone, and are less common than TK_ID.
fn other(kind: u16) -> bool
    ensures { result ≡ among kind other_kinds }
{
    matches!(
        kind,
        TK_STRING
            | TK_INTEGER
            | TK_FLOAT
            | TK_VARIABLE
            | TK_JOIN_KW
            | TK_LIKE_KW
            | TK_CTIME_KW
            | TK_PTR
    )
}

// Whether a token word is of a kind that is written by its value alone, and has one. Most are TK_ID.
fn alone(token: u16) -> bool
    ensures { result ≡ alone' token }
{
    if token == ID {
        return true;
    }
    if !present(token) {
        return false;
    }
    other(number_of(token))
}

// A plain value alone is laid, where there is room for it: the bit and the count that it leaves; no newline is in it. Else nothing is done. (Left to the
// compiler it is a call of its own where the blanks are told by matches!, and append over the schema takes 1,461,614 instructions in place of 1,133,872.)
#[inline(always)]
fn value_laid(rec: Stream, out: &mut [u8], value: &[u8]) -> Option<Sink>
    ensures { Comes (room_for rec.count (length out.old) value.now) rec out.old (lead rec.spaced ++ value.now) (all_blank' value.now) result out.new }
{
    let n = value.len();
    let at = rec.count;
    if n == 0 {
        return None;
    }
    let l = store::lay_all(out, at, rec.spaced, value);
    match l {
        None => None,
        Some(at) => Some(Sink {
            spaced: blank::all_blank(value),
            at,
        }),
    }
}

// A token that is a plain value alone, of few bytes, is laid, where there is room for it.
pub fn value_alone(rec: Stream, out: &mut [u8], token: u16, value: &[u8]) -> Option<Sink>
    ensures { Comes (few_may rec (length out.old) token value.now) rec out.old (news rec token value.now) (leaves rec.spaced (token_of token value.now)) result out.new }
{
    if !alone(token) {
        return None;
    }
    if !utf8::plain_few(value) {
        return None;
    }
    value_laid(rec, out, value)
}

// And one of more bytes.
pub fn long_alone(rec: Stream, out: &mut [u8], token: u16, value: &[u8]) -> Option<Sink>
    ensures { Comes (many_may rec (length out.old) token value.now) rec out.old (news rec token value.now) (leaves rec.spaced (token_of token value.now)) result out.new }
{
    if LONGEST < value.len() {
        return None;
    }
    if !alone(token) {
        return None;
    }
    if !utf8::plain_many(value) {
        return None;
    }
    value_laid(rec, out, value)
}

// Whether a set of marks, a bit for each, has the mark that is spelled as b.
fn marked(set: u64, b: u8) -> bool
    ensures { result ≡ marked' set b }
{
    (set >> ((b as u64 + MARKS_FROM) % MARKS)) % 2 == 1
}

// A mark, a spelling of one byte, is laid, where there is room for it.
fn mark(rec: Stream, out: &mut [u8], word: &[u8]) -> Option<Sink>
    requires { length word.now ≡ 1 }
    ensures { Comes (room_for rec.count (length out.old) word.now) rec out.old (lead (rec.spaced || marked' tight_marks (get_or word.now 0 0)) ++ word.now) (marked' opening_marks (get_or word.now 0 0)) result out.new }
{
    let b = word[0];
    let l = store::lay_all(out, rec.count, rec.spaced | marked(TIGHT, b), word);
    match l {
        None => None,
        Some(at) => Some(Sink {
            spaced: marked(OPENING, b),
            at,
        }),
    }
}

// A spelling is laid, where there is room for it: word is that of a token with no value.
fn bare(rec: Stream, out: &mut [u8], token: u16, word: &[u8]) -> Option<Sink>
    requires { (word.now ≡ spelling (number_of token)) × (present' token ≡ false) }
    ensures { Comes (room_for rec.count (length out.old) word.now) rec out.old (news rec token []) (leaves rec.spaced (token_of token [])) result out.new }
{
    if word.len() == 1 {
        return mark(rec, out, word);
    }
    let l = store::lay_all(out, rec.count, rec.spaced, word);
    match l {
        None => None,
        Some(at) => Some(Sink { spaced: false, at }),
    }
}

// A token with no value that is its spelling alone is laid, where there is room for it.
pub fn word_alone(rec: Stream, out: &mut [u8], token: u16) -> Option<Sink>
    ensures { Comes (word_may rec (length out.old) token) rec out.old (news rec token []) (leaves rec.spaced (token_of token [])) result out.new }
{
    if present(token) {
        return None;
    }
    bare(rec, out, token, words::of(number_of(token)))
}
