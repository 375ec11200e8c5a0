// UTF-8 (RFC 3629): whether bytes are a text, where the longest text that begins them ends, and where characters start.
#![tactic(auto)]

ghost use Rattle.std.specs.Prelude.{◌≡◌, ◌+◌, ◌<◌, ◌≤◌, true, length, take};
ghost use Rattle.utf8.specs.Rfc3629.{Encoded, number as number', place as place', tail as tail', boundary as boundary'};
ghost use Rattle.utf8.specs.Scan.{ones as ones', low as low', high as high', second as second', two as two', three as three', four as four', width, long as long', begins as begins', broken_at};
ghost use Rattle.utf8.specs.Plain.{plain as plain', all_plain, few_plain, many_plain, Stops, Goes};

// A tail, a byte that goes on with a character, is from 80 to BF.
const TAIL_FIRST: u8 = 0x80;

const TAIL_LAST: u8 = 0xBF;

// The first lead of two bytes, and the last of four.
const TWO_FIRST: u8 = 0xC2;

const FOUR_LAST: u8 = 0xF4;

// After four leads the second byte's range starts later than a tail's, or ends sooner.
const LEAD_E0: u8 = 0xE0;

const FIRST_AFTER_E0: u8 = 0xA0;

const LEAD_ED: u8 = 0xED;

const LAST_AFTER_ED: u8 = 0x9F;

const LEAD_F0: u8 = 0xF0;

const FIRST_AFTER_F0: u8 = 0x90;

const LEAD_F4: u8 = 0xF4;

const LAST_AFTER_F4: u8 = 0x8F;

// The numbers of the refusals: 01's, not UTF-8, and 02's (ii), cut off in the middle of a character.
const NOT_UTF8: u64 = 2;

const CUT_OFF: u64 = 12;

// Plain bytes are looked for four, eight, sixteen or, in a long text, sixty-four at once.
const FOUR: usize = 4;

const EIGHT: usize = 8;

const BLOCK: usize = 16;

const PAGE: usize = 64;

// The first plain byte: the controls stand before it.
const PLAIN_FIRST: u8 = 0x20;

// What bytes that are no text have: the longest text that begins them ends somewhere before they do.
#[derive(Clone, Copy, PartialEq, Eq)]
pub enum Broken {
    // It ends here, and what is behind it begins no character.
    Bad(usize),
    // It ends here, and from here to the end the bytes are a proper beginning of a character.
    Cut(usize),
}

// What the check answers: that the bytes are a text, or how they are broken.
pub type Encoding = Result<(), Broken>;

// The number of 01's table that an answer is: 0, or the refusal's.
pub fn number(e: Encoding) -> u64
    ensures { result ≡ number' e }
{
    match e {
        Ok(()) => 0,
        Err(Broken::Bad(_)) => NOT_UTF8,
        Err(Broken::Cut(_)) => CUT_OFF,
    }
}

// The place that goes with it: the first byte that begins no valid character.
pub fn place(e: Encoding) -> usize
    ensures { result ≡ place' e }
{
    match e {
        Ok(()) => 0,
        Err(Broken::Bad(at) | Broken::Cut(at)) => at,
    }
}

// The count of ones at the top of a byte: what a character's first byte says of its length.
fn ones(b: u8) -> u32
    ensures { result ≡ ones' b }
{
    u8::leading_zeros(!b)
}

// Whether a byte is a tail.
fn tail(b: u8) -> bool
    ensures { result ≡ tail' b }
{
    (TAIL_FIRST <= b) & (b <= TAIL_LAST)
}

// The least second byte after a lead of three or four bytes: below it, fewer bytes would do.
fn low(lead: u8) -> u8
    ensures { result ≡ low' lead }
{
    if lead == LEAD_E0 {
        return FIRST_AFTER_E0;
    }
    if lead == LEAD_F0 {
        return FIRST_AFTER_F0;
    }
    TAIL_FIRST
}

// The greatest second byte after such a lead: above it are surrogates, and what is past U+10FFFF.
fn high(lead: u8) -> u8
    ensures { result ≡ high' lead }
{
    if lead == LEAD_ED {
        return LAST_AFTER_ED;
    }
    if lead == LEAD_F4 {
        return LAST_AFTER_F4;
    }
    TAIL_LAST
}

// Whether a byte may come second after such a lead.
fn second(lead: u8, b: u8) -> bool
    ensures { result ≡ second' lead b }
{
    (low(lead) <= b) & (b <= high(lead))
}

// After a lead with two ones: 2 where the character is whole and right, else 0.
fn two(s: &[u8]) -> usize
    ensures { result ≡ two' s.now }
{
    if s.len() < 2 {
        return 0;
    }
    if (TWO_FIRST <= s[0]) & tail(s[1]) {
        return 2;
    }
    0
}

// After a lead with three ones: 3 where the character is whole and right, else 0.
fn three(s: &[u8]) -> usize
    ensures { result ≡ three' s.now }
{
    if s.len() < 3 {
        return 0;
    }
    if second(s[0], s[1]) & tail(s[2]) {
        return 3;
    }
    0
}

// After a lead with four ones: 4 where the character is whole and right, else 0.
fn four(s: &[u8]) -> usize
    ensures { result ≡ four' s.now }
{
    if s.len() < 4 {
        return 0;
    }
    if (s[0] <= FOUR_LAST) & (second(s[0], s[1]) & (tail(s[2]) & tail(s[3]))) {
        return 4;
    }
    0
}

// The length of the character that begins the bytes, by the count of ones of its first byte; 0 where none does. (No Option: the definition `width`
// counts bytes, and an Option would have to be turned back to that count.)
fn char_len(s: &[u8]) -> usize
    requires { 0 < length s.now }
    ensures { result ≡ width s.now }
{
    let n = ones(s[0]);
    match n {
        0 => 1,
        2 => two(s),
        3 => three(s),
        4 => four(s),
        _ => 0,
    }
}

// Whether a byte is plain: a character of one byte, but none of the controls below 20.
fn plain_byte(b: u8) -> bool
    ensures { result ≡ plain' b }
{
    (PLAIN_FIRST <= b) & (b < TAIL_FIRST)
}

// Whether the first N bytes are.
fn plain_first<const N: usize>(s: &[u8]) -> bool
    requires { N ≤ length s.now }
    ensures { result ≡ all_plain (take N s.now) }
{
    s[..N].iter().fold(true, |all, b| all & plain_byte(*b))
}

// Whether up to three bytes are: the first, the middle and the last, which may be one.
fn plain_three(s: &[u8]) -> bool
    requires { length s.now < 4 }
    ensures { result ≡ all_plain s.now }
{
    let n = s.len();
    if n == 0 {
        return true;
    }
    plain_byte(s[0]) & plain_byte(s[n / 2]) & plain_byte(s[n - 1])
}

// Where the pieces of N plain bytes that begin the bytes end. (A `while`: a place is asked for, which a `for` over chunks would count beside them.)
fn pieces<const N: usize>(s: &[u8]) -> usize
    requires { 0 < N }
    ensures { Stops N s.now result }
{
    let mut i = 0;
    while N <= s.len() - i {
        if !plain_first::<N>(&s[i..]) {
            return i;
        }
        i += N;
    }
    i
}

// Whether all bytes are plain, of which there are N or more: pieces of them, and the last one, which need not begin where the one before it ends.
fn plain_long<const N: usize>(s: &[u8]) -> bool
    requires { (0 < N) × (N ≤ length s.now) }
    ensures { result ≡ all_plain s.now }
{
    let n = s.len();
    if n - pieces::<N>(s) < N {
        return plain_first::<N>(&s[n - N..]);
    }
    false
}

// Whether there are more than sixteen bytes, and all are plain.
pub fn plain_many(s: &[u8]) -> bool
    ensures { result ≡ many_plain s.now }
{
    let n = s.len();
    if n <= BLOCK {
        return false;
    }
    if n < PAGE {
        return plain_long::<BLOCK>(s);
    }
    plain_long::<PAGE>(s)
}

// Whether all bytes are plain, of which there are N to twice N: two tests that overlap reach them all.
fn plain_ends<const N: usize>(s: &[u8]) -> bool
    requires { (N ≤ length s.now) × (length s.now ≤ N + N) }
    ensures { result ≡ all_plain s.now }
{
    plain_first::<N>(s) & plain_first::<N>(&s[s.len() - N..])
}

// Whether there are at most sixteen bytes, and all are plain.
pub fn plain_few(s: &[u8]) -> bool
    ensures { result ≡ few_plain s.now }
{
    let n = s.len();
    if n < FOUR {
        return plain_three(s);
    }
    if n < EIGHT {
        return plain_ends::<FOUR>(s);
    }
    if n <= BLOCK {
        return plain_ends::<EIGHT>(s);
    }
    false
}

// How many of the first bytes are plain for sure: pages of them, and blocks behind those.
fn plain_start(s: &[u8]) -> usize
    ensures { (result ≤ length s.now) × (all_plain (take result s.now) ≡ true) }
{
    let i = pieces::<PAGE>(s);
    i + pieces::<BLOCK>(&s[i..])
}

// How far the text goes on: a byte that is plain, or a character and the blocks of plain bytes behind it; 0 where no character begins the bytes.
fn next_len(s: &[u8]) -> usize
    requires { 0 < length s.now }
    ensures { Goes s.now result }
{
    if plain_byte(s[0]) {
        return 1;
    }
    let n = char_len(s);
    if n == 0 {
        return 0;
    }
    n + pieces::<BLOCK>(&s[n..])
}

// How many bytes the character has that a byte begins, where it has more than one; 1 for any other byte.
fn long(lead: u8) -> usize
    ensures { result ≡ long' lead }
{
    if lead < TWO_FIRST {
        return 1;
    }
    if FOUR_LAST < lead {
        return 1;
    }
    ones(lead) as usize
}

// Whether the bytes are a proper beginning of a character: fewer than its first byte says, and each where it may stand.
fn begins(s: &[u8]) -> bool
    ensures { result ≡ begins' s.now }
{
    let n = s.len();
    if n == 0 {
        return false;
    }
    if long(s[0]) <= n {
        return false;
    }
    if n == 1 {
        return true;
    }
    if n == 2 {
        return second(s[0], s[1]);
    }
    second(s[0], s[1]) & tail(s[2])
}

// How bytes that are no text are broken, from the place where the longest text that begins them ends.
fn fault(rest: &[u8], at: usize) -> Broken
    ensures { Err result ≡ broken_at rest.now at }
{
    if begins(rest) {
        return Broken::Cut(at);
    }
    Broken::Bad(at)
}

// Whether the bytes are a text, and if not, where the longest text that begins them ends, and whether they are cut off there. (A `while`: a turn
// goes on by a character and the plain bytes behind it, so no iterator of the library has the turns.)
pub fn check(s: &[u8]) -> Encoding
    ensures { Encoded s.now result }
{
    let mut i = plain_start(s);
    while i < s.len() {
        let n = next_len(&s[i..]);
        if n == 0 {
            return Err(fault(&s[i..], i));
        }
        i += n;
    }
    Ok(())
}

// Whether a place of a text lies between two characters: the end, or the start of a character.
pub fn boundary(s: &[u8], at: usize) -> bool
    ensures { result ≡ boundary' s.now at }
{
    if at < s.len() {
        return !tail(s[at]);
    }
    at == s.len()
}
