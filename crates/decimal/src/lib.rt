// A number of 64 bits with a sign, as decimal text in ASCII, by subtraction of powers of ten alone.
#![tactic(auto)]

ghost use Rattle.std.specs.Prelude.{◌≡◌, ◌+◌, ◌*◌, ◌^◌, ◌≤◌, ◌<◌, length, take as take'};
ghost use Rattle.std.proofs.lemmas.List.Edits.{sets};
ghost use Rattle.decimal.specs.Decimal.{digit, natural, magnitude as magnitude', sign};
ghost use Rattle.decimal.specs.Powers.{most, power as power'};
ghost use Rattle.decimal.specs.Spells.{Spells};

// The longest text: a minus and the nineteen digits of the lowest number.
pub const SIZE: usize = 20;

// The most digits that a number has.
const MOST: usize = 19;

const ZERO: u8 = b'0';

const MINUS: u8 = b'-';

// The text of a number: the first `len` of the bytes, and zero bytes behind it.
#[derive(Clone, Copy, PartialEq, Eq)]
pub struct Decimal {
    pub bytes: [u8; SIZE],
    pub len: usize,
}

impl Decimal {
    // The text: the first `len` of the bytes, or all of them where there are no more.
    pub fn text(&self) -> &[u8]
        ensures { result.now ≡ take' self.now.len self.now.bytes }
    {
        if SIZE < self.len {
            return &self.bytes;
        }
        &self.bytes[..self.len]
    }
}

// How often a power of ten was taken off a number, and what is left of it.
#[derive(Clone, Copy, PartialEq, Eq)]
struct Taken {
    digit: u64,
    rest: u64,
}

// The byte of one digit.
fn glyph(d: u64) -> u8
    requires { d < 10 }
    ensures { result ≡ digit d }
{
    ZERO + d as u8
}

// Ten to the power k. The last arm is never reached, and its number is no power.
fn power(k: usize) -> u64
    requires { k < most }
    ensures { result ≡ power' k }
{
    match k {
        0 => 1,
        1 => 10,
        2 => 100,
        3 => 1_000,
        4 => 10_000,
        5 => 100_000,
        6 => 1_000_000,
        7 => 10_000_000,
        8 => 100_000_000,
        9 => 1_000_000_000,
        10 => 10_000_000_000,
        11 => 100_000_000_000,
        12 => 1_000_000_000_000,
        13 => 10_000_000_000_000,
        14 => 100_000_000_000_000,
        15 => 1_000_000_000_000_000,
        16 => 10_000_000_000_000_000,
        17 => 100_000_000_000_000_000,
        18 => 1_000_000_000_000_000_000,
        _ => 0,
    }
}

// How many digits a number has: k, where ten to the power k is the first power above it.
fn count(n: u64) -> usize
    requires { n < 10 ^ most }
    ensures { result ≡ length (natural n) }
{
    for k in 1..MOST {
        if n < power(k) {
            return k;
        }
    }
    MOST
}

// A power of ten taken off a number as often as it goes: how often is the first digit, and the rest has the others. (Not by `/` and `%`, since no
// division of 64 bits may be linked.)
fn take(n: u64, unit: u64) -> Taken
    requires { (0 < unit) × (n < 10 * unit) }
    ensures { (n ≡ result.digit * unit + result.rest) × (result.rest < unit) × (result.digit < 10) }
{
    let mut digit = 0;
    let mut rest = n;
    while unit <= rest {
        rest -= unit;
        digit += 1;
    }
    Taken { digit, rest }
}

// The digits of a number, stored from `first` to `last`. The one at `at` counts ten to the power `last - at`.
fn fill(n: u64, first: usize, last: usize, out: &mut [u8; SIZE])
    requires { (last + 1 ≡ first + length (natural n)) × (length (natural n) ≤ most) × (last < 20) }
    ensures { out.new ≡ sets out.old first (natural n) }
{
    let mut rest = n;
    for at in first..last {
        let t = take(rest, power(last - at));
        out[at] = glyph(t.digit);
        rest = t.rest;
    }
    out[last] = glyph(rest);
}

// A number without its sign.
fn magnitude(n: i64) -> u64
    ensures { result ≡ magnitude' n }
{
    n.unsigned_abs()
}

// How many bytes the sign takes: one for a minus.
fn signs(n: i64) -> usize
    ensures { result ≡ length (sign n) }
{
    usize::from(n < 0)
}

// The text of a number: its sign and its digits. Where there is no sign, the first digit comes over the minus.
pub fn spell(n: i64) -> Decimal
    ensures { Spells n result }
{
    let m = magnitude(n);
    let first = signs(n);
    let len = first + count(m);
    let mut bytes = [0u8; SIZE];
    bytes[0] = MINUS;
    fill(m, first, len - 1, &mut bytes);
    Decimal { bytes, len }
}
