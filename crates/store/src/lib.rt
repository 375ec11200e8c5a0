// Bytes stored in an output: as many as there is room for, or all of them behind a space where there is room for all.
#![tactic(auto)]

ghost use Rattle.std.specs.Prelude.{◌≡◌, true, ◌+◌, ◌-◌, ◌≤◌, ◌<◌, min, [], ◌∷◌, length, take};
ghost use Rattle.std.proofs.lemmas.List.Edits.{sets};
ghost use Rattle.store.specs.Laid.{lead, most, laid_to, laid_out};

const SPACE: u8 = b' ';

// Bytes are moved in pieces of so many.
const FOUR: usize = 4;

const EIGHT: usize = 8;

const SIXTEEN: usize = 16;

// The first N bytes of v from at on. An array stands between: from slice to slice the copy asks whether the two overlap, and append over the schema takes
// 1,420,503 instructions in place of 1,199,886.
fn piece<const N: usize>(out: &mut [u8], at: usize, v: &[u8])
    requires { (N ≤ length v.now) × (at + N ≤ length out.old) }
    ensures { out.new ≡ sets out.old at (take N v.now) }
{
    let mut b = [0u8; N];
    b.copy_from_slice(&v[..N]);
    out[at..at + N].copy_from_slice(&b);
}

// Up to three bytes from at on: the first, the middle and the last, which may be one.
fn few(out: &mut [u8], at: usize, v: &[u8])
    requires { (length v.now < 4) × (at + length v.now ≤ length out.old) }
    ensures { out.new ≡ sets out.old at v.now }
{
    let n = v.len();
    if n == 0 {
        return;
    }
    let middle = n / 2;
    let last = n - 1;
    let (a, b, c) = (v[0], v[middle], v[last]);
    out[at] = a;
    out[at + middle] = b;
    out[at + last] = c;
}

// Sixteen bytes or more from at on: sixteen at a time, and the last sixteen.
fn many(out: &mut [u8], at: usize, v: &[u8])
    requires { (16 ≤ length v.now) × (at + length v.now ≤ length out.old) }
    ensures { out.new ≡ sets out.old at v.now }
{
    let last = v.len() - SIXTEEN;
    for i in (0..last).step_by(SIXTEEN) {
        piece::<SIXTEEN>(out, at + i, &v[i..]);
    }
    piece::<SIXTEEN>(out, at + last, &v[last..]);
}

// v from at on, where there is room for all of it, in pieces that are each moved at once and may overlap.
fn lay(out: &mut [u8], at: usize, v: &[u8])
    requires { at + length v.now ≤ length out.old }
    ensures { out.new ≡ sets out.old at v.now }
{
    let n = v.len();
    if n < FOUR {
        few(out, at, v);
    } else if n < EIGHT {
        piece::<FOUR>(out, at, v);
        piece::<FOUR>(out, at + (n - FOUR), &v[n - FOUR..]);
    } else if n <= SIXTEEN {
        piece::<EIGHT>(out, at, v);
        piece::<EIGHT>(out, at + (n - EIGHT), &v[n - EIGHT..]);
    } else {
        many(out, at, v);
    }
}

// v from at on, as much of it as there is room for.
pub fn store(out: &mut [u8], at: usize, v: &[u8])
    ensures { out.new ≡ sets out.old at v.now }
{
    if out.len() <= at {
        return;
    }
    let n = (out.len() - at).min(v.len());
    lay(out, at, &v[..n]);
}

// One byte at an index, where there is room for it.
pub fn store_byte(out: &mut [u8], i: usize, b: u8)
    ensures { out.new ≡ sets out.old i (b ∷ []) }
{
    if out.len() <= i {
        return;
    }
    out[i] = b;
}

// Whether n bytes behind a space have room in an output of size bytes from at on.
fn fits(at: usize, size: usize, n: usize) -> bool
    ensures { (result ≡ true → at + (1 + n) ≤ size) × (at + (1 + n) ≤ size → result ≡ true) }
{
    n < size.saturating_sub(at)
}

// Where bytes begin that stand behind a space, unless spaced.
fn start(at: usize, spaced: bool) -> usize
    requires { at < most }
    ensures { result ≡ at + length (lead spaced) }
{
    if spaced { at } else { at + 1 }
}

// A space, unless spaced, and v, from at on, where v has bytes and there is room for a space and all of them: where they end. Else nothing. The space is
// stored in any case: where there is to be none, v comes over it.
pub fn lay_all(out: &mut [u8], at: usize, spaced: bool, v: &[u8]) -> Option<usize>
    ensures { (result ≡ laid_to at (length out.old) spaced v.now) × (out.new ≡ laid_out at out.old spaced v.now) }
{
    let n = v.len();
    if n == 0 {
        return None;
    }
    if !fits(at, out.len(), n) {
        return None;
    }
    let a = start(at, spaced);
    out[at] = SPACE;
    lay(out, a, v);
    Some(a + n)
}
