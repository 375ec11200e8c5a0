// What the replaying programs share: reading cases from standard input, and printing a line for each.
#![tactic(auto)]

ghost use Rattle.std.specs.Prelude.{
  ℕ,
  ◌≡◌,
  false,
  [],
  ◌∷◌,
  ◌+◌,
  ◌*◌,
  ◌^◌,
  ◌≤◌,
  ◌<◌,
  length,
  take,
  drop,
  get_or,
};
ghost use Rattle.io.specs.Counts.{IsPrefixLen};
ghost use Rattle.laws.specs.Little.{from_little};

use files::STDOUT_FILENO;

// The descriptor of standard input.
const STDIN_FILENO: i32 = 0;

// The bytes of a number in front of a case.
const WORD: usize = 4;

// The numbers in front of a tree: its options, and how long the tree and the text are.
const HEAD: usize = 3;

// The most bytes of a tree and of a text, more than the check admits.
const ROOM: usize = 69632;

// The most bytes that are printed in hex, and how many digits they have.
const BYTES: usize = 65536;

const HEX: usize = 2 * BYTES;

// The most bytes of a number's text, of that with a byte behind it, and of two such.
const DECIMAL: usize = 20;

const NUMBER: usize = DECIMAL + 1;

const NUMBERS: usize = 2 * NUMBER;

// The number that four bytes hold, the lowest first.
pub fn word(a: u8, b: u8, c: u8, d: u8) -> usize
    ensures { (result ≡ from_little (a ∷ b ∷ c ∷ d ∷ [])) × (result < 2 ^ 32) }
{
    u32::from_le_bytes([a, b, c, d]) as usize
}

// Reads into all of a part, and answers whether the input had as much.
pub fn fill(part: &mut [u8]) -> bool {
    let len = part.len();
    io::read_full(STDIN_FILENO, part) == len
}

// The numbers that some bytes hold, four bytes each.
fn numbers<const N: usize>(bytes: &[u8]) -> [u32; N]
    requires { 4 * N ≤ length bytes.now }
    ensures { (i : ℕ) → i < N → get_or result i 0 ≡ from_little (take 4 (drop (4 * i) bytes.now)) }
{
    let mut held = [0; N];
    for i in 0..N {
        let at = WORD * i;
        held[i] = word(bytes[at], bytes[at + 1], bytes[at + 2], bytes[at + 3]) as u32;
    }
    held
}

// Reads the numbers in front of a case, each of four bytes: none at the end of the input, and where it comes in the midst of them this is printed.
// They are read at once, as an input of messages has them.
pub fn head<const N: usize>() -> Option<[u32; N]> {
    let mut bytes = [[0u8; WORD]; N];
    let all = bytes.as_flattened_mut();
    let want = all.len();
    let got = io::read_full(STDIN_FILENO, all);
    if got == 0 && 0 < want {
        return None;
    }
    if got < want {
        stop(b"cut off\n");
        return None;
    }
    Some(numbers(bytes.as_flattened()))
}

// Replays case after case, as long as one may follow. The turns are counted, up to a number that no input uses up: nothing says that it ends.
pub fn replay<F: FnMut() -> bool>(mut case: F)
    requires { F.IsAlwaysCallable case }
{
    for _ in 0..u64::MAX {
        if !case() {
            return;
        }
    }
}

// Replays a case of a tree by way of two buffers, and answers whether to go on: not at the end of the input.
fn replay_tree<F: Fn(u32, &[u8], &[u8]) -> bool>(
    run: &F,
    trees: &mut [u8],
    texts: &mut [u8],
) -> bool
    requires { F.IsAlwaysCallable run.now }
{
    let Some(words) = head::<HEAD>() else {
        return false;
    };
    let [options, tree, text] = words;
    let (tree, text) = (tree as usize, text as usize);
    if tree > trees.len() || text > texts.len() {
        return stop(b"too long for this program\n");
    }
    if !fill(&mut trees[..tree]) || !fill(&mut texts[..text]) {
        return stop(b"cut off\n");
    }
    run(options, &trees[..tree], &texts[..text])
}

// Replays cases of trees. A case is its options, the length of its tree and the length of its text, each of four bytes, little-endian, the tree's
// bytes, and the text's. What is to be done with them answers whether to go on.
// (The loop is `replay` over again: that a closure over `run` may be called, `replay-requires`, is not proved.)
pub fn replay_trees<F: Fn(u32, &[u8], &[u8]) -> bool>(run: F)
    requires { F.IsAlwaysCallable run }
{
    let mut trees = [0u8; ROOM];
    let mut texts = [0u8; ROOM];
    for _ in 0..u64::MAX {
        if !replay_tree(&run, &mut trees, &mut texts) {
            return;
        }
    }
}

// Prints some bytes as they are, and answers whether they were written.
pub fn print(bytes: &[u8]) -> bool {
    io::write_all(STDOUT_FILENO, bytes)
}

// Prints why the program stops, and answers not to go on.
pub fn stop(why: &[u8]) -> bool
    ensures { result ≡ false }
{
    io::write_all(STDOUT_FILENO, why);
    false
}

// Puts a number's text into a line, its first byte at a place, and answers the place behind its last.
fn put_number(n: u64, line: &mut [u8], at: usize) -> usize
    requires { at + 20 ≤ length line.old }
    ensures { result ≤ at + 20 }
{
    let mut digits = [0u8; DECIMAL];
    let count = io::decimal(n, &mut digits);
    line[at..at + count].copy_from_slice(&digits[..count]);
    at + count
}

// Prints a number and a byte behind it, and answers whether they were written.
pub fn print_number(n: u64, behind: u8) -> bool {
    let mut line = [0u8; NUMBER];
    let end = put_number(n, &mut line, 0);
    line[end] = behind;
    print(&line[..end + 1])
}

// Prints two numbers with a space between them and a byte behind them, and answers whether they were written.
pub fn print_numbers(a: u64, b: u64, behind: u8) -> bool {
    let mut line = [0u8; NUMBERS];
    let space = put_number(a, &mut line, 0);
    line[space] = b' ';
    let end = put_number(b, &mut line, space + 1);
    line[end] = behind;
    print(&line[..end + 1])
}

// The hexadecimal digit of a number below 16. (Computed: with a table of the digits, bytes in hex take twice the time.)
fn digit(n: u8) -> u8
    requires { n < 16 }
{
    if n < 10 { b'0' + n } else { b'a' + (n - 10) }
}

// Puts the digits of some bytes at the start of digits, and answers how many there are.
fn hex(bytes: &[u8], digits: &mut [u8]) -> usize
    requires { 2 * length bytes.now ≤ length digits.old }
    ensures { IsPrefixLen result digits.new }
{
    for (i, byte) in bytes.iter().enumerate() {
        digits[2 * i] = digit(byte / 16);
        digits[2 * i + 1] = digit(byte % 16);
    }
    2 * bytes.len()
}

// Prints some bytes in hex, or `-` for none, and answers whether they were written: more than 65,536 are not.
pub fn print_bytes(bytes: &[u8]) -> bool {
    if bytes.is_empty() {
        return print(b"-");
    }
    if BYTES < bytes.len() {
        return stop(b"too long for this program\n");
    }
    let mut digits = [0u8; HEX];
    let n = hex(bytes, &mut digits);
    print(&digits[..n])
}
