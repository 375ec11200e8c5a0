// Cuts a text by the reading rule and prints a line for each lexeme (02, iii): its kind, where it starts and how long it is.
#![tactic(auto)]

ghost use Rattle.std.specs.Prelude.{◌≡◌, ◌+◌, ◌≤◌, ◌<◌, ◌^◌, length};
ghost use Rattle.reader.specs.Kinds.{number_of};
ghost use Rattle.cutter.specs.Line.{Stored, name_of, spaced, line_of};

use files::STDOUT_FILENO;
use reader::Kind;

// The longest line: a name of eight letters, two numbers of ten digits with a space before each, and a newline.
const LINE: usize = 31;

// The most bytes of a text (01).
const LONGEST: usize = 65536;

// The bytes of the output that are printed at once.
const OUTPUT: usize = 4096;

// Stores some bytes from a place on, as far as there is room, and answers the place behind them.
// (The place goes from part to part: a struct of the output and the place would hold the same two values, and be no plainer.)
fn put(out: &mut [u8], at: usize, bytes: &[u8]) -> usize
    requires { at + length bytes.now < 2 ^ 64 }
    ensures { Stored out.old at bytes.now out.new result }
{
    store::store(out, at, bytes);
    at + bytes.len()
}

// Stores a space and a number.
fn put_number(out: &mut [u8], at: usize, n: u32) -> usize
    requires { at < 2 ^ 32 }
    ensures { Stored out.old at (spaced n) out.new result }
{
    let number = decimal::spell(n as i64);
    store::store_byte(out, at, b' ');
    put(out, at + 1, number.text())
}

// The name of a kind of lexeme.
#[tactic(auto, unfolding(crate::specs::Line::name_of))]
fn name(kind: Kind) -> &'static [u8]
    ensures { result.now ≡ name_of (number_of kind) }
{
    match kind {
        Kind::Word => b"word",
        Kind::Number => b"number",
        Kind::Quoted => b"quoted",
        Kind::Blob => b"blob",
        Kind::Variable => b"variable",
        Kind::Operator => b"operator",
        Kind::Mark => b"mark",
        Kind::End | Kind::Stop => b"",
    }
}

// Stores the line of what a reading gave, as far as there is room, and answers how long the line is: none for the end.
fn put_line(out: &mut [u8], kind: Kind, start: u32, len: u32) -> usize
    ensures { Stored out.old 0 (line_of (number_of kind) start len) out.new result }
{
    match kind {
        Kind::End => 0,
        Kind::Stop => {
            let stop = put(out, 0, b"stop");
            let place = put_number(out, stop, start);
            put(out, place, b"\n")
        }
        _ => {
            let named = put(out, 0, name(kind));
            let first = put_number(out, named, start);
            let second = put_number(out, first, len);
            put(out, second, b"\n")
        }
    }
}

// The same of a kind by its number: none where no kind has it.
pub fn line(out: &mut [u8], kind: u32, start: u32, len: u32) -> usize
    ensures { Stored out.old 0 (line_of kind start len) out.new result }
{
    match Kind::try_from(kind) {
        Ok(kind) => put_line(out, kind, start, len),
        Err(_) => 0,
    }
}

// The lines that are not printed yet: so many of the bytes.
#[derive(Drop)]
struct Output {
    bytes: [u8; OUTPUT],
    used: usize,
    ghost inside: { used ≤ 4096 },
}

impl Output {
    // Prints the lines.
    fn print(&mut self)
        ensures { self.new.used ≡ 0 }
    {
        io::write_all(STDOUT_FILENO, &self.bytes[..self.used]);
        self.used = 0;
    }

    // Makes room for a line more: where there may be none, what is there is printed.
    fn empty(&mut self)
        ensures { self.new.used + 31 ≤ 4096 }
    {
        if OUTPUT - self.used < LINE {
            self.print();
        }
    }

    // Adds the line of what a reading gave.
    fn add(&mut self, kind: Kind, start: u32, len: u32) {
        self.empty();
        let used = self.used;
        self.used = used + put_line(&mut self.bytes[used..], kind, start, len);
    }
}

// Prints the lines of a text, cut from end to end.
fn print_lines(text: &[u8])
    requires { length text.now ≤ 65536 }
{
    let mut out = Output {
        bytes: [0; OUTPUT],
        used: 0,
    };
    let mut kind = Kind::Word;
    let mut start = 0;
    let mut rest = text;
    while !kind.is_last() {
        let at = text.len() - rest.len();
        let behind = reader::read_kind(rest, &mut kind, &mut start);
        let len = rest.len() - start - behind.len();
        out.add(kind, (at + start) as u32, len as u32);
        rest = behind;
    }
    out.print();
}

// Prints the lines of a text, or that it is longer than 01's limit.
pub fn print_lexemes(text: &[u8]) {
    if LONGEST < text.len() {
        io::write_all(STDOUT_FILENO, b"2 65536\n");
        return;
    }
    print_lines(text);
}
