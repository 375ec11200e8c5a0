// One lexeme of a text, by the reading rule (01, section 5; 02, iii): its kind, where it starts, and the rest of the text behind it.
#![tactic(auto)]

ghost use Rattle.std.specs.Prelude.{ℕ, Bool, ◌≡◌, ◌+◌, ◌≤◌, ◌<◌, length, drop, get_or, Some, ◌&&◌, ◌||◌, eqb};
ghost use Rattle.laws.specs.Among.{among};
ghost use Rattle.reading.specs.Bytes.{digit as digit', word_first as word_first', word_byte as word_byte', blanks, variables, quotes, marks, exes, apostrophe};
ghost use Rattle.reading.specs.Number.{takes, number as number'};
ghost use Rattle.reading.specs.Reading.{operator_byte as operator_byte', through, closing, opened, read as read'};
ghost use Rattle.reader.specs.Reader.{end, stop, Gives};
ghost use Rattle.reader.specs.Kinds.{number_of, Names};
ghost use Rattle.reader.specs.Places.{letter as letter', past, closed as closed', EndsAt, Skips, Found, FoundAt};

// What a text may have next.
#[derive(Clone, Copy, PartialEq, Eq)]
pub enum Kind {
    End,
    Word,
    Number,
    Quoted,
    Blob,
    Variable,
    Operator,
    Mark,
    Stop,
}

// The number that 02's readings give it.
impl From<Kind> for u32 {
    ghost from_gives = { λ kind n. n ≡ number_of kind };

    fn from(kind: Kind) -> u32 {
        kind as u32
    }
}

// A number that no kind has.
#[derive(Clone, Copy, PartialEq, Eq)]
pub struct UnknownKind(pub u32);

impl TryFrom<u32> for Kind {
    type Error = UnknownKind;

    ghost try_from_gives = { Names };

    fn try_from(number: u32) -> Result<Self, UnknownKind> {
        match number {
            0 => Ok(Kind::End),
            1 => Ok(Kind::Word),
            2 => Ok(Kind::Number),
            3 => Ok(Kind::Quoted),
            4 => Ok(Kind::Blob),
            5 => Ok(Kind::Variable),
            6 => Ok(Kind::Operator),
            7 => Ok(Kind::Mark),
            8 => Ok(Kind::Stop),
            _ => Err(UnknownKind(number)),
        }
    }
}

impl Kind {
    // Whether a reading ends with it: at the end, and at what cannot be read.
    pub fn is_last(self) -> bool
        ensures { result ≡ (eqb (number_of self) end || eqb (number_of self) stop) }
    {
        matches!(self, Kind::End | Kind::Stop)
    }
}

const APOSTROPHE: u8 = b'\'';

const DOT: u8 = b'.';

// So many bytes of a long lexeme are looked at one by one, and so many at once behind them.
const NEAR: usize = 16;

const EIGHT: usize = 8;

// The first byte that is not ASCII: it is a word's.
const BEYOND_ASCII: u8 = 0x80;

// What stands next in a text: a lexeme of a kind from `start` to `end`, the end, or what cannot be read. The rest begins at `end`.
#[derive(Clone, Copy)]
struct Lexeme {
    kind: Kind,
    start: usize,
    end: usize,
}

// Whether a byte is skipped between lexemes.
fn blank(b: u8) -> bool
    ensures { result ≡ among b blanks }
{
    matches!(b, b' ' | b'\n')
}

// Whether a byte is a mark.
fn mark(b: u8) -> bool
    ensures { result ≡ among b marks }
{
    matches!(b, b',' | b';' | b'(' | b')' | b'.' | b'[' | b']')
}

// Whether a byte is one of the three quotes.
fn quote(b: u8) -> bool
    ensures { result ≡ among b quotes }
{
    matches!(b, b'\'' | b'"' | b'`')
}

// Whether a byte is a digit.
fn digit(b: u8) -> bool
    ensures { result ≡ digit' b }
{
    b.is_ascii_digit()
}

// Whether a byte is a letter.
fn letter(b: u8) -> bool
    ensures { result ≡ letter' b }
{
    b.is_ascii_alphabetic()
}

// Whether a byte begins a word.
#[tactic(auto, unfolding(reading::specs::Bytes::word_first, crate::specs::Places::letter))]
fn word_first(b: u8) -> bool
    ensures { result ≡ word_first' b }
{
    letter(b) || b == b'_' || BEYOND_ASCII <= b
}

// Whether a byte goes on with a word.
#[tactic(auto, unfolding(reading::specs::Bytes::word_byte))]
fn word_byte(b: u8) -> bool
    ensures { result ≡ word_byte' b }
{
    word_first(b) || digit(b) || b == b'$'
}

// Whether a byte begins a variable.
fn variable(b: u8) -> bool
    ensures { result ≡ among b variables }
{
    matches!(b, b'?' | b':' | b'@' | b'$')
}

// Whether a byte occurs in an operator.
// (By `==`: on a row of `+` a `matches!` takes 2.3 times the instructions.)
fn operator_byte(b: u8) -> bool
    ensures { result ≡ operator_byte' b }
{
    (b == b'+')
        | ((b == b'-')
            | ((b == b'*')
                | ((b == b'/')
                    | ((b == b'%')
                        | ((b == b'=')
                            | ((b == b'<')
                                | ((b == b'>')
                                    | ((b == b'!')
                                        | ((b == b'&') | ((b == b'|') | (b == b'~')))))))))))
}

// Where the bytes of a sort from a place on end.
fn bytes_end<S: Fn(u8) -> bool>(text: &[u8], at: usize, sort: S) -> usize
    requires inside { at ≤ length text.now }
    requires callable { S.IsAlwaysCallable sort }
    ensures { EndsAt (S.post sort) text.now at result }
{
    for i in at..text.len() {
        if !sort(text[i]) {
            return i;
        }
    }
    text.len()
}

// The same, eight bytes a turn: so the time hangs less on where the loop comes to lie.
fn eights_end<S: Fn(u8) -> bool>(text: &[u8], at: usize, sort: S) -> usize
    requires inside { at ≤ length text.now }
    requires callable { S.IsAlwaysCallable sort }
    ensures { EndsAt (S.post sort) text.now at result }
{
    let mut i = at;
    while EIGHT <= text.len() - i {
        let four = sort(text[i]) & sort(text[i + 1]) & sort(text[i + 2]) & sort(text[i + 3]);
        let more = sort(text[i + 4]) & sort(text[i + 5]) & sort(text[i + 6]) & sort(text[i + 7]);
        if !(four & more) {
            break;
        }
        i += EIGHT;
    }
    bytes_end(text, i, sort)
}

// The same of what may be long: by eights behind its first bytes, so that a short lexeme costs no turn of eight.
fn long_end<S: Fn(u8) -> bool>(text: &[u8], at: usize, sort: S) -> usize
    requires inside { at ≤ length text.now }
    requires callable { S.IsAlwaysCallable sort }
    ensures { EndsAt (S.post sort) text.now at result }
{
    let near = at + NEAR.min(text.len() - at);
    for j in at..near {
        if !sort(text[j]) {
            return j;
        }
    }
    eights_end(text, near, sort)
}

// The first place of a text where no blank stands.
fn skip_blanks(text: &[u8]) -> usize
    ensures { Skips text.now result }
{
    bytes_end(text, 0, blank)
}

// Where the number ends whose first digit stands at a place: behind its digits, or behind a dot and digits.
fn number_end(text: &[u8], at: usize) -> usize
    requires { at < length text.now }
    ensures { Some result ≡ past at (number' (get_or text.now at 0) (drop (at + 1) text.now)) }
{
    let end = long_end(text, at + 1, digit);
    if end + 1 < text.len() && text[end] == DOT && digit(text[end + 1]) {
        return long_end(text, end + 1, digit);
    }
    end
}

// Where a quotation ends from a place inside it on: behind the first like quote that is not doubled.
// (A turn goes on to the next quote, or behind the two of a doubled one, so `i` is counted by hand.)
fn closing_end(text: &[u8], at: usize, quote: u8) -> Option<usize>
    requires { at ≤ length text.now }
    ensures { result ≡ past at (closing quote (drop at text.now)) }
{
    let mut i = at;
    while i < text.len() {
        if text[i] != quote {
            i = long_end(text, i + 1, |b| b != quote);
        } else if i + 1 < text.len() && text[i + 1] == quote {
            i += 2;
        } else {
            return Some(i + 1);
        }
    }
    None
}

// Where a blob ends from a place inside its quotes on: behind the next quote.
fn through_end(text: &[u8], at: usize) -> Option<usize>
    requires { at ≤ length text.now }
    ensures { result ≡ past at (through apostrophe (drop at text.now)) }
{
    for i in at..text.len() {
        if text[i] == APOSTROPHE {
            return Some(i + 1);
        }
    }
    None
}

// Whether a blob begins at a place: X or x, and a quote behind it.
fn opens_blob(text: &[u8], at: usize) -> bool
    requires { at < length text.now }
    ensures { result ≡ (among (get_or text.now at 0) exes && opened (drop (at + 1) text.now)) }
{
    matches!(&text[at..], [b'X' | b'x', APOSTROPHE, ..])
}

// A lexeme from a place to its end, or what cannot be read there.
fn closed(kind: Kind, start: usize, end: Option<usize>) -> Lexeme
    ensures { result ≡ closed' kind start end }
{
    match end {
        Some(end) => Lexeme { kind, start, end },
        None => Lexeme {
            kind: Kind::Stop,
            start,
            end: start,
        },
    }
}

// The lexeme whose first byte stands at a place, or what cannot be read there.
fn lexeme_at(text: &[u8], at: usize) -> Lexeme
    requires { at < length text.now }
    ensures { FoundAt text.now at result }
{
    let b = text[at];
    if word_first(b) {
        if opens_blob(text, at) {
            return closed(Kind::Blob, at, through_end(text, at + 2));
        }
        return closed(Kind::Word, at, Some(bytes_end(text, at + 1, word_byte)));
    }
    if mark(b) {
        return closed(Kind::Mark, at, Some(at + 1));
    }
    if digit(b) {
        return closed(Kind::Number, at, Some(number_end(text, at)));
    }
    if quote(b) {
        return closed(Kind::Quoted, at, closing_end(text, at + 1, b));
    }
    if operator_byte(b) {
        return closed(
            Kind::Operator,
            at,
            Some(bytes_end(text, at + 1, operator_byte)),
        );
    }
    if variable(b) {
        return closed(Kind::Variable, at, Some(bytes_end(text, at + 1, word_byte)));
    }
    closed(Kind::Stop, at, None)
}

// What stands next in a text.
fn next(text: &[u8]) -> Lexeme
    ensures { Found (read' text.now) text.now result }
{
    let at = skip_blanks(text);
    if at == text.len() {
        return Lexeme {
            kind: Kind::End,
            start: at,
            end: at,
        };
    }
    lexeme_at(text, at)
}

// Reads one lexeme of a text: its kind and where it starts are stored, and the rest of the text is handed back.
pub fn read_kind<'a>(text: &'a [u8], kind: &mut Kind, start: &mut usize) -> &'a [u8]
    ensures { Gives text.now (number_of kind.new) start.new result.now }
{
    let l = next(text);
    *kind = l.kind;
    *start = l.start;
    let end = l.end;
    &text[end..]
}

// The same, with the number of the kind.
pub fn read<'a>(text: &'a [u8], kind: &mut u32, start: &mut usize) -> &'a [u8]
    ensures { Gives text.now kind.new start.new result.now }
{
    let mut found = Kind::End;
    let rest = read_kind(text, &mut found, start);
    *kind = u32::from(found);
    rest
}
