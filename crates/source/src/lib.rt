// Whether a CHECK source ends inside a block comment or inside a quote (02, vii).
#![tactic(auto)]

ghost use Rattle.std.specs.Prelude.{◌≡◌, []};
ghost use Rattle.source.specs.Source.{is_quote as is_quote', is_inside, ends_inside as ends_inside'};
ghost use Rattle.source.specs.Reading.{from, Leads};

const NEWLINE: u8 = 0x0A;

const DASH: u8 = b'-';

const SLASH: u8 = b'/';

const STAR: u8 = b'*';

// The three quotes of 01.
const APOSTROPHE: u8 = 0x27;

const DOUBLE_QUOTE: u8 = 0x22;

const BACKTICK: u8 = 0x60;

// Where the reading is.
#[derive(Clone, Copy, PartialEq, Eq)]
enum At {
    // Outside comments and quotes.
    Outside,
    // The same, behind a dash that a second one makes a line comment.
    Dash,
    // The same, behind a slash that a star makes a block comment.
    Slash,
    // In a line comment.
    Line,
    // In a block comment.
    Block,
    // The same, behind a star with which a slash ends it.
    Star,
    // In a quote that this byte opened.
    Quote(u8),
}

// Whether a byte is one of the three quotes.
fn is_quote(b: u8) -> bool
    ensures { result ≡ is_quote' b }
{
    matches!(b, APOSTROPHE | DOUBLE_QUOTE | BACKTICK)
}

// Where a byte leads outside comments and quotes.
fn outside(b: u8) -> At
    ensures { Leads At.Outside b result }
{
    if b == DASH {
        return At::Dash;
    }
    if b == SLASH {
        return At::Slash;
    }
    if is_quote(b) {
        return At::Quote(b);
    }
    At::Outside
}

// Where a byte leads behind a dash there.
fn behind_dash(b: u8) -> At
    ensures { Leads At.Dash b result }
{
    if b == DASH {
        return At::Line;
    }
    outside(b)
}

// Where a byte leads behind a slash there.
fn behind_slash(b: u8) -> At
    ensures { Leads At.Slash b result }
{
    if b == STAR {
        return At::Block;
    }
    outside(b)
}

// Where a byte leads in a line comment.
fn in_line(b: u8) -> At
    ensures { Leads At.Line b result }
{
    if b == NEWLINE { At::Outside } else { At::Line }
}

// Where a byte leads in a block comment.
fn in_block(b: u8) -> At
    ensures { Leads At.Block b result }
{
    if b == STAR { At::Star } else { At::Block }
}

// Where a byte leads behind a star there.
fn behind_star(b: u8) -> At
    ensures { Leads At.Star b result }
{
    if b == SLASH {
        return At::Outside;
    }
    in_block(b)
}

// Where a byte leads in a quote that q opened.
fn in_quote(q: u8, b: u8) -> At
    ensures { Leads (At.Quote q) b result }
{
    if b == q { At::Outside } else { At::Quote(q) }
}

// Where a byte leads from any state.
fn next(at: At, b: u8) -> At
    ensures { Leads at b result }
{
    match at {
        At::Outside => outside(b),
        At::Dash => behind_dash(b),
        At::Slash => behind_slash(b),
        At::Line => in_line(b),
        At::Block => in_block(b),
        At::Star => behind_star(b),
        At::Quote(q) => in_quote(q, b),
    }
}

// Whether a source that ends here ends inside a block comment or a quote.
#[tactic(auto, unfolding(crate::specs::Source::ends))]
fn inside(at: At) -> bool
    ensures { result ≡ is_inside (from at []) }
{
    matches!(at, At::Block | At::Star | At::Quote(_))
}

// Whether a source, read from the left, ends inside a block comment or a quote; to end inside a line comment does not count.
pub fn ends_inside(source: &[u8]) -> bool
    ensures { result ≡ ends_inside' source.now }
{
    let mut at = At::Outside;
    for &b in source {
        at = next(at, b);
    }
    inside(at)
}
