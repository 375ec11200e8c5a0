// The five ASCII blanks of 01, section 1. White space in section 4 is another test.
#![tactic(auto)]

ghost use Rattle.std.specs.Prelude.{◌≡◌};
ghost use Rattle.blank.specs.Blank.{blank as blank', all_blank as all_blank'};

const TAB: u8 = 0x09;

const LINE_FEED: u8 = 0x0A;

const FORM_FEED: u8 = 0x0C;

const CARRIAGE_RETURN: u8 = 0x0D;

const SPACE: u8 = 0x20;

// Whether a byte is one of the five.
#[tactic(auto, unfolding(crate::specs::Blank::blank))]
pub fn blank(b: u8) -> bool
    ensures { result ≡ blank' b }
{
    matches!(b, TAB | LINE_FEED | FORM_FEED | CARRIAGE_RETURN | SPACE)
}

// Whether all of a value's bytes are; the empty value counts. Of most values the first byte is past them all: without that test append over the schema takes
// 1,187,741 instructions in place of 1,138,362, and render 2,635,772 in place of 2,568,093.
pub fn all_blank(v: &[u8]) -> bool
    ensures { result ≡ all_blank' v.now }
{
    if !v.is_empty() && SPACE < v[0] {
        return false;
    }
    v.iter().all(|b| blank(*b))
}
