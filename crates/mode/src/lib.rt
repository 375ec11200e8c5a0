// What a caller may ask for beside 01 (02, vii and viii): options, as the bits of a number, and the mode that they stand for, handed on by value.
#![tactic(auto)]

ghost use Rattle.std.specs.Prelude.{◌≡◌};
ghost use Rattle.mode.specs.Options.{is_sqlite, edition_of, mode_of};

// The options of 01 as it is.
pub const NO_OPTIONS: u32 = 0;

// The lowest bit of a number is what is left by this.
const BIT: u32 = 2;

// What the text is written for.
#[derive(Clone, Copy, PartialEq, Eq)]
pub enum Edition {
    // As the crate writes it.
    Crate,
    // As SQLite reads it.
    Sqlite,
}

#[derive(Clone, Copy, PartialEq, Eq)]
pub struct Mode {
    // 02's switch: a CHECK's source that swallows its bracket is refused.
    pub strict: bool,
    pub edition: Edition,
}

// Whether an edition is SQLite's.
pub fn sqlite(e: Edition) -> bool
    ensures { result ≡ is_sqlite e }
{
    matches!(e, Edition::Sqlite)
}

// The edition that a number of options asks for: bit 1 is SQLite's.
fn edition_in(options: u32) -> Edition
    ensures { result ≡ edition_of options }
{
    if options / BIT % BIT == 1 {
        return Edition::Sqlite;
    }
    Edition::Crate
}

// The mode that a number of options stands for: bit 0 is the switch, bit 1 the edition, and no other bit means anything.
pub fn of(options: u32) -> Mode
    ensures { result ≡ mode_of options }
{
    Mode {
        strict: options % BIT == 1,
        edition: edition_in(options),
    }
}
