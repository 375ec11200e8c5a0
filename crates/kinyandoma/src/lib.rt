// The calls for the engine (01, section 9), which kinyandoma_c exports: numbers and byte slices, answers as number * 2^32 + place.
#![tactic(auto)]

ghost use Rattle.std.specs.Prelude.{◌≡◌, ◌+◌, ◌*◌, ◌^◌, ◌<◌};
ghost use Rattle.wire.specs.Wire.{Crosses};

use wire::PLACES;

// The calls over whole trees.
pub mod trees;

// The call over a list of jobs.
pub mod jobs;

// The call over the field profile.
pub mod profiles;

// The call that reads one lexeme.
pub mod lexemes;

// A number and its place as one number. (wire has the same of append's answers: it is not public there, since a public one would ask its callers for these bounds.)
fn joined(number: u64, place: usize) -> u64
    requires { (number < 16) × (place < 2 ^ 32) }
    ensures { result ≡ number * 2 ^ 32 + place }
{
    number * PLACES + place as u64
}

// Appends one token: 01's append, with the record as 25 bytes. Answers number * 2^32 + place.
pub fn kinyandoma_append(rec: &mut [u8], out: &mut [u8], token: u16, value: &[u8]) -> u64
    ensures { Crosses rec.old out.old token value.now result rec.new out.new }
{
    wire::append(rec, out, token, value)
}
