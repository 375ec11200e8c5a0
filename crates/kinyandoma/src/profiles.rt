// The call that checks a tree against the field profile (02, xi): answers as number * 2^32 + place.
ghost use Rattle.std.specs.Prelude.{◌≡◌, ◌<◌, ◌^◌};
ghost use Rattle.mode.specs.Options.{mode_of};
ghost use Rattle.field.specs.Profile.{place_of};
ghost use Rattle.kinyandoma.specs.Profiles.{code as code', ProfilesIn};

use super::joined;
use field::Verdict;

// A verdict as one number.
fn code(v: Verdict) -> u64
    requires { place_of v < 2 ^ 32 }
    ensures { result ≡ code' v }
{
    joined(field::number(v), field::place(v))
}

// How long the text of a tree is that keeps to the field profile, in the mode that the options stand for (02).
pub fn kinyandoma_profile(options: u32, tree: &[u8], text: &[u8]) -> u64
    ensures { ProfilesIn (mode_of options) tree.now text.now result }
{
    code(field::profile(mode::of(options), tree, text))
}
