// The calls for the engine as C and Rust link them: each export hands on to the call of the same name in kinyandoma, with its promise.
#![tactic(auto)]

ghost use Rattle.mode.specs.Options.{mode_of};
ghost use Rattle.wire.specs.Wire.{Crosses};
ghost use Rattle.render.specs.Jobs.{RendersJobs};
ghost use Rattle.kinyandoma.specs.Trees.{Measures, Renders, MeasuresIn, RendersIn};
ghost use Rattle.kinyandoma.specs.Profiles.{ProfilesIn};
ghost use Rattle.kinyandoma.specs.Lexemes.{Lexed};

use render::jobs::Job;

// Appends one token: 01's append, with the record as 25 bytes.
#[unsafe(no_mangle)]
pub extern "C" fn kinyandoma_append(rec: &mut [u8], out: &mut [u8], token: u16, value: &[u8]) -> u64
    ensures { Crosses rec.old out.old token value.now result rec.new out.new }
{
    kinyandoma::kinyandoma_append(rec, out, token, value)
}

// How long the text of a tree is, in the mode that the options stand for (02).
#[unsafe(no_mangle)]
pub extern "C" fn kinyandoma_measure_with(options: u32, tree: &[u8], text: &[u8]) -> u64
    ensures { MeasuresIn (mode_of options) tree.now text.now result }
{
    kinyandoma::trees::kinyandoma_measure_with(options, tree, text)
}

// The text of a tree written to the output, in the mode that the options stand for (02).
#[unsafe(no_mangle)]
pub extern "C" fn kinyandoma_render_with(
    options: u32,
    tree: &[u8],
    text: &[u8],
    out: &mut [u8],
) -> u64
    ensures { RendersIn (mode_of options) tree.now text.now out.old result out.new }
{
    kinyandoma::trees::kinyandoma_render_with(options, tree, text, out)
}

// 01's measure.
#[unsafe(no_mangle)]
pub extern "C" fn kinyandoma_measure(tree: &[u8], text: &[u8]) -> u64
    ensures { Measures tree.now text.now result }
{
    kinyandoma::trees::kinyandoma_measure(tree, text)
}

// 01's render.
#[unsafe(no_mangle)]
pub extern "C" fn kinyandoma_render(tree: &[u8], text: &[u8], out: &mut [u8]) -> u64
    ensures { Renders tree.now text.now out.old result out.new }
{
    kinyandoma::trees::kinyandoma_render(tree, text, out)
}

// The texts of all jobs written to the output, one behind the other, in the mode that the options stand for (02, i).
#[unsafe(no_mangle)]
pub extern "C" fn kinyandoma_render_jobs(
    options: u32,
    jobs: &mut [Job],
    trees: &[u8],
    text: &[u8],
    out: &mut [u8],
) -> u64
    ensures { RendersJobs (mode_of options) trees.now text.now jobs.old out.old jobs.new out.new result }
{
    kinyandoma::jobs::kinyandoma_render_jobs(options, jobs, trees, text, out)
}

// How long the text of a tree is that keeps to the field profile, in the mode that the options stand for (02).
#[unsafe(no_mangle)]
pub extern "C" fn kinyandoma_profile(options: u32, tree: &[u8], text: &[u8]) -> u64
    ensures { ProfilesIn (mode_of options) tree.now text.now result }
{
    kinyandoma::profiles::kinyandoma_profile(options, tree, text)
}

// Reads one lexeme of a text, and answers its kind: 0 at the end, and 8 where nothing can be read (02, iii).
#[unsafe(no_mangle)]
pub extern "C" fn kinyandoma_lexeme(text: &[u8], start: &mut usize, rest: &mut usize) -> u32
    ensures { Lexed text.now result start.new rest.new }
{
    kinyandoma::lexemes::kinyandoma_lexeme(text, start, rest)
}
