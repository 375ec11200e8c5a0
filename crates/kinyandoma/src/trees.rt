// The calls over whole trees: a tree and its text are lent, and for render an output; answers as number * 2^32 + place.
ghost use Rattle.std.specs.Prelude.{◌≡◌, ◌<◌, ◌^◌};
ghost use Rattle.mode.specs.Options.{mode_of};
ghost use Rattle.render.specs.Render.{place_of};
ghost use Rattle.kinyandoma.specs.Trees.{code as code', Measures, Renders, MeasuresIn, RendersIn};

use super::joined;
use mode::NO_OPTIONS;
use render::Outcome;

// An outcome as one number.
fn code(o: Outcome) -> u64
    requires { place_of o < 2 ^ 32 }
    ensures { result ≡ code' o }
{
    joined(render::number(o), render::place(o))
}

// How long the text of a tree is, in the mode that the options stand for (02).
pub fn kinyandoma_measure_with(options: u32, tree: &[u8], text: &[u8]) -> u64
    ensures { MeasuresIn (mode_of options) tree.now text.now result }
{
    code(render::measure(mode::of(options), tree, text))
}

// The text of a tree written to the output, in the mode that the options stand for (02).
pub fn kinyandoma_render_with(options: u32, tree: &[u8], text: &[u8], out: &mut [u8]) -> u64
    ensures { RendersIn (mode_of options) tree.now text.now out.old result out.new }
{
    code(render::render(mode::of(options), tree, text, out))
}

// 01's measure.
pub fn kinyandoma_measure(tree: &[u8], text: &[u8]) -> u64
    ensures { Measures tree.now text.now result }
{
    kinyandoma_measure_with(NO_OPTIONS, tree, text)
}

// 01's render.
pub fn kinyandoma_render(tree: &[u8], text: &[u8], out: &mut [u8]) -> u64
    ensures { Renders tree.now text.now out.old result out.new }
{
    kinyandoma_render_with(NO_OPTIONS, tree, text, out)
}
