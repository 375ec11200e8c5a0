// Many trees at once: a list of jobs is lent, one tree buffer, one text and one output; the answer is the bytes written in all.
ghost use Rattle.mode.specs.Options.{mode_of};
ghost use Rattle.render.specs.Jobs.{RendersJobs};

use render::jobs::Job;

// The texts of all jobs written to the output, one behind the other, in the mode that the options stand for (02, i).
pub fn kinyandoma_render_jobs(
    options: u32,
    jobs: &mut [Job],
    trees: &[u8],
    text: &[u8],
    out: &mut [u8],
) -> u64
    ensures { RendersJobs (mode_of options) trees.now text.now jobs.old out.old jobs.new out.new result }
{
    render::jobs::render_jobs(options, jobs, trees, text, out) as u64
}
