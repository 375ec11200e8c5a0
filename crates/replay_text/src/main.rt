// Replays trees from standard input through measure and render, each with its options, and prints a line for each: `0`, the text's length and
// the text in hex (`-` for none), or the refusal's number and its place; or `differ`, where the two do not agree.
//
// A case is as `lines::replay_trees` reads it.
#![tactic(auto)]

use render::Outcome;

// The bytes of the output.
const OUTPUT: usize = 65536;

// 01's number for an output that is too short.
const NO_ROOM: u64 = 8;

// Whether render answers as measure does, or that there is no room for what measure answers.
fn agree(measured: Outcome, rendered: Outcome) -> bool {
    let m = render::number(measured);
    let r = render::number(rendered);
    render::place(measured) == render::place(rendered) && (m == r || (m == 0 && r == NO_ROOM))
}

// Prints the line of a text, and answers whether it was written.
fn print_text(text: &[u8]) -> bool {
    lines::print_numbers(0, text.len() as u64, b' ')
        && lines::print_bytes(text)
        && lines::print(b"\n")
}

// Prints the line of a refusal, and answers whether it was written.
fn print_refusal(o: Outcome) -> bool {
    lines::print_numbers(render::number(o), render::place(o) as u64, b'\n')
}

// Measures and renders a tree and its text with these options, prints the line, and answers whether it was written.
fn print_case(options: u32, tree: &[u8], text: &[u8]) -> bool {
    let mut out = [0u8; OUTPUT];
    let measured = render::measure(mode::of(options), tree, text);
    let rendered = render::render(mode::of(options), tree, text, &mut out);
    if !agree(measured, rendered) {
        return lines::print(b"differ\n");
    }
    match rendered {
        Ok(n) => print_text(&out[..n]),
        Err(_) => print_refusal(rendered),
    }
}

fn main() {
    lines::replay_trees(print_case);
}
