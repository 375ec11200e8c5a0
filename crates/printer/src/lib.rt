// Prints the text of a tree that stands in two files (01, section 6): the text, or a refusal, or that they cannot be read.
#![tactic(auto)]

use files::STDOUT_FILENO;
pub use files::{ROOM, print_answer, print_unreadable, read_file};
use render::Outcome;
use std::rt::Files;

// The bytes of the output buffer.
const OUTPUT: usize = 65536;

// Prints a refusal's number and its place.
fn print_refusal(o: Outcome) {
    print_answer(render::number(o), render::place(o));
}

// Prints the text of a tree with these options and nothing more, or the refusal.
fn print_text(options: u32, tree: &[u8], text: &[u8]) {
    let mut out = [0u8; OUTPUT];
    let outcome = render::render(mode::of(options), tree, text, &mut out);
    match outcome {
        Ok(n) => {
            io::write_all(STDOUT_FILENO, &out[..n]);
        }
        Err(_) => print_refusal(outcome),
    }
}

// Prints the text of the tree and the text that stand in the files of these names, with these options.
pub fn print_files<R: Files>(rt: &R, options: u32, tree_name: &[u8], text_name: &[u8]) {
    files::with_both(rt, tree_name, text_name, |tree, text| {
        print_text(options, tree, text)
    });
}
