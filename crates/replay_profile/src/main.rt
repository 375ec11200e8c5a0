// Replays trees from standard input through the field profile (02, xi), each with its options, and prints a line for each: the verdict's number and its place.
//
// A case is as `lines::replay_trees` reads it.
#![tactic(auto)]

// Profiles a tree and its text with these options, prints the line, and answers whether it was written.
fn print_case(options: u32, tree: &[u8], text: &[u8]) -> bool {
    let verdict = field::profile(mode::of(options), tree, text);
    lines::print_numbers(field::number(verdict), field::place(verdict) as u64, b'\n')
}

fn main() {
    lines::replay_trees(print_case);
}
