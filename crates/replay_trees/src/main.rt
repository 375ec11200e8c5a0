// Replays trees from standard input through the check, each with its options, and prints a line for each: the answer's number and its place.
//
// A case is as `lines::replay_trees` reads it.
#![tactic(auto)]

// Checks a tree and its text with these options, prints the line, and answers whether it was written.
fn print_case(options: u32, records: &[u8], text: &[u8]) -> bool {
    let answer = rules::check(records, text, mode::of(options));
    lines::print_numbers(tree::number(answer), tree::place(answer) as u64, b'\n')
}

fn main() {
    lines::replay_trees(print_case);
}
