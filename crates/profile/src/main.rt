// Checks a tree against the field profile (02, xi): of two named files, the tree and then its text, with the options in front of them (02, vii and viii).
#![tactic(auto)]

// Prints the number and the place of the verdict on a tree and its text, with these options: 0 and the length, or the refusal.
fn print_verdict(options: u32, tree: &[u8], text: &[u8]) {
    let verdict = field::profile(mode::of(options), tree, text);
    files::print_answer(field::number(verdict), field::place(verdict));
}

fn main(rt: HostRuntime) {
    match asked::two_files(&rt) {
        Some(asked) => files::with_both(
            &rt,
            asked.tree.as_slice(),
            asked.text.as_slice(),
            |tree, text| print_verdict(asked.options, tree, text),
        ),
        None => files::print_unreadable(),
    }
}
