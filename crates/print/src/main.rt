// Prints the text of a tree: of two named files, the tree and then its text (01, section 6), with the options in front of them (02, vii and viii).
#![tactic(auto)]

fn main(rt: HostRuntime) {
    match asked::two_files(&rt) {
        Some(asked) => printer::print_files(
            &rt,
            asked.options,
            asked.tree.as_slice(),
            asked.text.as_slice(),
        ),
        None => printer::print_unreadable(),
    }
}
