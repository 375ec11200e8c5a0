// Runs the cases of 01, section 6, that are not proved as theorems, and prints a line for each.
//
// The files of data/, in the order of their use: section 6's tree and its text; a CHECK with the source `a--b`; a
// FromClause and a Sub in turn down to depth 64 and to 65, with an empty text; section 6's tree with a wrong mark, and a
// text that is not UTF-8; 65,537 bytes; and two tokens that each have all of a text of 65,536 bytes.
#![tactic(auto)]

use files::STDOUT_FILENO;
use mode::NO_OPTIONS;
use render::Outcome;
use std::rt::Files;

// Section 6's tree: a Cmd, a DropType with its flag, and a TEXT of three bytes.
const TREE: [u8; 48] = *b"\
SN\x0a\x00\x00\x00\x01\x00\x00\x00\x00\x00\x00\x00\x00\x00\
SN\x3d\x00\x01\x00\x01\x00\x00\x00\x00\x00\x00\x00\x00\x00\
SN\x04\x00\x00\x00\x00\x00\x00\x00\x00\x00\x03\x00\x00\x00";

// What a case is, in front of what comes of it.
fn print_name(name: &[u8]) {
    io::write_all(STDOUT_FILENO, name);
    io::write_all(STDOUT_FILENO, b": ");
}

// An outcome's number and place.
fn print_outcome(o: Outcome) {
    io::print_decimal(STDOUT_FILENO, render::number(o));
    io::write_all(STDOUT_FILENO, b" ");
    io::print_decimal(STDOUT_FILENO, render::place(o) as u64);
}

// What measure answers.
fn measure_case(name: &[u8]) {
    print_name(name);
    print_outcome(render::measure(mode::of(NO_OPTIONS), &TREE, b"geo"));
    io::write_all(STDOUT_FILENO, b"\n");
}

// What render answers, and the whole output afterwards.
fn render_case(name: &[u8], out: &mut [u8]) {
    print_name(name);
    print_outcome(render::render(mode::of(NO_OPTIONS), &TREE, b"geo", out));
    io::write_all(STDOUT_FILENO, b" ");
    io::write_all(STDOUT_FILENO, out);
    io::write_all(STDOUT_FILENO, b"\n");
}

// What the printing program prints for two files. A text has no newline at its end, so one is printed behind it.
fn text_case<R: Files>(rt: &R, name: &[u8], tree: &[u8], text: &[u8]) {
    refusal_case(rt, name, tree, text);
    io::write_all(STDOUT_FILENO, b"\n");
}

fn refusal_case<R: Files>(rt: &R, name: &[u8], tree: &[u8], text: &[u8]) {
    print_name(name);
    printer::print_files(rt, NO_OPTIONS, tree, text);
}

// Section 6's tree, measured, and rendered to outputs of several lengths.
fn rooms() {
    measure_case(b"measured");
    let mut more = [b'.'; 26];
    render_case(b"room 26", &mut more);
    let mut exact = [b'.'; 24];
    render_case(b"room 24", &mut exact);
    let mut less = [b'.'; 23];
    render_case(b"room 23", &mut less);
    let mut nothing = [b'.'; 0];
    render_case(b"room 0", &mut nothing);
}

// Two files, as the printing program is given them.
fn files<R: Files>(rt: &R) {
    text_case(rt, b"drop type", b"drop_type.tree", b"geo");
    text_case(rt, b"check source", b"check.tree", b"dashes");
    text_case(rt, b"depth 64", b"depth_64.tree", b"empty");
    refusal_case(rt, b"depth 65", b"depth_65.tree", b"empty");
    refusal_case(
        rt,
        b"wrong mark, bad UTF-8",
        b"wrong_mark.tree",
        b"bad_utf8",
    );
    refusal_case(rt, b"wrong mark", b"wrong_mark.tree", b"geo");
    refusal_case(rt, b"empty tree", b"empty", b"geo");
    refusal_case(rt, b"long tree", b"too_long", b"geo");
    refusal_case(rt, b"long text", b"drop_type.tree", b"too_long");
    refusal_case(rt, b"text over the buffer", b"wide.tree", b"longest");
    refusal_case(rt, b"no such tree", b"missing", b"geo");
    refusal_case(rt, b"no such text", b"drop_type.tree", b"missing");
    refusal_case(rt, b"a folder", b".", b"geo");
}

fn main(rt: HostRuntime) {
    rooms();
    files(&rt);
}
