// Replays texts from standard input through the reader (02, iii), and prints for each what `cut` prints, and an empty line.
//
// A case is the length of its text, four bytes, little-endian, and the text's bytes.
#![tactic(auto)]

// The numbers before a text: its length.
const HEAD: usize = 1;

// The most bytes of a text, one more than is cut.
const ROOM: usize = 65537;

// Reads a text into all of its part, cuts it and prints its lines, and answers whether to go on.
fn replay_text(text: &mut [u8]) -> bool {
    if !lines::fill(text) {
        return lines::stop(b"cut off\n");
    }
    cutter::print_lexemes(text);
    lines::print(b"\n")
}

// Replays a case by way of a buffer, and answers whether to go on: not at the end of the input.
fn replay_case(texts: &mut [u8]) -> bool {
    let Some(words) = lines::head::<HEAD>() else {
        return false;
    };
    let len = words[0] as usize;
    if len > texts.len() {
        return lines::stop(b"too long for this program\n");
    }
    replay_text(&mut texts[..len])
}

// Makes the buffer once, for every case.
fn main() {
    let mut texts = [0u8; ROOM];
    lines::replay(|| replay_case(&mut texts));
}
