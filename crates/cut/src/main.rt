// Cuts standard input by the reading rule and prints a line for each lexeme (02, iii).
#![tactic(auto)]

use files::ROOM;

fn main(rt: HostRuntime) {
    let mut text = [0u8; ROOM];
    let mut input = rt.stdin();
    match files::read_to_end(&mut input, &mut text) {
        Ok(len) => cutter::print_lexemes(&text[..len]),
        Err(_) => files::print_unreadable(),
    }
}
