// Prints the spelling table, a line for each number: the number, then its spelling, if it has one, or ` unknown`.
#![tactic(auto)]

use files::STDOUT_FILENO;

// Numbers from here on are not printed.
const NUMBERS: u16 = 256;

// Prints what stands behind a number: nothing where a known number has no fixed spelling.
fn print_spelling(pool: &[u8], number: u16) {
    if !spelling::known(number) {
        io::write_all(STDOUT_FILENO, b" unknown");
        return;
    }
    let word = spelling::of(pool, number);
    if 0 < word.len() {
        io::write_all(STDOUT_FILENO, b" ");
        io::write_all(STDOUT_FILENO, word);
    }
}

// Prints the line of a number.
fn print_line(pool: &[u8], number: u16) {
    io::print_decimal(STDOUT_FILENO, number as u64);
    print_spelling(pool, number);
    io::write_all(STDOUT_FILENO, b"\n");
}

// Prints the line of each number, in order.
fn print_lines(pool: &[u8]) {
    for number in 0..NUMBERS {
        print_line(pool, number);
    }
}

// Makes the pool once, and prints the table.
fn main() {
    let pool = spelling::pool();
    print_lines(&pool);
}
