// The call that reads one lexeme of a text (02, iii): its kind as a number, where it starts, and where the rest of the text does.
ghost use Rattle.kinyandoma.specs.Lexemes.{Lexed};

use reader::Kind;

// Reads one lexeme, and answers its kind: 0 at the end, and 8 where nothing can be read.
pub fn kinyandoma_lexeme(text: &[u8], start: &mut usize, rest: &mut usize) -> u32
    ensures { Lexed text.now result start.new rest.new }
{
    let mut kind = u32::from(Kind::End);
    let behind = reader::read(text, &mut kind, start);
    *rest = text.len() - behind.len();
    kind
}
