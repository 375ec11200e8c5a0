// What a program was started with: the options that the words in front of the names of its files ask for, `--strict` and `--sqlite`
// (02, vii and viii), and the names.
#![tactic(auto)]

ghost use Rattle.std.specs.Prelude.{◌≡◌, ◌≤◌, ◌<◌, IfSome, MatchOption, take};
ghost use Rattle.io.specs.Counts.{IsPrefixLen};
ghost use Rattle.asked.specs.Words.{option_of};

use std::env::FillError;
use std::rt::Env;

// The options as `mode` has them.
const STRICT: u32 = 1;

const SQLITE: u32 = 2;

const NO_OPTION: u32 = 0;

// The most bytes of a word, and one more than a path may have.
const LONGEST: usize = 4096;

// The program's own name and the two files.
const ARGS: usize = 3;

// The options that the first words ask for, and how many words there are in front of the first name.
#[derive(Clone, Copy)]
pub struct Asked {
    pub options: u32,
    pub words: usize,
}

// A word that a program was started with: so many of the bytes.
#[derive(Clone, Copy)]
pub struct Word {
    pub bytes: [u8; LONGEST],
    pub len: usize,
    ghost inside: { len ≤ 4096 },
}

impl Word {
    // A word that the program was started with, if it is there and is not too long.
    fn started_with<R: Env>(rt: &R, i: usize) -> Option<Word> {
        let mut bytes = [0u8; LONGEST];
        let len = arg(rt, i, &mut bytes)?;
        Some(Word { bytes, len })
    }

    // A name that the program was started with. One that is missing or too long is empty, and no file has it.
    fn name<R: Env>(rt: &R, i: usize) -> Word {
        Word::started_with(rt, i).unwrap_or(Word {
            bytes: [0u8; LONGEST],
            len: 0,
        })
    }

    // The word itself.
    pub fn as_slice(&self) -> &[u8]
        ensures { result.now ≡ take self.now.len self.now.bytes }
    {
        &self.bytes[..self.len]
    }
}

// What a program that takes two files was started with: the options, and the names of a tree and of its text.
#[derive(Clone, Copy)]
pub struct Files {
    pub options: u32,
    pub tree: Word,
    pub text: Word,
}

// The option that a word asks for.
pub fn option(word: &[u8]) -> Option<u32>
    ensures { MatchOption result (option_of word.now ≡ 0) (λ bit. (bit ≡ option_of word.now) × (0 < bit)) }
{
    if word == b"--strict".as_slice() {
        return Some(STRICT);
    }
    if word == b"--sqlite".as_slice() {
        return Some(SQLITE);
    }
    None
}

// How many words the program was started with, its own name among them.
pub fn arg_count<R: Env>(rt: &R) -> usize {
    let mut word = io::buffer();
    for i in 0..usize::MAX {
        if let Err(FillError::NotPresent) = rt.arg(i, &mut word) {
            return i;
        }
    }
    usize::MAX
}

// Puts a word that the program was started with at the start of a buffer, and answers how long it is: none where it is missing or
// longer than the buffer.
pub fn arg<R: Env>(rt: &R, i: usize, buf: &mut [u8]) -> Option<usize>
    ensures { IfSome result (λ len. IsPrefixLen len buf.new) }
{
    rt.arg(i, buf).ok()
}

// The options that the program was started with. A word that asks for none is the first name.
pub fn before_names<R: Env>(rt: &R) -> Asked {
    let mut options = NO_OPTION;
    let count = arg_count(rt);
    for words in 0..count {
        let Some(word) = Word::started_with(rt, words + 1) else {
            return Asked { options, words };
        };
        let Some(bit) = option(word.as_slice()) else {
            return Asked { options, words };
        };
        options = options | bit;
    }
    Asked {
        options,
        words: count,
    }
}

// What the program was started with, where it is the options and two names.
pub fn two_files<R: Env>(rt: &R) -> Option<Files> {
    let asked = before_names(rt);
    let count = arg_count(rt);
    if count < ARGS || count - ARGS != asked.words {
        return None;
    }
    Some(Files {
        options: asked.options,
        tree: Word::name(rt, count - 2),
        text: Word::name(rt, count - 1),
    })
}
