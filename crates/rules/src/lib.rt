// The check in a mode (02, vii and viii): 01's check first, and then the rules for single TEXTs, at the records before its refusal.
//
// A rule is asked for behind 5 and before 6, so it is asked only of records that 01's check found sound so far. These are walked once more, on child
// records, with the remaining depth falling from 64; with no rule in force they are not.
#![tactic(auto)]

ghost use Rattle.std.specs.Prelude.{◌≡◌, true, ◌≤◌};
ghost use Rattle.tree.specs.Check.{inside as inside', longest, answer_in, ChecksIn};
ghost use Rattle.tree.specs.Told.{taken};
ghost use Rattle.rules.specs.Rules.{in_force as in_force', keeps as keeps', refusal as refusal', rule_fault as rule_fault', rule_of as rule_of', sound_to as sound_to', ruled as ruled'};
ghost use Rattle.rules.specs.Walk.{Led, Finds};
ghost use Rattle.rules.specs.Whole.{Answered, Ruled};

use grammar::kind::{CHECK, COLUMNS_AND_CONSTRAINTS, NONE, TEXT};
use mode::Mode;
use record::Record;
use tree::{Answer, Refusal};
use utf8::Encoding;

// A rule for the TEXT of one place.
#[derive(Clone, Copy, PartialEq, Eq)]
enum Rule {
    // A CHECK's source ends outside comments and quotes.
    Source,
    // A without-rowid text says WITHOUT ROWID.
    Rowid,
}

// A CHECK's second child is its source.
const SOURCE_CHILD: u16 = 1;

// A table's third child is its without-rowid text.
const ROWID_CHILD: u16 = 2;

// The root is 1 deep, and a record may be this deep.
const DEEPEST: usize = 64;

// What is walked: the records of a tree before an end, and in which mode.
#[derive(Clone, Copy)]
struct Walked<'a> {
    tree: &'a [u8],
    text: &'a [u8],
    end: usize,
    mode: Mode,
}

// Whether a rule is in force in a mode.
fn in_force(rule: Rule, mode: Mode) -> bool
    ensures { result ≡ in_force' rule mode }
{
    match rule {
        Rule::Source => mode.strict,
        Rule::Rowid => mode::sqlite(mode.edition),
    }
}

// Whether the part of a text that a record names keeps a rule.
fn keeps(rule: Rule, part: &[u8]) -> bool
    ensures { result ≡ keeps' rule part.now }
{
    match rule {
        Rule::Source => !source::ends_inside(part),
        Rule::Rowid => rowid::names(part),
    }
}

// The refusal of the record at an index that breaks a rule.
fn refusal(rule: Rule, index: usize) -> Refusal
    ensures { result ≡ refusal' rule index }
{
    match rule {
        Rule::Source => Refusal::Unclosed(index),
        Rule::Rowid => Refusal::NotRowid(index),
    }
}

// What the record at an index comes to in a place with a rule, or with none.
fn rule_fault(text: &[u8], rule: Option<Rule>, r: Record, index: usize, mode: Mode) -> Answer
    requires { inside' text.now r ≡ true }
    ensures { result ≡ rule_fault' mode text.now rule r index }
{
    let Some(rule) = rule else {
        return Ok(());
    };
    if !in_force(rule, mode) {
        return Ok(());
    }
    if r.kind != TEXT {
        return Ok(());
    }
    let start = r.start as usize;
    let end = start + r.len as usize;
    if keeps(rule, &text[start..end]) {
        return Ok(());
    }
    Err(refusal(rule, index))
}

// The rule for a kind's child, the first being 0.
fn rule_of(kind: u16, child: u16) -> Option<Rule>
    ensures { result ≡ rule_of' kind child }
{
    if (kind == CHECK) & (child == SOURCE_CHILD) {
        return Some(Rule::Source);
    }
    if (kind == COLUMNS_AND_CONSTRAINTS) & (child == ROWID_CHILD) {
        return Some(Rule::Rowid);
    }
    None
}

// The first record that breaks a rule, among n children of a kind and all below each; or the index behind them, or the end where that is before.
fn rule_row(on: &Walked, index: usize, kind: u16, left: usize, n: u16) -> Result<usize, Refusal>
    requires { (left ≤ 64) × Led on.now.tree.now on.now.text.now on.now.end index left kind n }
    ensures { Finds on.now.mode on.now.tree.now on.now.text.now on.now.end index left kind n result }
{
    let mut next = index;
    for child in 0..n {
        if on.end <= next {
            return Ok(next);
        }
        let r = record::read(on.tree, next);
        rule_fault(on.text, rule_of(kind, child), r, next, on.mode)?;
        next += 1;
        if (r.kids != 0) & (next < on.end) {
            next = rule_row(on, next, r.kind, left - 1, r.kids)?;
        }
    }
    Ok(next)
}

// How many records a rule may be asked of, where 01's check answers this: those before its refusal, and that record too if it is only too deep.
fn sound_to(tree: &[u8], a: Answer) -> usize
    requires { sound_to' tree.now a ≤ longest }
    ensures { result ≡ sound_to' tree.now a }
{
    match a {
        Ok(()) => record::count(tree),
        Err(refusal) => match refusal {
            Refusal::Malformed => 0,
            Refusal::TooLong => 0,
            Refusal::Broken(_) => 0,
            Refusal::Mark(i) => i,
            Refusal::Misfit(i) => i,
            Refusal::Outside(i) => i,
            Refusal::Unclosed(i) => i,
            Refusal::NotRowid(i) => i,
            Refusal::Deep(i) => i + 1,
            Refusal::Ends(i) => i,
        },
    }
}

// The answer in a mode, where 01's check answers this and the walk comes to that.
fn ruled(a: Answer, w: Result<usize, Refusal>) -> Answer
    ensures { result ≡ ruled' a w }
{
    w?;
    a
}

// The answer in a mode, where 01's check answers this: with no rule in force it stays.
fn in_mode(tree: &[u8], text: &[u8], a: Answer, mode: Mode) -> Answer
    requires { Answered tree.now text.now a }
    ensures { Ruled mode tree.now text.now a result }
{
    let strict = mode.strict;
    let edition = mode.edition;
    if !(strict | mode::sqlite(edition)) {
        return a;
    }
    let on = Walked {
        tree,
        text,
        end: sound_to(tree, a),
        mode,
    };
    ruled(a, rule_row(&on, 0, NONE, DEEPEST, 1))
}

// The check of a tree and its text in a mode: the first fitting refusal, or that they are admitted.
pub fn check(tree: &[u8], text: &[u8], mode: Mode) -> Answer
    ensures { ChecksIn mode tree.now text.now result }
{
    in_mode(tree, text, tree::check(tree, text), mode)
}

// The same over a text whose encoding is told.
pub fn check_told(tree: &[u8], text: &[u8], told: Encoding, mode: Mode) -> Answer
    ensures { result ≡ answer_in mode (taken text.now told) tree.now text.now }
{
    in_mode(tree, text, tree::check_told(tree, text, told), mode)
}
