// The check of a flat tree and its text (01, sections 2 and 3).
//
// `check_row` calls itself on child records, with the remaining depth falling from 64. What the walk of records comes to is the
// index behind them, or a refusal.
#![tactic(auto)]

ghost use Rattle.std.specs.Prelude.{◌≡◌, true, [], ◌∷◌, map, ◌+◌, ◌-◌, ◌%◌, ◌≤◌, ◌<◌, replicate};
ghost use Rattle.utf8.specs.Rfc3629.{boundary as boundary'};
ghost use Rattle.spelling.specs.Spelling.{known};
ghost use Rattle.record.specs.Record.{count as count', record_at, mark_ok};
ghost use Rattle.grammar.specs.Kind.{TOKEN as TOKEN'};
ghost use Rattle.grammar.specs.Grammar.{root};
ghost use Rattle.grammar.specs.Classes.{classes_held, class_at, token_at};
ghost use Rattle.grammar.specs.Packed.{kinds_held, rule_of, along, all_held};
ghost use Rattle.tree.specs.declared.Refusal.TheVariants.{Broken as Ill};
ghost use Rattle.tree.specs.Check.{place as at, flags_fit as flags_fit', has_part as has_part', fields_fit as fields_fit', range_fits as range_fits', fits, inside as inside', scan, malformed as malformed', answer_to, Checks, number_of, place_of};
ghost use Rattle.tree.specs.Walk.{refused, Crosses, unpacked as unpacked', Walks, zeros as zeros', kind_fits as kind_fits', part_inside as part_inside', used_fault as used_fault', fault_of, met_at};
ghost use Rattle.tree.specs.Laws.{Counts};
ghost use Rattle.tree.specs.Told.{taken};

use grammar::kind::{LIST, NUMBER, RUN, TEXT, TOKEN};
use grammar::{ROOT, SLOTS, SMALL};
use record::Record;
use utf8::{Broken, Encoding};

// The root is 1 deep, and a record may be this deep.
const DEEPEST: usize = 64;

// No tree and no text is longer.
const LONGEST: usize = 65536;

// Bit 15 of a TOKEN's flags: a value is present. The number is below it.
const PRESENT: u16 = 0x8000;

// One more than the largest small NUMBER.
const SMALL_END: u32 = 256;

// 01's numbers of the refusals, and 02's.
const MALFORMED: u64 = 1;

const TOO_LONG: u64 = 2;

const MARK: u64 = 3;

const MISFIT: u64 = 4;

const OUTSIDE: u64 = 5;

const UNCLOSED: u64 = 9;

const NOT_ROWID: u64 = 10;

const DEEP: u64 = 6;

const ENDS: u64 = 7;

// More than any index.
const REFUSED: u64 = 0x1_0000_0000;

// Why a tree and its text are not admitted.
#[derive(Clone, Copy, PartialEq, Eq)]
pub enum Refusal {
    // The tree is empty, over-long, or no row of whole records.
    Malformed,
    // The text is over-long.
    TooLong,
    // The text is not UTF-8.
    Broken(Broken),
    // At a record: a wrong mark; what may not stand there; a text part outside or in a character.
    Mark(usize),
    Misfit(usize),
    Outside(usize),
    // The same in a mode: a CHECK's source that ends inside a comment or a quote (02, vii).
    Unclosed(usize),
    // The same: a without-rowid text that does not say WITHOUT ROWID (02, viii).
    NotRowid(usize),
    // Again at a record: too deep.
    Deep(usize),
    // A needed record is past the end, or records are left over.
    Ends(usize),
}

impl From<Broken> for Refusal {
    ghost from_gives = { λ b r. r ≡ Ill b };

    fn from(b: Broken) -> Refusal {
        Refusal::Broken(b)
    }
}

// What the check comes to: they are admitted, or a refusal.
pub type Answer = Result<(), Refusal>;

// A tree and its text as they are lent: the tree has few records, and the text begins between characters.
#[derive(Clone, Copy)]
struct Lent<'a> {
    tree: &'a [u8],
    text: &'a [u8],
    ghost few: { count' tree.now < refused },
    ghost begun: { boundary' text.now 0 ≡ true },
}

// Whether a record begins with its mark.
fn marked(r: Record) -> bool
    ensures { result ≡ mark_ok r }
{
    r.mark == record::MARK
}

// Whether a record has a text part: no kind behind TEXT has one.
fn has_part(r: Record) -> bool
    ensures { result ≡ has_part' r }
{
    if TEXT < r.kind {
        return false;
    }
    if r.kind == TOKEN {
        return PRESENT <= r.flags;
    }
    r.kind == TEXT
}

// Whether bytes 8-15 are zero.
fn zeros(r: Record) -> bool
    ensures { result ≡ zeros' r }
{
    (r.start == 0) & (r.len == 0)
}

// Whether bytes 8-15 are zero, a number, or a text part.
fn fields_fit(r: Record) -> bool
    ensures { result ≡ fields_fit' r }
{
    if zeros(r) {
        return true;
    }
    if r.kind == NUMBER {
        return true;
    }
    has_part(r)
}

// Whether a NUMBER is one that its place takes.
fn range_fits(place: u8, r: Record) -> bool
    requires { place < classes_held }
    ensures { result ≡ range_fits' (class_at place) r }
{
    if place == SMALL {
        return (r.start < SMALL_END) & (r.len == 0);
    }
    true
}

// Whether a TOKEN's number is one that a token has.
fn number_known(r: Record) -> bool
    ensures { result ≡ known (r.flags % 0x8000) }
{
    spelling::known(r.flags % PRESENT)
}

// Whether a kind, whose rule this is, defines a record's flags. Most records have none.
fn flags_fit(rule: u16, r: Record) -> bool
    requires { (rule ≡ rule_of r.kind) × (r.kind < kinds_held) }
    ensures { result ≡ flags_fit' r }
{
    if r.flags == 0 {
        return true;
    }
    if r.kind == TOKEN {
        return number_known(r);
    }
    r.flags < rule % SLOTS
}

// Whether a record has as many children as its kind's rule says: a LIST and a RUN may have any number.
fn count_fits(rule: u16, r: Record) -> bool
    requires { (rule ≡ rule_of r.kind) × (r.kind < kinds_held) }
    ensures { Counts r result }
{
    if r.kids == rule / SLOTS {
        return true;
    }
    (r.kind == LIST) | (r.kind == RUN)
}

// Whether a record may stand in a place, by its kind, its children and its flags.
fn kind_fits(place: u8, r: Record) -> bool
    requires { place < classes_held }
    ensures { result ≡ kind_fits' (class_at place) r }
{
    if !((grammar::stands(r.kind) >> place as u64) % 2 == 1) {
        return false;
    }
    let rule = grammar::rule(r.kind);
    if !count_fits(rule, r) {
        return false;
    }
    flags_fit(rule, r)
}

// The same for the place of a TOKEN in a RUN.
fn token_fits(r: Record) -> bool
    ensures { result ≡ kind_fits' (class_at token_at) r }
{
    if r.kind != TOKEN {
        return false;
    }
    if r.kids != 0 {
        return false;
    }
    number_known(r)
}

// Whether a text part lies inside the text and between characters.
fn part_inside(on: &Lent, r: Record) -> bool
    ensures { result ≡ part_inside' on.now.text.now r }
{
    let start = r.start as usize;
    let end = start + r.len as usize;
    if on.text.len() < end {
        return false;
    }
    if !utf8::boundary(on.text, start) {
        return false;
    }
    utf8::boundary(on.text, end)
}

// Whether a record's text part, where it has one, lies so.
fn inside(on: &Lent, r: Record) -> bool
    ensures { result ≡ inside' on.now.text.now r }
{
    if has_part(r) {
        return part_inside(on, r);
    }
    true
}

// The fault in bytes 8-15 of the record at an index, in a place. Most are zero, which is right everywhere.
fn used_fault(on: &Lent, place: u8, r: Record, index: usize) -> Answer
    requires { place < classes_held }
    ensures { result ≡ used_fault' on.now.text.now (class_at place) r index }
{
    if zeros(r) {
        return Ok(());
    }
    if !fields_fit(r) {
        return Err(Refusal::Misfit(index));
    }
    if !range_fits(place, r) {
        return Err(Refusal::Misfit(index));
    }
    if !inside(on, r) {
        return Err(Refusal::Outside(index));
    }
    Ok(())
}

// The same for a TOKEN.
fn token_used(on: &Lent, r: Record, index: usize) -> Answer
    requires { r.kind ≡ TOKEN' }
    ensures { result ≡ used_fault' on.now.text.now (class_at token_at) r index }
{
    if r.flags < PRESENT {
        if zeros(r) {
            return Ok(());
        }
        return Err(Refusal::Misfit(index));
    }
    if !part_inside(on, r) {
        return Err(Refusal::Outside(index));
    }
    Ok(())
}

// The first fault of the record at an index, in a place with this depth left. (That the place is one that there is stands in five contracts: a struct with
// this invariant would be made in check_row alone, of a row's byte and by the same proof, and opened again in each of the five; it is no plainer.)
fn first_fault(on: &Lent, place: u8, left: usize, r: Record, index: usize) -> Answer
    requires { place < classes_held }
    ensures { result ≡ fault_of on.now.text.now r index left (fits (class_at place) r) }
{
    if !marked(r) {
        return Err(Refusal::Mark(index));
    }
    if !kind_fits(place, r) {
        return Err(Refusal::Misfit(index));
    }
    used_fault(on, place, r, index)?;
    if left == 0 {
        return Err(Refusal::Deep(index));
    }
    Ok(())
}

// The same for a TOKEN of a RUN. (One function for both would take both tests as closures, and its contract would say what each of them answers;
// that is no plainer than four tests twice.)
fn token_fault(on: &Lent, left: usize, r: Record, index: usize) -> Answer
    ensures { result ≡ fault_of on.now.text.now r index left (fits (class_at token_at) r) }
{
    if !marked(r) {
        return Err(Refusal::Mark(index));
    }
    if !token_fits(r) {
        return Err(Refusal::Misfit(index));
    }
    token_used(on, r, index)?;
    if left == 0 {
        return Err(Refusal::Deep(index));
    }
    Ok(())
}

// An answer's number in 01's table.
pub fn number(a: Answer) -> u64
    ensures { result ≡ number_of a }
{
    match a {
        Ok(()) => 0,
        Err(Refusal::Malformed) => MALFORMED,
        Err(Refusal::TooLong) => TOO_LONG,
        Err(Refusal::Broken(b)) => utf8::number(Err(b)),
        Err(Refusal::Mark(_)) => MARK,
        Err(Refusal::Misfit(_)) => MISFIT,
        Err(Refusal::Outside(_)) => OUTSIDE,
        Err(Refusal::Unclosed(_)) => UNCLOSED,
        Err(Refusal::NotRowid(_)) => NOT_ROWID,
        Err(Refusal::Deep(_)) => DEEP,
        Err(Refusal::Ends(_)) => ENDS,
    }
}

// An answer's place in 01's table.
pub fn place(a: Answer) -> usize
    ensures { result ≡ place_of a }
{
    match a {
        Ok(()) => 0,
        Err(Refusal::Malformed) => 0,
        Err(Refusal::TooLong) => LONGEST,
        Err(Refusal::Broken(b)) => utf8::place(Err(b)),
        Err(Refusal::Mark(i)) => i,
        Err(Refusal::Misfit(i)) => i,
        Err(Refusal::Outside(i)) => i,
        Err(Refusal::Unclosed(i)) => i,
        Err(Refusal::NotRowid(i)) => i,
        Err(Refusal::Deep(i)) => i,
        Err(Refusal::Ends(i)) => i,
    }
}

// What a walk comes to, as one number: an index, or from REFUSED on a refusal, its number times this and its index.
fn packed(w: Result<usize, Refusal>) -> u64
    requires { Crosses w }
    ensures { unpacked' result ≡ w }
{
    match w {
        Ok(index) => index as u64,
        Err(refusal) => number(Err(refusal)) * REFUSED + place(Err(refusal)) as u64,
    }
}

// What a walk comes to that is this number.
fn unpacked(w: u64) -> Result<usize, Refusal>
    ensures { result ≡ unpacked' w }
{
    if w < REFUSED {
        return Ok(w as usize);
    }
    let number = w / REFUSED;
    let index = (w % REFUSED) as usize;
    if number == MARK {
        return Err(Refusal::Mark(index));
    }
    if number == MISFIT {
        return Err(Refusal::Misfit(index));
    }
    if number == OUTSIDE {
        return Err(Refusal::Outside(index));
    }
    if number == DEEP {
        return Err(Refusal::Deep(index));
    }
    Err(Refusal::Ends(index))
}

// The TOKENs of a RUN, one behind the other: they have no children.
fn check_tokens(on: &Lent, index: usize, left: usize, n: u16) -> Result<usize, Refusal>
    requires { (index ≤ count' on.now.tree.now) × (left ≤ 64) }
    ensures { Walks on.now.tree.now on.now.text.now index (map (at (65 - left)) (replicate n (class_at token_at))) result }
{
    let mut next = index;
    for _token in 0..n {
        if record::count(on.tree) <= next {
            return Err(Refusal::Ends(next));
        }
        token_fault(on, left, record::read(on.tree, next), next)?;
        next += 1;
    }
    Ok(next)
}

// Whether the record r at an index is refused, in a place with this depth left.
fn refused_at(on: &Lent, index: usize, place: u8, left: usize, r: Record) -> Answer
    requires { place < classes_held }
    ensures { result ≡ met_at on.now.tree.now on.now.text.now r index left (class_at place) }
{
    if record::count(on.tree) <= index {
        return Err(Refusal::Ends(index));
    }
    first_fault(on, place, left, r, index)
}

// The first n children of a row of places, one behind the other, and all below each.
#[cycle(check_row)]
fn check_row(on: &Lent, index: usize, row: u64, left: usize, n: u16) -> Result<usize, Refusal>
    requires { (index ≤ count' on.now.tree.now) × ((left ≤ 64) × (all_held row n ≡ true)) }
    ensures { Walks on.now.tree.now on.now.text.now index (map (at (65 - left)) (along row n)) result }
{
    let mut next = index;
    let mut places = row;
    for _child in 0..n {
        let place = grammar::first(places);
        let r = record::read(on.tree, next);
        refused_at(on, next, place, left, r)?;
        next += 1;
        if r.kids != 0 {
            if r.kind == RUN {
                next = check_tokens(on, next, left - 1, r.kids)?;
            } else {
                let below = grammar::row(place, r.kind);
                next = unpacked(row_below(on, next, below, left - 1, r.kids))?;
            }
        }
        places = grammar::turned(places);
    }
    Ok(next)
}

// The same as one number. A call hands a number back in a register and a Result in memory: with a Result here the check of the schema takes
// 1,199,000 instructions, and so it takes 1,101,000.
#[cycle(check_row)]
fn row_below(on: &Lent, index: usize, row: u64, left: usize, n: u16) -> u64
    requires { (index ≤ count' on.now.tree.now) × ((left ≤ 64) × (all_held row n ≡ true)) }
    ensures { Walks on.now.tree.now on.now.text.now index (map (at (65 - left)) (along row n)) (unpacked' result) }
{
    packed(check_row(on, index, row, left, n))
}

// Whether a tree is empty, over-long, or no row of whole records.
fn malformed(tree: &[u8]) -> bool
    ensures { result ≡ malformed' tree.now }
{
    let n = tree.len();
    (n == 0) | ((LONGEST < n) | !(n % record::SIZE == 0))
}

// The records of a tree, from the root on: the root is alone in its row, and none is left over behind it.
fn check_records(on: &Lent) -> Answer
    ensures { result ≡ scan on.now.tree.now on.now.text.now (count' on.now.tree.now) 0 (at 1 root ∷ []) }
{
    let end = unpacked(row_below(on, 0, ROOT as u64, DEEPEST, 1))?;
    if end < record::count(on.tree) {
        return Err(Refusal::Ends(end));
    }
    Ok(())
}

// The check of a tree over a text whose encoding is told: the first fitting refusal, or that they are admitted. That a text is valid is not taken where
// it begins inside a character.
pub fn check_told(tree: &[u8], text: &[u8], told: Encoding) -> Answer
    ensures { result ≡ answer_to (taken text.now told) tree.now text.now }
{
    if malformed(tree) {
        return Err(Refusal::Malformed);
    }
    if LONGEST < text.len() {
        return Err(Refusal::TooLong);
    }
    told?;
    if !utf8::boundary(text, 0) {
        return Err(Refusal::Broken(Broken::Bad(0)));
    }
    check_records(&Lent { tree, text })
}

// The check of a tree and its text. The text is not looked at where 1 or its length comes first.
pub fn check(tree: &[u8], text: &[u8]) -> Answer
    ensures { Checks tree.now text.now result }
{
    if malformed(tree) | (LONGEST < text.len()) {
        return check_told(tree, text, Ok(()));
    }
    check_told(tree, text, utf8::check(text))
}
