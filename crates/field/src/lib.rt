// The field profile (02, xi): measure first, and then, of a tree that it admits, the first record that breaks the profile.
//
// The records are walked once more, on child records, with the remaining depth falling from 24. What the walk knows of a place is whether it
// takes a ported node, and of a LIST's place whether its elements do: a kind's places are a number, a byte for each child.
#![tactic(auto)]

ghost use Rattle.std.specs.Prelude.{◌≡◌, ◌≤◌, ◌<◌};
ghost use Rattle.laws.specs.Among.{among};
ghost use Rattle.record.specs.Record.{record_at};
ghost use Rattle.field.specs.declared.Refusal.TheVariants.{Measure};
ghost use Rattle.field.specs.Profile.{five, foreign as foreign', ProfilesIn, number_of, place_of};
ghost use Rattle.field.specs.Nodes.{nodes_of as nodes_of', nodes_below as nodes_below', breaks_by};
ghost use Rattle.field.specs.Walk.{Led, Finds};

use grammar::kind;
use mode::Mode;
use record::Record;

// 02's number of a tree that breaks the profile.
const UNFIT: u64 = 11;

// A record may be this deep, the root being 1.
const DEEPEST: usize = 24;

// The flags of a Cmd that is neither of the two kinds of EXPLAIN.
const PLAIN: u16 = 0;

// A place is a byte: its lowest bit says that it takes a ported node, and half of it is the place of a LIST's elements.
const BYTE: u64 = 0x100;

const BIT: u64 = 2;

// A one in each byte.
const EACH: u64 = 0x101_0101_0101_0101;

// The root takes a ported node, and a LIST of them.
const ROOT: u64 = 3;

// The places of a kind that holds no ported node.
const NONE_HELD: u64 = 0;

// Why a tree is refused.
#[derive(Clone, Copy, PartialEq, Eq)]
pub enum Refusal {
    // Measure refuses.
    Measure(render::Refusal),
    // Measure admits the tree, and this record breaks the profile.
    Unfit(usize),
}

impl From<render::Refusal> for Refusal {
    ghost from_gives = { λ r v. v ≡ Measure r };

    fn from(r: render::Refusal) -> Refusal {
        Refusal::Measure(r)
    }
}

// What the profile comes to: the length that measure answers, or a refusal.
pub type Verdict = Result<usize, Refusal>;

// A verdict's number in the table of refusals.
pub fn number(v: Verdict) -> u64
    ensures { result ≡ number_of v }
{
    match v {
        Ok(_) => 0,
        Err(Refusal::Measure(r)) => render::number(Err(r)),
        Err(Refusal::Unfit(_)) => UNFIT,
    }
}

// A verdict's place in the table of refusals.
pub fn place(v: Verdict) -> usize
    ensures { result ≡ place_of v }
{
    match v {
        Ok(n) => n,
        Err(Refusal::Measure(r)) => render::place(Err(r)),
        Err(Refusal::Unfit(i)) => i,
    }
}

// Whether a kind is one of the five statements.
fn of_the_five(k: u16) -> bool
    ensures { result ≡ among k five }
{
    matches!(
        k,
        kind::CREATE_TABLE
            | kind::CREATE_INDEX
            | kind::DROP_TABLE
            | kind::DROP_INDEX
            | kind::ALTER_TABLE
    )
}

// Whether record 0 is none of the five and no plain Cmd, or record 1 below a Cmd none of the five.
fn foreign(tree: &[u8], index: usize, r: Record) -> bool
    requires { r ≡ record_at tree.now index }
    ensures { result ≡ foreign' tree.now index }
{
    if 1 < index {
        return false;
    }
    let stranger = !of_the_five(r.kind);
    if index == 0 {
        return stranger & !((r.kind == kind::CMD) & (r.flags == PLAIN));
    }
    stranger & (record::read(tree, 0).kind == kind::CMD)
}

// Whether the record r at an index breaks the profile, in a place with this depth left.
fn breaks(tree: &[u8], index: usize, r: Record, place: u64, left: usize) -> bool
    requires { r ≡ record_at tree.now index }
    ensures { result ≡ breaks_by tree.now index place left }
{
    if left == 0 {
        return true;
    }
    if (r.kind == kind::RUN) & (place % BIT == 1) {
        return true;
    }
    foreign(tree, index, r)
}

// The places of a kind's children.
fn nodes_of(k: u16) -> u64
    ensures { result ≡ nodes_of' k }
{
    match k {
        kind::CMD => 0x1,
        kind::ALTER_TABLE => 0x100,
        kind::CREATE_INDEX => 0x2_0000_0000,
        kind::CREATE_TABLE => 0x100,
        kind::CREATE_VIEW => 0x1_0000,
        kind::CREATE_MATERIALIZED_VIEW => 0x1_0000,
        kind::DELETE => 0x1,
        kind::INSERT => 0x101,
        kind::SELECT_STMT => 0x1,
        kind::UPDATE => 0x100_0000_0001,
        kind::CREATE_TYPE => 0x100,
        kind::CREATE_DOMAIN => 0x200_0000,
        kind::SELECT => 0x101,
        kind::SELECT_BODY => 0x201,
        kind::COMPOUND_SELECT => 0x100,
        kind::ONE_SELECT => 0x1_0000,
        kind::FROM_CLAUSE => 0x201,
        kind::JOINED_TABLE => 0x1_0100,
        kind::TABLE_SELECT => 0x1,
        kind::SUB => 0x1,
        kind::ADD_COLUMN => 0x1,
        kind::ALTER_COLUMN => 0x100,
        kind::COLUMNS_AND_CONSTRAINTS => 0x202,
        kind::AS_SELECT => 0x1,
        kind::COLUMN_DEFINITION => 0x100,
        kind::FOREIGN_KEY => 0x100,
        kind::COMMON_TABLE_EXPR => 0x1_0000,
        kind::WITH => 0x200,
        kind::STRUCT => 0x2,
        kind::UNION => 0x2,
        kind::CUSTOM_TYPE => 0x2_0000_0002,
        kind::TYPE_FIELD => 0x100,
        kind::NAMED_TABLE_CONSTRAINT => 0x100,
        _ => NONE_HELD,
    }
}

// The places of the children of a kind that stands in a place: a LIST's elements all stand in the same one.
fn nodes_below(place: u64, k: u16) -> u64
    requires { place < 256 }
    ensures { result ≡ nodes_below' place k }
{
    if k == kind::LIST {
        return place / BIT * EACH;
    }
    nodes_of(k)
}

// The index behind n children in these places and all below each; or the first record among them that breaks the profile.
fn profile_row(tree: &[u8], index: usize, nodes: u64, left: usize, n: u16) -> Result<usize, usize>
    requires { (left ≤ 24) × Led tree.now index left nodes n }
    ensures { Finds tree.now index left nodes n result }
{
    let mut next = index;
    let mut row = nodes;
    for _child in 0..n {
        let place = row % BYTE;
        let r = record::read(tree, next);
        if breaks(tree, next, r, place, left) {
            return Err(next);
        }
        next += 1;
        if r.kids != 0 {
            next = profile_row(tree, next, nodes_below(place, r.kind), left - 1, r.kids)?;
        }
        row = grammar::turned(row);
    }
    Ok(next)
}

// Measure's refusal; else the first record that breaks the profile, and where none does, the length that measure answers.
pub fn profile(mode: Mode, tree: &[u8], text: &[u8]) -> Verdict
    ensures { ProfilesIn mode tree.now text.now result }
{
    let length = render::measure(mode, tree, text)?;
    match profile_row(tree, 0, ROOT, DEEPEST, 1) {
        Ok(_) => Ok(length),
        Err(i) => Err(Refusal::Unfit(i)),
    }
}
