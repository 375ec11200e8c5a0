// The records of a tree (01, section 2): sixteen bytes each, their numbers little-endian.
#![tactic(auto)]

ghost use Rattle.std.specs.Prelude.{◌≡◌, ◌+◌, ◌≤◌, length};
ghost use Rattle.record.specs.Record.{record_of, count as count', record_at as record_at', number_of};
ghost use Rattle.record.specs.Laws.{sixteen};

// The mark that opens a record, the bytes 53 4E.
pub const MARK: u16 = 0x4E53;

// How many bytes a record has.
pub const SIZE: usize = 16;

// The weight of the second of two words.
const WORD: u64 = 0x1_0000_0000;

// A record's numbers; in a NUMBER, `start` and `len` are the low and the high half of its number.
#[derive(Clone, Copy, PartialEq, Eq, Default)]
pub struct Record {
    pub mark: u16,
    pub kind: u16,
    pub flags: u16,
    pub kids: u16,
    pub start: u32,
    pub len: u32,
}

// How many whole records a tree has.
pub fn count(tree: &[u8]) -> usize
    ensures { result ≡ count' tree.now }
{
    tree.len() / SIZE
}

// The record whose bytes stand from a place on.
fn record_at(tree: &[u8], at: usize) -> Record
    requires { at + 16 ≤ length tree.now }
    ensures { result ≡ record_of (sixteen tree.now at) }
{
    Record {
        mark: u16::from_le_bytes([tree[at], tree[at + 1]]),
        kind: u16::from_le_bytes([tree[at + 2], tree[at + 3]]),
        flags: u16::from_le_bytes([tree[at + 4], tree[at + 5]]),
        kids: u16::from_le_bytes([tree[at + 6], tree[at + 7]]),
        start: u32::from_le_bytes([tree[at + 8], tree[at + 9], tree[at + 10], tree[at + 11]]),
        len: u32::from_le_bytes([tree[at + 12], tree[at + 13], tree[at + 14], tree[at + 15]]),
    }
}

// The record at an index of a tree; past the last whole one, zeros.
pub fn read(tree: &[u8], index: usize) -> Record
    ensures { result ≡ record_at' tree.now index }
{
    if index < count(tree) {
        return record_at(tree, index * SIZE);
    }
    Record::default()
}

// The number of a NUMBER, which has a sign.
pub fn number(r: Record) -> i64
    ensures { result ≡ number_of r }
{
    (u64::from(r.start) + u64::from(r.len) * WORD).cast_signed()
}
