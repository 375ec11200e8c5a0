// The grammar of the flat tree (01, section 2) in numbers: which kinds may stand where, and what each kind holds.
//
// A place is named by its number. Each table is a `match`, a line for each place or kind: it is looked up where it lies, and
// never made. Its last line is never reached; its number is one that no other line has, which keeps the look-up a single load.
#![tactic(auto)]

pub mod kind;

ghost use Rattle.std.specs.Prelude.{◌≡◌, ◌%◌, ◌<◌};
ghost use Rattle.grammar.specs.Classes.{classes_held};
ghost use Rattle.grammar.specs.Packed.{kinds_held, stands_of, element_of, rule_of, places_of, row_of, turn};

// The places that the check names itself: the root, and a NUMBER up to 255.
pub const ROOT: u8 = 1;

pub const SMALL: u8 = 4;

// In a kind's rule, the weight of the number of its slots; below it stands the number that its flags are below.
pub const SLOTS: u16 = 0x100;

// How many places there are, and the first number past all kinds.
const PLACES: u8 = 51;

const KINDS_HELD: u16 = 121;

// The place where nothing may stand; the places where what is no kind may stand; its rule: no flags and no slots; and its row.
const NOWHERE: u8 = 0;

const NONE_OF_THEM: u64 = 0;

const BARE: u16 = 1;

const NO_ROW: u64 = 0;

// A row of places is a number, a byte for each child, the first child's the lowest. It goes round: behind the eighth comes the first. With an array of
// eight places, looked up by the child, the check of the schema takes 1,139,000 instructions, and with the number 1,101,000.
const BYTE: u64 = 0x100;

// The weight of the highest byte.
const TOP: u64 = 0x100_0000_0000_0000;

// A one in each byte.
const EACH: u64 = 0x101_0101_0101_0101;

// The places where a kind that there is may stand, a bit for each.
fn stands_held(kind: u16) -> u64
    requires { kind < kinds_held }
    ensures { result ≡ stands_of kind }
{
    match kind {
        0 => 0x600304021c100,
        1 => 0x2a8615080602,
        2 => 0x8,
        3 => 0x1d569ead5f9e6,
        4 => 0x6001000020000,
        5 => 0x200010,
        6 => 0x0,
        7 => 0x0,
        8 => 0x0,
        9 => 0x0,
        10 => 0x2,
        11 => 0x0,
        12 => 0x0,
        13 => 0x0,
        14 => 0x0,
        15 => 0x0,
        16 => 0x0,
        17 => 0x0,
        18 => 0x0,
        19 => 0x0,
        20 => 0x0,
        21 => 0x0,
        22 => 0x0,
        23 => 0x0,
        24 => 0x0,
        25 => 0x0,
        26 => 0x0,
        27 => 0x0,
        28 => 0x0,
        29 => 0x0,
        30 => 0x0,
        31 => 0x0,
        32 => 0x26,
        33 => 0x26,
        34 => 0x26,
        35 => 0x26,
        36 => 0x26,
        37 => 0x26,
        38 => 0x26,
        39 => 0x26,
        40 => 0x26,
        41 => 0x26,
        42 => 0x26,
        43 => 0x26,
        44 => 0x26,
        45 => 0x26,
        46 => 0x26,
        47 => 0x26,
        48 => 0x26,
        49 => 0x26,
        50 => 0x26,
        51 => 0x26,
        52 => 0x26,
        53 => 0x26,
        54 => 0x26,
        55 => 0x26,
        56 => 0x26,
        57 => 0x26,
        58 => 0x26,
        59 => 0x26,
        60 => 0x26,
        61 => 0x26,
        62 => 0x26,
        63 => 0x26,
        64 => 0x26,
        65 => 0x0,
        66 => 0x0,
        67 => 0x0,
        68 => 0x0,
        69 => 0x0,
        70 => 0x0,
        71 => 0x0,
        72 => 0x0,
        73 => 0x0,
        74 => 0x0,
        75 => 0x0,
        76 => 0x0,
        77 => 0x0,
        78 => 0x0,
        79 => 0x0,
        80 => 0x2006,
        81 => 0x400006,
        82 => 0x2000006,
        83 => 0x800006,
        84 => 0x800006,
        85 => 0x80010006,
        86 => 0x20000006,
        87 => 0x8000006,
        88 => 0x8000006,
        89 => 0x8000006,
        90 => 0x8000006,
        91 => 0x40000006,
        92 => 0x40000006,
        93 => 0x86,
        94 => 0x86,
        95 => 0x86,
        96 => 0x86,
        97 => 0x86,
        98 => 0x1006,
        99 => 0x1006,
        100 => 0x100000006,
        101 => 0x1000000000006,
        102 => 0x1000000000006,
        103 => 0x1000000000006,
        104 => 0x1000000000006,
        105 => 0x4000000006,
        106 => 0x10000000006,
        107 => 0x802000000006,
        108 => 0x6,
        109 => 0x6,
        110 => 0x4006,
        111 => 0x40006,
        112 => 0x40006,
        113 => 0x40006,
        114 => 0x40000000006,
        115 => 0x100000000006,
        116 => 0x400000000006,
        117 => 0x100006,
        118 => 0x806,
        119 => 0x8000,
        120 => 0x800000006,
        _ => 0xffffffffffffffff,
    }
}

// The places where a kind may stand, a bit for each.
pub fn stands(kind: u16) -> u64
    ensures { result ≡ stands_of kind }
{
    if KINDS_HELD <= kind {
        return NONE_OF_THEM;
    }
    stands_held(kind)
}

// The place of each element, where a LIST stands in a place that there is.
fn element_held(place: u8) -> u8
    requires { place < classes_held }
    ensures { result ≡ element_of place }
{
    match place {
        0 => 0,
        1 => 2,
        2 => 0,
        3 => 0,
        4 => 0,
        5 => 0,
        6 => 0,
        7 => 0,
        8 => 0,
        9 => 6,
        10 => 11,
        11 => 0,
        12 => 0,
        13 => 0,
        14 => 0,
        15 => 0,
        16 => 0,
        17 => 0,
        18 => 0,
        19 => 20,
        20 => 0,
        21 => 0,
        22 => 0,
        23 => 0,
        24 => 25,
        25 => 0,
        26 => 9,
        27 => 0,
        28 => 29,
        29 => 0,
        30 => 0,
        31 => 0,
        32 => 0,
        33 => 32,
        34 => 35,
        35 => 0,
        36 => 0,
        37 => 0,
        38 => 0,
        39 => 40,
        40 => 0,
        41 => 42,
        42 => 0,
        43 => 44,
        44 => 0,
        45 => 46,
        46 => 0,
        47 => 0,
        48 => 0,
        49 => 0,
        50 => 0,
        _ => 255,
    }
}

// The place of each element, where a LIST stands in a place.
fn element(place: u8) -> u8
    ensures { result ≡ element_of place }
{
    if PLACES <= place {
        return NOWHERE;
    }
    element_held(place)
}

// A kind's rule: the number that its flags are below, and from SLOTS on how many slots it has. The kind is one that there is.
fn rule_held(kind: u16) -> u16
    requires { kind < kinds_held }
    ensures { result ≡ rule_of kind }
{
    match kind {
        0 => 0x001,
        1 => 0x001,
        2 => 0x001,
        3 => 0x001,
        4 => 0x001,
        5 => 0x001,
        6 => 0x001,
        7 => 0x001,
        8 => 0x001,
        9 => 0x001,
        10 => 0x104,
        11 => 0x001,
        12 => 0x001,
        13 => 0x001,
        14 => 0x001,
        15 => 0x001,
        16 => 0x001,
        17 => 0x001,
        18 => 0x001,
        19 => 0x001,
        20 => 0x001,
        21 => 0x001,
        22 => 0x001,
        23 => 0x001,
        24 => 0x001,
        25 => 0x001,
        26 => 0x001,
        27 => 0x001,
        28 => 0x001,
        29 => 0x001,
        30 => 0x001,
        31 => 0x001,
        32 => 0x201,
        33 => 0x101,
        34 => 0x301,
        35 => 0x201,
        36 => 0x101,
        37 => 0x604,
        38 => 0x204,
        39 => 0x608,
        40 => 0x304,
        41 => 0x302,
        42 => 0x302,
        43 => 0x501,
        44 => 0x101,
        45 => 0x102,
        46 => 0x102,
        47 => 0x102,
        48 => 0x102,
        49 => 0x601,
        50 => 0x201,
        51 => 0x101,
        52 => 0x101,
        53 => 0x101,
        54 => 0x201,
        55 => 0x101,
        56 => 0x101,
        57 => 0x801,
        58 => 0x201,
        59 => 0x202,
        60 => 0x404,
        61 => 0x102,
        62 => 0x504,
        63 => 0x102,
        64 => 0x102,
        65 => 0x001,
        66 => 0x001,
        67 => 0x001,
        68 => 0x001,
        69 => 0x001,
        70 => 0x001,
        71 => 0x001,
        72 => 0x001,
        73 => 0x001,
        74 => 0x001,
        75 => 0x001,
        76 => 0x001,
        77 => 0x001,
        78 => 0x001,
        79 => 0x001,
        80 => 0x401,
        81 => 0x201,
        82 => 0x201,
        83 => 0x601,
        84 => 0x101,
        85 => 0x201,
        86 => 0x301,
        87 => 0x301,
        88 => 0x301,
        89 => 0x201,
        90 => 0x201,
        91 => 0x101,
        92 => 0x101,
        93 => 0x101,
        94 => 0x101,
        95 => 0x201,
        96 => 0x201,
        97 => 0x101,
        98 => 0x401,
        99 => 0x101,
        100 => 0x301,
        101 => 0x202,
        102 => 0x201,
        103 => 0x201,
        104 => 0x301,
        105 => 0x301,
        106 => 0x303,
        107 => 0x301,
        108 => 0x201,
        109 => 0x001,
        110 => 0x201,
        111 => 0x101,
        112 => 0x101,
        113 => 0x601,
        114 => 0x201,
        115 => 0x201,
        116 => 0x201,
        117 => 0x201,
        118 => 0x201,
        119 => 0x001,
        120 => 0x201,
        _ => 0xffff,
    }
}

// A kind's rule: the number that its flags are below, and from SLOTS on how many slots it has.
pub fn rule(kind: u16) -> u16
    ensures { result ≡ rule_of kind }
{
    if KINDS_HELD <= kind {
        return BARE;
    }
    rule_held(kind)
}

// The row of the slots of a kind that there is.
fn places_held(kind: u16) -> u64
    requires { kind < kinds_held }
    ensures { result ≡ places_of kind }
{
    match kind {
        0 => 0x0,
        1 => 0x0,
        2 => 0x0,
        3 => 0x0,
        4 => 0x0,
        5 => 0x0,
        6 => 0x0,
        7 => 0x0,
        8 => 0x0,
        9 => 0x0,
        10 => 0x5,
        11 => 0x0,
        12 => 0x0,
        13 => 0x0,
        14 => 0x0,
        15 => 0x0,
        16 => 0x0,
        17 => 0x0,
        18 => 0x0,
        19 => 0x0,
        20 => 0x0,
        21 => 0x0,
        22 => 0x0,
        23 => 0x0,
        24 => 0x0,
        25 => 0x0,
        26 => 0x0,
        27 => 0x0,
        28 => 0x0,
        29 => 0x0,
        30 => 0x0,
        31 => 0x0,
        32 => 0x706,
        33 => 0x8,
        34 => 0x80606,
        35 => 0x808,
        36 => 0x8,
        37 => 0x80a09080606,
        38 => 0xc06,
        39 => 0x90806060806,
        40 => 0xd0906,
        41 => 0xd0906,
        42 => 0x90606,
        43 => 0x90808060e,
        44 => 0x6,
        45 => 0x6,
        46 => 0x6,
        47 => 0x6,
        48 => 0x6,
        49 => 0x90609060f0e,
        50 => 0x806,
        51 => 0x8,
        52 => 0x8,
        53 => 0x6,
        54 => 0x808,
        55 => 0x6,
        56 => 0xd,
        57 => 0x90810090806080e,
        58 => 0x808,
        59 => 0x1211,
        60 => 0x13081111,
        61 => 0x11,
        62 => 0x1515151506,
        63 => 0x6,
        64 => 0x11,
        65 => 0x0,
        66 => 0x0,
        67 => 0x0,
        68 => 0x0,
        69 => 0x0,
        70 => 0x0,
        71 => 0x0,
        72 => 0x0,
        73 => 0x0,
        74 => 0x0,
        75 => 0x0,
        76 => 0x0,
        77 => 0x0,
        78 => 0x0,
        79 => 0x0,
        80 => 0x808160e,
        81 => 0x1817,
        82 => 0x1706,
        83 => 0x90808100908,
        84 => 0x1a,
        85 => 0x1c1b,
        86 => 0x1e1b06,
        87 => 0x80806,
        88 => 0x80906,
        89 => 0x80d,
        90 => 0x81f,
        91 => 0x6,
        92 => 0x9,
        93 => 0x6,
        94 => 0x20,
        95 => 0x2006,
        96 => 0x606,
        97 => 0x6,
        98 => 0x24322221,
        99 => 0xd,
        100 => 0x92506,
        101 => 0x809,
        102 => 0x809,
        103 => 0x3106,
        104 => 0x82609,
        105 => 0x90906,
        106 => 0xd0906,
        107 => 0x40811,
        108 => 0x809,
        109 => 0x0,
        110 => 0x2706,
        111 => 0x29,
        112 => 0x29,
        113 => 0x82d0808112b,
        114 => 0x2f06,
        115 => 0x2411,
        116 => 0x2411,
        117 => 0x624,
        118 => 0x606,
        119 => 0x0,
        120 => 0x3008,
        _ => 0xffffffffffffffff,
    }
}

// The row of a kind's slots.
fn places(kind: u16) -> u64
    ensures { result ≡ places_of kind }
{
    if KINDS_HELD <= kind {
        return NO_ROW;
    }
    places_held(kind)
}

// The row of the children of a kind that stands in a place: a LIST's elements all stand in the same one, and any other kind has slots.
pub fn row(place: u8, kind: u16) -> u64
    ensures { result ≡ row_of place kind }
{
    if kind == kind::LIST {
        return element(place) as u64 * EACH;
    }
    places(kind)
}

// The place of a row's first child.
pub fn first(row: u64) -> u8
    ensures { result ≡ row % 256 }
{
    (row % BYTE) as u8
}

// A row from its second child on.
pub fn turned(row: u64) -> u64
    ensures { result ≡ turn row }
{
    row / BYTE + row % BYTE * TOP
}
