// The spelling table (01, section 1): what each token number is spelled as, and which numbers a token has.
//
// It has a row for each token number, an offset and a length, and a pool of bytes. The pool is made once, by `pool`, and
// lent to whoever looks a spelling up.
#![tactic(auto)]

pub mod token;

ghost use Rattle.std.specs.Prelude.{◌≡◌, ◌/◌, ◌%◌};
ghost use Rattle.spelling.specs.Spelling.{known as known'};
ghost use Rattle.spelling.specs.Table.{bytes as bytes', row_of, spelling_in, within, lengths};

// A row is an offset into the pool times this number, and a length, which is below it.
const LENGTHS: usize = 16;

// The spellings, one behind the other, in the order of the rows.
const POOL: [u8; 824] = *b"\
;EXPLAINQUERYPLANBEGINTRANSACTIONDEFERREDIMMEDIATEEXCLUSIVECOMMITENDROLLBACKSAVEPOINTRELEASETO\
TABLECREATEIFNOTEXISTSTEMP()AS,WITHOUTABORTACTIONAFTERANALYZEASCATTACHBEFOREBYCASCADECAST\
CONFLICTDATABASEDESCDETACHEACHFAILORANDISMATCHBETWEENINISNULLNOTNULL!==><=<>=ESCAPECOLUMNDOFOR\
IGNOREINITIALLYINSTEADNOKEYOFOFFSETPRAGMARAISERECURSIVEREPLACERESTRICTROWROWSTRIGGERVACUUMVIEW\
VIRTUALWITHNULLSFIRSTLASTCURRENTFOLLOWINGPARTITIONPRECEDINGRANGEUNBOUNDEDEXCLUDEGROUPSOTHERSTIES\
GENERATEDALWAYSMATERIALIZEDREINDEXRENAME&|<<>>+-*/%||COLLATE~ONINDEXEDCONSTRAINTDEFAULTNULL\
PRIMARYUNIQUECHECKREFERENCESAUTOINCREMENTINSERTDELETEUPDATESETDEFERRABLEFOREIGNDROPUNIONALL\
EXCEPTINTERSECTSELECTVALUESDISTINCT.FROMJOINUSINGORDERGROUPHAVINGLIMITWHERERETURNINGINTONOTHING\
CASEWHENTHENELSEINDEXALTERADDWINDOWOVERFILTERWITHINCONCURRENTOPTIMIZETYPE[]:@>&&";

// The pool, to be made once and lent.
pub fn pool() -> [u8; 824]
    ensures { result ≡ bytes' }
{
    POOL
}

// The row of a token number, in the order of token.rs: where its spelling stands in the pool and, in the last hex digit,
// how long it is; length 0 is no fixed spelling.
pub fn row(number: u16) -> u16
    ensures { result ≡ row_of number }
{
    match number {
        token::TK_EOF => 0x0000,
        token::TK_SEMI => 0x0001,
        token::TK_EXPLAIN => 0x0017,
        token::TK_QUERY => 0x0085,
        token::TK_PLAN => 0x00d4,
        token::TK_BEGIN => 0x0115,
        token::TK_TRANSACTION => 0x016b,
        token::TK_DEFERRED => 0x0218,
        token::TK_IMMEDIATE => 0x0299,
        token::TK_EXCLUSIVE => 0x0329,
        token::TK_COMMIT => 0x03b6,
        token::TK_END => 0x0413,
        token::TK_ROLLBACK => 0x0448,
        token::TK_SAVEPOINT => 0x04c9,
        token::TK_RELEASE => 0x0557,
        token::TK_TO => 0x05c2,
        token::TK_TABLE => 0x05e5,
        token::TK_CREATE => 0x0636,
        token::TK_IF => 0x0692,
        token::TK_NOT => 0x06b3,
        token::TK_EXISTS => 0x06e6,
        token::TK_TEMP => 0x0744,
        token::TK_LP => 0x0781,
        token::TK_RP => 0x0791,
        token::TK_AS => 0x07a2,
        token::TK_COMMA => 0x07c1,
        token::TK_WITHOUT => 0x07d7,
        token::TK_ABORT => 0x0845,
        token::TK_ACTION => 0x0896,
        token::TK_AFTER => 0x08f5,
        token::TK_ANALYZE => 0x0947,
        token::TK_ASC => 0x09b3,
        token::TK_ATTACH => 0x09e6,
        token::TK_BEFORE => 0x0a46,
        token::TK_BY => 0x0aa2,
        token::TK_CASCADE => 0x0ac7,
        token::TK_CAST => 0x0b34,
        token::TK_CONFLICT => 0x0b78,
        token::TK_DATABASE => 0x0bf8,
        token::TK_DESC => 0x0c74,
        token::TK_DETACH => 0x0cb6,
        token::TK_EACH => 0x0d14,
        token::TK_FAIL => 0x0d54,
        token::TK_OR => 0x0d92,
        token::TK_AND => 0x0db3,
        token::TK_IS => 0x0de2,
        token::TK_ISNOT => 0x0e00,
        token::TK_MATCH => 0x0e05,
        token::TK_LIKE_KW => 0x0e50,
        token::TK_BETWEEN => 0x0e57,
        token::TK_IN => 0x0ec2,
        token::TK_ISNULL => 0x0ee6,
        token::TK_NOTNULL => 0x0f47,
        token::TK_NE => 0x0fb2,
        token::TK_EQ => 0x0fd1,
        token::TK_GT => 0x0fe1,
        token::TK_LE => 0x0ff2,
        token::TK_LT => 0x1011,
        token::TK_GE => 0x1022,
        token::TK_ESCAPE => 0x1046,
        token::TK_ID => 0x10a0,
        token::TK_COLUMNKW => 0x10a6,
        token::TK_DO => 0x1102,
        token::TK_FOR => 0x1123,
        token::TK_IGNORE => 0x1156,
        token::TK_INITIALLY => 0x11b9,
        token::TK_INSTEAD => 0x1247,
        token::TK_NO => 0x12b2,
        token::TK_KEY => 0x12d3,
        token::TK_OF => 0x1302,
        token::TK_OFFSET => 0x1326,
        token::TK_PRAGMA => 0x1386,
        token::TK_RAISE => 0x13e5,
        token::TK_RECURSIVE => 0x1439,
        token::TK_REPLACE => 0x14c7,
        token::TK_RESTRICT => 0x1538,
        token::TK_ROW => 0x15b3,
        token::TK_ROWS => 0x15e4,
        token::TK_TRIGGER => 0x1627,
        token::TK_VACUUM => 0x1696,
        token::TK_VIEW => 0x16f4,
        token::TK_VIRTUAL => 0x1737,
        token::TK_WITH => 0x17a4,
        token::TK_NULLS => 0x17e5,
        token::TK_FIRST => 0x1835,
        token::TK_LAST => 0x1884,
        token::TK_CURRENT => 0x18c7,
        token::TK_FOLLOWING => 0x1939,
        token::TK_PARTITION => 0x19c9,
        token::TK_PRECEDING => 0x1a59,
        token::TK_RANGE => 0x1ae5,
        token::TK_UNBOUNDED => 0x1b39,
        token::TK_EXCLUDE => 0x1bc7,
        token::TK_GROUPS => 0x1c36,
        token::TK_OTHERS => 0x1c96,
        token::TK_TIES => 0x1cf4,
        token::TK_GENERATED => 0x1d39,
        token::TK_ALWAYS => 0x1dc6,
        token::TK_MATERIALIZED => 0x1e2c,
        token::TK_REINDEX => 0x1ee7,
        token::TK_RENAME => 0x1f56,
        token::TK_CTIME_KW => 0x1fb0,
        token::TK_ANY => 0x1fb0,
        token::TK_BITAND => 0x1fb1,
        token::TK_BITOR => 0x1fc1,
        token::TK_LSHIFT => 0x1fd2,
        token::TK_RSHIFT => 0x1ff2,
        token::TK_PLUS => 0x2011,
        token::TK_MINUS => 0x2021,
        token::TK_STAR => 0x2031,
        token::TK_SLASH => 0x2041,
        token::TK_REM => 0x2051,
        token::TK_CONCAT => 0x2062,
        token::TK_PTR => 0x2080,
        token::TK_COLLATE => 0x2087,
        token::TK_BITNOT => 0x20f1,
        token::TK_ON => 0x2102,
        token::TK_INDEXED => 0x2127,
        token::TK_STRING => 0x2190,
        token::TK_JOIN_KW => 0x2190,
        token::TK_CONSTRAINT => 0x219a,
        token::TK_DEFAULT => 0x2237,
        token::TK_NULL => 0x22a4,
        token::TK_PRIMARY => 0x22e7,
        token::TK_UNIQUE => 0x2356,
        token::TK_CHECK => 0x23b5,
        token::TK_REFERENCES => 0x240a,
        token::TK_AUTOINCR => 0x24ad,
        token::TK_INSERT => 0x2576,
        token::TK_DELETE => 0x25d6,
        token::TK_UPDATE => 0x2636,
        token::TK_SET => 0x2693,
        token::TK_DEFERRABLE => 0x26ca,
        token::TK_FOREIGN => 0x2767,
        token::TK_DROP => 0x27d4,
        token::TK_UNION => 0x2815,
        token::TK_ALL => 0x2863,
        token::TK_EXCEPT => 0x2896,
        token::TK_INTERSECT => 0x28f9,
        token::TK_SELECT => 0x2986,
        token::TK_VALUES => 0x29e6,
        token::TK_DISTINCT => 0x2a48,
        token::TK_DOT => 0x2ac1,
        token::TK_FROM => 0x2ad4,
        token::TK_JOIN => 0x2b14,
        token::TK_USING => 0x2b55,
        token::TK_ORDER => 0x2ba5,
        token::TK_GROUP => 0x2bf5,
        token::TK_HAVING => 0x2c46,
        token::TK_LIMIT => 0x2ca5,
        token::TK_WHERE => 0x2cf5,
        token::TK_RETURNING => 0x2d49,
        token::TK_INTO => 0x2dd4,
        token::TK_NOTHING => 0x2e17,
        token::TK_BLOB => 0x2e80,
        token::TK_FLOAT => 0x2e80,
        token::TK_INTEGER => 0x2e80,
        token::TK_VARIABLE => 0x2e80,
        token::TK_CASE => 0x2e84,
        token::TK_WHEN => 0x2ec4,
        token::TK_THEN => 0x2f04,
        token::TK_ELSE => 0x2f44,
        token::TK_INDEX => 0x2f85,
        token::TK_ALTER => 0x2fd5,
        token::TK_ADD => 0x3023,
        token::TK_WINDOW => 0x3056,
        token::TK_OVER => 0x30b4,
        token::TK_FILTER => 0x30f6,
        token::TK_WITHIN => 0x3156,
        169 => 0x31b0,
        170 => 0x31b0,
        171 => 0x31b0,
        172 => 0x31b0,
        173 => 0x31b0,
        174 => 0x31b0,
        175 => 0x31b0,
        176 => 0x31b0,
        177 => 0x31b0,
        178 => 0x31b0,
        179 => 0x31b0,
        180 => 0x31b0,
        181 => 0x31b0,
        182 => 0x31b0,
        183 => 0x31b0,
        184 => 0x31b0,
        token::TK_ILLEGAL => 0x31b0,
        token::TK_CONCURRENT => 0x31ba,
        token::TK_OPTIMIZE => 0x3258,
        token::TK_TYPE => 0x32d4,
        token::TK_LBRACKET => 0x3311,
        token::TK_RBRACKET => 0x3321,
        token::TK_COLON => 0x3331,
        token::TK_ARRAY_CONTAINS => 0x3342,
        token::TK_ARRAY_OVERLAP => 0x3362,
        _ => 0,
    }
}

// What the lent pool spells a token number as: empty where it has no fixed spelling.
pub fn of(pool: &[u8], number: u16) -> &[u8]
    ensures { result.now ≡ spelling_in pool.now number }
{
    cut(pool, row(number))
}

// The part of the lent pool that a row says; nothing where the pool is too short. Who asks for the row first has but a
// number to wait for, and the rest is compiled into it.
pub fn cut(pool: &[u8], row: u16) -> &[u8]
    ensures { result.now ≡ within pool.now (row / lengths) (row % lengths) }
{
    let row = row as usize;
    let start = row / LENGTHS;
    let end = start + row % LENGTHS;
    if pool.len() < end {
        return &pool[..0];
    }
    &pool[start..end]
}

// Whether a token has the number. Most that are asked for are of the first row.
pub fn known(number: u16) -> bool
    ensures { result ≡ known' number }
{
    if number <= token::TK_WITHIN {
        return true;
    }
    ((token::TK_ILLEGAL <= number) & (number <= token::TK_ARRAY_OVERLAP))
        | (number == token::TK_NONE)
}
