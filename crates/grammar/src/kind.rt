// The kinds of records, as 01, section 2 numbers them. They are numbers, and no enum: a kind is read from a lent tree, which may have any number there, and
// stands, rule and row answer for each; an enum would ask more of their callers.
pub const NONE: u16 = 0;

pub const LIST: u16 = 1;

pub const TOKEN: u16 = 2;

pub const RUN: u16 = 3;

pub const TEXT: u16 = 4;

pub const NUMBER: u16 = 5;

pub const CMD: u16 = 10;

pub const ALTER_TABLE: u16 = 32;

pub const ANALYZE: u16 = 33;

pub const ATTACH: u16 = 34;

pub const BEGIN: u16 = 35;

pub const COMMIT: u16 = 36;

pub const CREATE_INDEX: u16 = 37;

pub const CREATE_TABLE: u16 = 38;

pub const CREATE_TRIGGER: u16 = 39;

pub const CREATE_VIEW: u16 = 40;

pub const CREATE_MATERIALIZED_VIEW: u16 = 41;

pub const CREATE_VIRTUAL_TABLE: u16 = 42;

pub const DELETE: u16 = 43;

pub const DETACH: u16 = 44;

pub const DROP_INDEX: u16 = 45;

pub const DROP_TABLE: u16 = 46;

pub const DROP_TRIGGER: u16 = 47;

pub const DROP_VIEW: u16 = 48;

pub const INSERT: u16 = 49;

pub const PRAGMA: u16 = 50;

pub const REINDEX: u16 = 51;

pub const OPTIMIZE: u16 = 52;

pub const RELEASE: u16 = 53;

pub const ROLLBACK: u16 = 54;

pub const SAVEPOINT: u16 = 55;

pub const SELECT_STMT: u16 = 56;

pub const UPDATE: u16 = 57;

pub const VACUUM: u16 = 58;

pub const CREATE_TYPE: u16 = 59;

pub const CREATE_DOMAIN: u16 = 60;

pub const DROP_TYPE: u16 = 61;

pub const CREATE_SEQUENCE: u16 = 62;

pub const DROP_SEQUENCE: u16 = 63;

pub const DROP_DOMAIN: u16 = 64;

pub const SELECT: u16 = 80;

pub const SELECT_BODY: u16 = 81;

pub const COMPOUND_SELECT: u16 = 82;

pub const ONE_SELECT: u16 = 83;

pub const VALUES: u16 = 84;

pub const FROM_CLAUSE: u16 = 85;

pub const JOINED_TABLE: u16 = 86;

pub const TABLE: u16 = 87;

pub const TABLE_CALL: u16 = 88;

pub const TABLE_SELECT: u16 = 89;

pub const SUB: u16 = 90;

pub const ON: u16 = 91;

pub const USING: u16 = 92;

pub const RENAME_TO: u16 = 93;

pub const ADD_COLUMN: u16 = 94;

pub const ALTER_COLUMN: u16 = 95;

pub const RENAME_COLUMN: u16 = 96;

pub const DROP_COLUMN: u16 = 97;

pub const COLUMNS_AND_CONSTRAINTS: u16 = 98;

pub const AS_SELECT: u16 = 99;

pub const COLUMN_DEFINITION: u16 = 100;

pub const PRIMARY_KEY: u16 = 101;

pub const UNIQUE: u16 = 102;

pub const CHECK: u16 = 103;

pub const FOREIGN_KEY: u16 = 104;

pub const FOREIGN_KEY_CLAUSE: u16 = 105;

pub const COMMON_TABLE_EXPR: u16 = 106;

pub const TYPE_NAME: u16 = 107;

pub const UPSERT_SET: u16 = 108;

pub const UPSERT_NOTHING: u16 = 109;

pub const WITH: u16 = 110;

pub const STRUCT: u16 = 111;

pub const UNION: u16 = 112;

pub const CUSTOM_TYPE: u16 = 113;

pub const TYPE_FIELD: u16 = 114;

pub const TYPE_PARAM: u16 = 115;

pub const OPERATOR_CLAUSE: u16 = 116;

pub const DOMAIN_CONSTRAINT: u16 = 117;

pub const PAIR: u16 = 118;

pub const REPLACE: u16 = 119;

pub const NAMED_TABLE_CONSTRAINT: u16 = 120;
