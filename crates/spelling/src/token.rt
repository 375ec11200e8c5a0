// Token numbers, as token.rs gives them.
pub const TK_EOF: u16 = 0;

pub const TK_SEMI: u16 = 1;

pub const TK_EXPLAIN: u16 = 2;

pub const TK_QUERY: u16 = 3;

pub const TK_PLAN: u16 = 4;

pub const TK_BEGIN: u16 = 5;

pub const TK_TRANSACTION: u16 = 6;

pub const TK_DEFERRED: u16 = 7;

pub const TK_IMMEDIATE: u16 = 8;

pub const TK_EXCLUSIVE: u16 = 9;

pub const TK_COMMIT: u16 = 10;

pub const TK_END: u16 = 11;

pub const TK_ROLLBACK: u16 = 12;

pub const TK_SAVEPOINT: u16 = 13;

pub const TK_RELEASE: u16 = 14;

pub const TK_TO: u16 = 15;

pub const TK_TABLE: u16 = 16;

pub const TK_CREATE: u16 = 17;

pub const TK_IF: u16 = 18;

pub const TK_NOT: u16 = 19;

pub const TK_EXISTS: u16 = 20;

pub const TK_TEMP: u16 = 21;

pub const TK_LP: u16 = 22;

pub const TK_RP: u16 = 23;

pub const TK_AS: u16 = 24;

pub const TK_COMMA: u16 = 25;

pub const TK_WITHOUT: u16 = 26;

pub const TK_ABORT: u16 = 27;

pub const TK_ACTION: u16 = 28;

pub const TK_AFTER: u16 = 29;

pub const TK_ANALYZE: u16 = 30;

pub const TK_ASC: u16 = 31;

pub const TK_ATTACH: u16 = 32;

pub const TK_BEFORE: u16 = 33;

pub const TK_BY: u16 = 34;

pub const TK_CASCADE: u16 = 35;

pub const TK_CAST: u16 = 36;

pub const TK_CONFLICT: u16 = 37;

pub const TK_DATABASE: u16 = 38;

pub const TK_DESC: u16 = 39;

pub const TK_DETACH: u16 = 40;

pub const TK_EACH: u16 = 41;

pub const TK_FAIL: u16 = 42;

pub const TK_OR: u16 = 43;

pub const TK_AND: u16 = 44;

pub const TK_IS: u16 = 45;

pub const TK_ISNOT: u16 = 46;

pub const TK_MATCH: u16 = 47;

pub const TK_LIKE_KW: u16 = 48;

pub const TK_BETWEEN: u16 = 49;

pub const TK_IN: u16 = 50;

pub const TK_ISNULL: u16 = 51;

pub const TK_NOTNULL: u16 = 52;

pub const TK_NE: u16 = 53;

pub const TK_EQ: u16 = 54;

pub const TK_GT: u16 = 55;

pub const TK_LE: u16 = 56;

pub const TK_LT: u16 = 57;

pub const TK_GE: u16 = 58;

pub const TK_ESCAPE: u16 = 59;

pub const TK_ID: u16 = 60;

pub const TK_COLUMNKW: u16 = 61;

pub const TK_DO: u16 = 62;

pub const TK_FOR: u16 = 63;

pub const TK_IGNORE: u16 = 64;

pub const TK_INITIALLY: u16 = 65;

pub const TK_INSTEAD: u16 = 66;

pub const TK_NO: u16 = 67;

pub const TK_KEY: u16 = 68;

pub const TK_OF: u16 = 69;

pub const TK_OFFSET: u16 = 70;

pub const TK_PRAGMA: u16 = 71;

pub const TK_RAISE: u16 = 72;

pub const TK_RECURSIVE: u16 = 73;

pub const TK_REPLACE: u16 = 74;

pub const TK_RESTRICT: u16 = 75;

pub const TK_ROW: u16 = 76;

pub const TK_ROWS: u16 = 77;

pub const TK_TRIGGER: u16 = 78;

pub const TK_VACUUM: u16 = 79;

pub const TK_VIEW: u16 = 80;

pub const TK_VIRTUAL: u16 = 81;

pub const TK_WITH: u16 = 82;

pub const TK_NULLS: u16 = 83;

pub const TK_FIRST: u16 = 84;

pub const TK_LAST: u16 = 85;

pub const TK_CURRENT: u16 = 86;

pub const TK_FOLLOWING: u16 = 87;

pub const TK_PARTITION: u16 = 88;

pub const TK_PRECEDING: u16 = 89;

pub const TK_RANGE: u16 = 90;

pub const TK_UNBOUNDED: u16 = 91;

pub const TK_EXCLUDE: u16 = 92;

pub const TK_GROUPS: u16 = 93;

pub const TK_OTHERS: u16 = 94;

pub const TK_TIES: u16 = 95;

pub const TK_GENERATED: u16 = 96;

pub const TK_ALWAYS: u16 = 97;

pub const TK_MATERIALIZED: u16 = 98;

pub const TK_REINDEX: u16 = 99;

pub const TK_RENAME: u16 = 100;

pub const TK_CTIME_KW: u16 = 101;

pub const TK_ANY: u16 = 102;

pub const TK_BITAND: u16 = 103;

pub const TK_BITOR: u16 = 104;

pub const TK_LSHIFT: u16 = 105;

pub const TK_RSHIFT: u16 = 106;

pub const TK_PLUS: u16 = 107;

pub const TK_MINUS: u16 = 108;

pub const TK_STAR: u16 = 109;

pub const TK_SLASH: u16 = 110;

pub const TK_REM: u16 = 111;

pub const TK_CONCAT: u16 = 112;

pub const TK_PTR: u16 = 113;

pub const TK_COLLATE: u16 = 114;

pub const TK_BITNOT: u16 = 115;

pub const TK_ON: u16 = 116;

pub const TK_INDEXED: u16 = 117;

pub const TK_STRING: u16 = 118;

pub const TK_JOIN_KW: u16 = 119;

pub const TK_CONSTRAINT: u16 = 120;

pub const TK_DEFAULT: u16 = 121;

pub const TK_NULL: u16 = 122;

pub const TK_PRIMARY: u16 = 123;

pub const TK_UNIQUE: u16 = 124;

pub const TK_CHECK: u16 = 125;

pub const TK_REFERENCES: u16 = 126;

pub const TK_AUTOINCR: u16 = 127;

pub const TK_INSERT: u16 = 128;

pub const TK_DELETE: u16 = 129;

pub const TK_UPDATE: u16 = 130;

pub const TK_SET: u16 = 131;

pub const TK_DEFERRABLE: u16 = 132;

pub const TK_FOREIGN: u16 = 133;

pub const TK_DROP: u16 = 134;

pub const TK_UNION: u16 = 135;

pub const TK_ALL: u16 = 136;

pub const TK_EXCEPT: u16 = 137;

pub const TK_INTERSECT: u16 = 138;

pub const TK_SELECT: u16 = 139;

pub const TK_VALUES: u16 = 140;

pub const TK_DISTINCT: u16 = 141;

pub const TK_DOT: u16 = 142;

pub const TK_FROM: u16 = 143;

pub const TK_JOIN: u16 = 144;

pub const TK_USING: u16 = 145;

pub const TK_ORDER: u16 = 146;

pub const TK_GROUP: u16 = 147;

pub const TK_HAVING: u16 = 148;

pub const TK_LIMIT: u16 = 149;

pub const TK_WHERE: u16 = 150;

pub const TK_RETURNING: u16 = 151;

pub const TK_INTO: u16 = 152;

pub const TK_NOTHING: u16 = 153;

pub const TK_BLOB: u16 = 154;

pub const TK_FLOAT: u16 = 155;

pub const TK_INTEGER: u16 = 156;

pub const TK_VARIABLE: u16 = 157;

pub const TK_CASE: u16 = 158;

pub const TK_WHEN: u16 = 159;

pub const TK_THEN: u16 = 160;

pub const TK_ELSE: u16 = 161;

pub const TK_INDEX: u16 = 162;

pub const TK_ALTER: u16 = 163;

pub const TK_ADD: u16 = 164;

pub const TK_WINDOW: u16 = 165;

pub const TK_OVER: u16 = 166;

pub const TK_FILTER: u16 = 167;

pub const TK_WITHIN: u16 = 168;

pub const TK_ILLEGAL: u16 = 185;

pub const TK_CONCURRENT: u16 = 186;

pub const TK_OPTIMIZE: u16 = 187;

pub const TK_TYPE: u16 = 188;

pub const TK_LBRACKET: u16 = 189;

pub const TK_RBRACKET: u16 = 190;

pub const TK_COLON: u16 = 191;

pub const TK_ARRAY_CONTAINS: u16 = 192;

pub const TK_ARRAY_OVERLAP: u16 = 193;

pub const TK_NONE: u16 = 255;
