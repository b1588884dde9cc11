//! The kinds of tokens that the grammars tell apart, by their numbers in the tables.

pub const PLAIN: u8 = 0;

pub const QUOTED: u8 = 1;

pub const NUMBER: u8 = 2;

pub const ADDRESS: u8 = 3;

pub const NUMBER_PREFIX: u8 = 4;

pub const NUMBERED: u8 = 5;

pub const FREE_WORD: u8 = 6;

pub const FREE_PREFIX: u8 = 7;

pub const FREE_NUMBERED: u8 = 8;

pub const IN_WORD: u8 = 9;

pub const IN0_WORD: u8 = 10;

pub const IN1_WORD: u8 = 11;

pub const IN2_WORD: u8 = 12;

pub const MN_WORD: u8 = 13;

pub const MX_WORD: u8 = 14;

pub const G_WORD: u8 = 15;

pub const N_WORD: u8 = 16;

pub const BIT_OP: u8 = 17;

pub const OR_OP: u8 = 18;

pub const VALUE_OP: u8 = 19;

pub const FREE_OP: u8 = 20;

pub const STL_SIGN: u8 = 21;

pub const ASSIGN: u8 = 22;

pub const ARROW: u8 = 23;

pub const DOTS: u8 = 24;

pub const PAREN_OPEN: u8 = 25;

pub const PAREN_CLOSE: u8 = 26;

pub const BRACKET_OPEN: u8 = 27;

pub const BRACKET_CLOSE: u8 = 28;

pub const COLON: u8 = 29;

pub const SEMICOLON: u8 = 30;

pub const COMMA: u8 = 31;

pub const DOT: u8 = 32;

pub const HASH: u8 = 33;

pub const PLUS: u8 = 34;

pub const MINUS: u8 = 35;

pub const TIMES: u8 = 36;

pub const MOD_WORD: u8 = 37;

pub const COMPARE_SIGN: u8 = 38;

pub const EQUALS: u8 = 39;

pub const UNEQUAL: u8 = 40;

pub const AND_WORD: u8 = 41;

pub const XOR_WORD: u8 = 42;

pub const OR_WORD: u8 = 43;

pub const NOT_WORD: u8 = 44;

pub const TRUTH: u8 = 45;

pub const ONE_FUNCTION: u8 = 46;

pub const TWO_FUNCTION: u8 = 47;

pub const LIMIT_FUNCTION: u8 = 48;

pub const SEL_FUNCTION: u8 = 49;

pub const SHIFT_FUNCTION: u8 = 50;

pub const SIMPLE_TYPE: u8 = 51;

pub const DATE_AND_TIME: u8 = 52;

pub const VOID_WORD: u8 = 53;

pub const ARRAY_WORD: u8 = 54;

pub const OF_WORD: u8 = 55;

pub const STRUCT_WORD: u8 = 56;

pub const END_STRUCT: u8 = 57;

pub const SECTION_WORD: u8 = 58;

pub const END_VAR: u8 = 59;

pub const CONST_WORD: u8 = 60;

pub const END_CONST: u8 = 61;

pub const BEGIN_WORD: u8 = 62;

pub const FUNCTION_BLOCK: u8 = 63;

pub const END_FUNCTION_BLOCK: u8 = 64;

pub const FUNCTION_WORD: u8 = 65;

pub const END_FUNCTION: u8 = 66;

pub const ORGANIZATION_BLOCK: u8 = 67;

pub const END_ORGANIZATION_BLOCK: u8 = 68;

pub const DATA_BLOCK: u8 = 69;

pub const END_DATA_BLOCK: u8 = 70;

pub const TYPE_WORD: u8 = 71;

pub const END_TYPE: u8 = 72;

pub const IF_WORD: u8 = 73;

pub const THEN_WORD: u8 = 74;

pub const ELSIF_WORD: u8 = 75;

pub const ELSE_WORD: u8 = 76;

pub const END_IF: u8 = 77;

pub const CASE_WORD: u8 = 78;

pub const END_CASE: u8 = 79;

pub const FOR_WORD: u8 = 80;

pub const TO_WORD: u8 = 81;

pub const BY_WORD: u8 = 82;

pub const DO_WORD: u8 = 83;

pub const END_FOR: u8 = 84;

pub const WHILE_WORD: u8 = 85;

pub const END_WHILE: u8 = 86;

pub const REPEAT_WORD: u8 = 87;

pub const UNTIL_WORD: u8 = 88;

pub const END_REPEAT: u8 = 89;

pub const SINGLE_WORD: u8 = 90;

pub const NETWORK_WORD: u8 = 91;

pub const CALL_WORD: u8 = 92;

pub const UC_WORD: u8 = 93;

pub const OUTSIDE: u8 = 94;
