//! One code for each kind of token, each keyword and each sign. A sign of one byte is its own code.

/// Behind the last token.
pub const END: u8 = 0;

pub const LOWER: u8 = 1;

pub const UPPER: u8 = 2;

pub const QUOTED: u8 = 3;

pub const DIGITS: u8 = 4;

pub const HEX: u8 = 5;

pub const WHERE: u8 = 6;

pub const AND: u8 = 7;

pub const OR: u8 = 8;

pub const NOT: u8 = 9;

pub const TRUE: u8 = 10;

pub const FALSE: u8 = 11;

pub const NIL: u8 = 12;

pub const EQUAL: u8 = 13;

pub const UNEQUAL: u8 = 14;

pub const AT_MOST: u8 = 15;

pub const AT_LEAST: u8 = 16;
