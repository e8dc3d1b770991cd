// The kinds by their names in document 01.
pub const NONE: u8 = 0;

pub const BOOLEAN: u8 = 1;

pub const BYTE: u8 = 2;

pub const INT16: u8 = 3;

pub const INT32: u8 = 4;

pub const INT64: u8 = 5;

pub const UINT16: u8 = 6;

pub const UINT32: u8 = 7;

pub const UINT64: u8 = 8;

pub const FLOAT32: u8 = 9;

pub const FLOAT64: u8 = 10;

pub const FLOAT128: u8 = 11;

pub const INT8: u8 = 12;

pub const UINT8: u8 = 13;

pub const CHAR8: u8 = 14;

pub const CHAR16: u8 = 15;

pub const STRING8: u8 = 16;

pub const STRING16: u8 = 17;

pub const ALIAS: u8 = 18;

pub const BITMASK: u8 = 19;

pub const ANNOTATION: u8 = 20;

pub const ENUM: u8 = 21;

pub const STRUCTURE: u8 = 22;

pub const UNION: u8 = 23;

pub const BITSET: u8 = 24;

pub const SEQUENCE: u8 = 25;

pub const ARRAY: u8 = 26;

pub const MAP: u8 = 27;
