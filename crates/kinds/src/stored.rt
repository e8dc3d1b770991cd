// The kind of each kind's row: its entry of the table, looked up where the kind is known when this is compiled. Where it is known at run time alone,
// `stored_of` looks it up.
use crate::{STORED, names};

pub const NONE: u64 = STORED[names::NONE as usize] as u64;

pub const BOOLEAN: u64 = STORED[names::BOOLEAN as usize] as u64;

pub const BYTE: u64 = STORED[names::BYTE as usize] as u64;

pub const INT16: u64 = STORED[names::INT16 as usize] as u64;

pub const INT32: u64 = STORED[names::INT32 as usize] as u64;

pub const INT64: u64 = STORED[names::INT64 as usize] as u64;

pub const UINT16: u64 = STORED[names::UINT16 as usize] as u64;

pub const UINT32: u64 = STORED[names::UINT32 as usize] as u64;

pub const UINT64: u64 = STORED[names::UINT64 as usize] as u64;

pub const FLOAT32: u64 = STORED[names::FLOAT32 as usize] as u64;

pub const FLOAT64: u64 = STORED[names::FLOAT64 as usize] as u64;

pub const FLOAT128: u64 = STORED[names::FLOAT128 as usize] as u64;

pub const INT8: u64 = STORED[names::INT8 as usize] as u64;

pub const UINT8: u64 = STORED[names::UINT8 as usize] as u64;

pub const CHAR8: u64 = STORED[names::CHAR8 as usize] as u64;

pub const CHAR16: u64 = STORED[names::CHAR16 as usize] as u64;

pub const STRING8: u64 = STORED[names::STRING8 as usize] as u64;

pub const STRING16: u64 = STORED[names::STRING16 as usize] as u64;

pub const ALIAS: u64 = STORED[names::ALIAS as usize] as u64;

pub const BITMASK: u64 = STORED[names::BITMASK as usize] as u64;

pub const ANNOTATION: u64 = STORED[names::ANNOTATION as usize] as u64;

pub const ENUM: u64 = STORED[names::ENUM as usize] as u64;

pub const STRUCTURE: u64 = STORED[names::STRUCTURE as usize] as u64;

pub const UNION: u64 = STORED[names::UNION as usize] as u64;

pub const BITSET: u64 = STORED[names::BITSET as usize] as u64;

pub const SEQUENCE: u64 = STORED[names::SEQUENCE as usize] as u64;

pub const ARRAY: u64 = STORED[names::ARRAY as usize] as u64;

pub const MAP: u64 = STORED[names::MAP as usize] as u64;
