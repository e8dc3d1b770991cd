// The width of a number of each kind, and of what is none: its entry of the table, looked up where the kind is known when this is compiled. Where it is known
// at run time alone, `align_of` looks it up.
use crate::{ALIGN, names};

pub const NONE: usize = ALIGN[names::NONE as usize] as usize;

pub const BOOLEAN: usize = ALIGN[names::BOOLEAN as usize] as usize;

pub const BYTE: usize = ALIGN[names::BYTE as usize] as usize;

pub const INT16: usize = ALIGN[names::INT16 as usize] as usize;

pub const INT32: usize = ALIGN[names::INT32 as usize] as usize;

pub const INT64: usize = ALIGN[names::INT64 as usize] as usize;

pub const UINT16: usize = ALIGN[names::UINT16 as usize] as usize;

pub const UINT32: usize = ALIGN[names::UINT32 as usize] as usize;

pub const UINT64: usize = ALIGN[names::UINT64 as usize] as usize;

pub const FLOAT32: usize = ALIGN[names::FLOAT32 as usize] as usize;

pub const FLOAT64: usize = ALIGN[names::FLOAT64 as usize] as usize;

pub const FLOAT128: usize = ALIGN[names::FLOAT128 as usize] as usize;

pub const INT8: usize = ALIGN[names::INT8 as usize] as usize;

pub const UINT8: usize = ALIGN[names::UINT8 as usize] as usize;

pub const CHAR8: usize = ALIGN[names::CHAR8 as usize] as usize;

pub const CHAR16: usize = ALIGN[names::CHAR16 as usize] as usize;
