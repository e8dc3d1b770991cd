// What is known of a type by its kind alone: a table of 28 entries in three columns, and the kinds that a rule names. A look-up is by an arm for each kind, which names its
// entry: a column that is indexed as it runs is built on the stack at each use (`element_of`, which is asked once for a list).
// Each function is its rule once the rule's tests are opened, so none needs an answer.
#![tactic(auto, using(std::proofs::lemmas::Bool::Decides::nat_tests), unfolding(crate::specs::Kinds::align_of, crate::specs::Kinds::element_size_of, crate::specs::Kinds::stored_of, crate::specs::Kinds::is_primitive, crate::specs::Kinds::is_signed, crate::specs::Kinds::unsupported_member, crate::specs::Kinds::unsupported_element, crate::specs::Kinds::opens, crate::specs::Kinds::stored_by_bound, crate::specs::Kinds::bitmask_stored))]

ghost use Rattle.std.specs.Prelude.{◌≡◌};
ghost use Rattle.kinds.specs.Kinds.{align_of, element_size_of, stored_of, is_primitive, is_signed, unsupported_member, unsupported_element, opens, stored_by_bound, bitmask_stored};

pub mod names;
pub mod stored;
pub mod widths;

use names::{
    ALIAS, ANNOTATION, ARRAY, BITMASK, BITSET, BOOLEAN, BYTE, CHAR8, CHAR16, ENUM, FLOAT32,
    FLOAT64, FLOAT128, INT8, INT16, INT32, INT64, MAP, NONE, SEQUENCE, STRING8, STRING16,
    STRUCTURE, UINT8, UINT16, UINT32, UINT64, UNION,
};

// What a number of each kind is aligned to: its own size. 0 for what is no number.
const ALIGN: [u8; 28] = [
    0, // NONE
    1, // BOOLEAN
    1, // BYTE
    2, // INT16
    4, // INT32
    8, // INT64
    2, // UINT16
    4, // UINT32
    8, // UINT64
    4, // FLOAT32
    8, // FLOAT64
    16, // FLOAT128
    1, // INT8
    1, // UINT8
    1, // CHAR8
    2, // CHAR16
    0, // STRING8
    0, // STRING16
    0, // ALIAS
    0, // BITMASK
    0, // ANNOTATION
    0, // ENUM
    0, // STRUCTURE
    0, // UNION
    0, // BITSET
    0, // SEQUENCE
    0, // ARRAY
    0, // MAP
];

// What an XCDR2 lookup divides the length of a sequence of each kind by.
const ELEMENT: [u8; 28] = [
    1, // NONE
    1, // BOOLEAN
    1, // BYTE
    1, // INT16
    4, // INT32
    8, // INT64
    1, // UINT16
    4, // UINT32
    8, // UINT64
    4, // FLOAT32
    8, // FLOAT64
    1, // FLOAT128
    1, // INT8
    1, // UINT8
    1, // CHAR8
    1, // CHAR16
    1, // STRING8
    1, // STRING16
    1, // ALIAS
    1, // BITMASK
    1, // ANNOTATION
    1, // ENUM
    1, // STRUCTURE
    1, // UNION
    1, // BITSET
    1, // SEQUENCE
    1, // ARRAY
    1, // MAP
];

// The kind of its row.
const STORED: [u8; 28] = [
    NONE, // NONE
    BOOLEAN, // BOOLEAN
    UINT8, // BYTE
    INT16, // INT16
    INT32, // INT32
    INT64, // INT64
    UINT16, // UINT16
    UINT32, // UINT32
    UINT64, // UINT64
    FLOAT32, // FLOAT32
    FLOAT64, // FLOAT64
    FLOAT128, // FLOAT128
    INT8, // INT8
    UINT8, // UINT8
    CHAR8, // CHAR8
    CHAR16, // CHAR16
    STRING8, // STRING8
    STRING16, // STRING16
    ALIAS, // ALIAS
    BITMASK, // BITMASK
    ANNOTATION, // ANNOTATION
    ENUM, // ENUM
    STRUCTURE, // STRUCTURE
    UNION, // UNION
    BITSET, // BITSET
    SEQUENCE, // SEQUENCE
    SEQUENCE, // ARRAY
    MAP, // MAP
];

// A code of 28 or more has what NONE has. An arm names its kind's entry, so that the compiler keeps the column beside the code: an index into the constant itself
// would build it on the stack at each look-up, and wait for that. What no arm names is no number, as NONE is none.
pub fn align_of(kind: u8) -> u8
    ensures { result ≡ align_of kind }
{
    match kind {
        BOOLEAN => widths::BOOLEAN as u8,
        BYTE => widths::BYTE as u8,
        INT16 => widths::INT16 as u8,
        INT32 => widths::INT32 as u8,
        INT64 => widths::INT64 as u8,
        UINT16 => widths::UINT16 as u8,
        UINT32 => widths::UINT32 as u8,
        UINT64 => widths::UINT64 as u8,
        FLOAT32 => widths::FLOAT32 as u8,
        FLOAT64 => widths::FLOAT64 as u8,
        FLOAT128 => widths::FLOAT128 as u8,
        INT8 => widths::INT8 as u8,
        UINT8 => widths::UINT8 as u8,
        CHAR8 => widths::CHAR8 as u8,
        CHAR16 => widths::CHAR16 as u8,
        _ => widths::NONE as u8,
    }
}

pub fn element_of(kind: u8) -> u8
    ensures { result ≡ element_size_of kind }
{
    let k = kind as usize;
    if k < ELEMENT.len() {
        ELEMENT[k]
    } else {
        ELEMENT[0]
    }
}

pub fn stored_of(kind: u8) -> u8
    ensures { result ≡ stored_of kind }
{
    match kind {
        BOOLEAN => stored::BOOLEAN as u8,
        BYTE => stored::BYTE as u8,
        INT16 => stored::INT16 as u8,
        INT32 => stored::INT32 as u8,
        INT64 => stored::INT64 as u8,
        UINT16 => stored::UINT16 as u8,
        UINT32 => stored::UINT32 as u8,
        UINT64 => stored::UINT64 as u8,
        FLOAT32 => stored::FLOAT32 as u8,
        FLOAT64 => stored::FLOAT64 as u8,
        FLOAT128 => stored::FLOAT128 as u8,
        INT8 => stored::INT8 as u8,
        UINT8 => stored::UINT8 as u8,
        CHAR8 => stored::CHAR8 as u8,
        CHAR16 => stored::CHAR16 as u8,
        STRING8 => stored::STRING8 as u8,
        STRING16 => stored::STRING16 as u8,
        ALIAS => stored::ALIAS as u8,
        BITMASK => stored::BITMASK as u8,
        ANNOTATION => stored::ANNOTATION as u8,
        ENUM => stored::ENUM as u8,
        STRUCTURE => stored::STRUCTURE as u8,
        UNION => stored::UNION as u8,
        BITSET => stored::BITSET as u8,
        SEQUENCE => stored::SEQUENCE as u8,
        ARRAY => stored::ARRAY as u8,
        MAP => stored::MAP as u8,
        _ => stored::NONE as u8,
    }
}

pub fn is_primitive(kind: u8) -> bool
    ensures { result ≡ is_primitive kind }
{
    matches!(kind, BOOLEAN..=CHAR16)
}

pub fn is_signed(kind: u8) -> bool
    ensures { result ≡ is_signed kind }
{
    matches!(kind, INT8 | INT16 | INT32 | INT64)
}

// The kinds that no member may have, where one is read.
pub fn unsupported_member(kind: u8) -> bool
    ensures { result ≡ unsupported_member kind }
{
    matches!(kind, CHAR16 | ALIAS | ANNOTATION | BITSET | MAP)
}

// The kinds that no element of a list may have.
pub fn unsupported_element(kind: u8) -> bool
    ensures { result ≡ unsupported_element kind }
{
    matches!(kind, NONE | CHAR16 | ALIAS | ANNOTATION | BITSET..=MAP)
}

// A structure, an enum or a union.
pub fn opens(kind: u8) -> bool
    ensures { result ≡ opens kind }
{
    matches!(kind, ENUM..=UNION)
}

fn stored_by_bound(bound: u32) -> u8
    ensures { result ≡ stored_by_bound bound }
{
    match bound {
        1..=8 => UINT8,
        9..=16 => UINT16,
        17..=32 => UINT32,
        _ => UINT64,
    }
}

// The kind of a bitmask's row.
pub fn bitmask_stored(bounded: bool, bound: u32) -> u8
    ensures { result ≡ bitmask_stored bounded bound }
{
    stored_by_bound(if bounded { bound } else { 32 })
}
