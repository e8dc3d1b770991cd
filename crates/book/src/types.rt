// The fields of the type at a place.
ghost use Rattle.std.specs.Prelude.{◌≡◌, ◌<◌};
ghost use Rattle.book.specs.Types.{type_count, bounded};
ghost use Rattle.book.specs.Places.{type_at};

use crate::bytes::{byte_at, pair_at, quad_at};

// A type has 14 bytes before its members: the last of them.
pub const LAST: usize = 13;

// The kinds that rules of a book name. (d) A book's kind is any byte until it is judged, so no enum; and here it is read as a place is, into a
// usize, with its bound: `kinds::names` has the same numbers as bytes, and a cast at each test is no plainer.
pub const BITMASK: usize = 19;

pub const ANNOTATION: usize = 20;

pub const ENUM: usize = 21;

pub const STRUCTURE: usize = 22;

pub const UNION: usize = 23;

pub const SEQUENCE: usize = 25;

pub const ARRAY: usize = 26;

// How many types the book says it has.
pub fn type_count(b: &[u8]) -> usize
    ensures { (result ≡ type_count b.now) × (result < 65536) }
{
    pair_at(b, 0, 5)
}

pub fn kind(b: &[u8], at: usize) -> usize
    ensures { (result ≡ (type_at b.now at).kind) × (result < 256) }
{
    byte_at(b, at, 2)
}

pub fn extensibility(b: &[u8], at: usize) -> usize
    ensures { (result ≡ (type_at b.now at).extensibility) × (result < 256) }
{
    byte_at(b, at, 3)
}

pub fn base(b: &[u8], at: usize) -> usize
    ensures { (result ≡ (type_at b.now at).base) × (result < 256) }
{
    byte_at(b, at, 4)
}

pub fn bound_flag(b: &[u8], at: usize) -> usize
    ensures { (result ≡ (type_at b.now at).bound_flag) × (result < 256) }
{
    byte_at(b, at, 5)
}

pub fn is_bounded(b: &[u8], at: usize) -> bool
    ensures { result ≡ bounded (type_at b.now at) }
{
    bound_flag(b, at) == 1
}

pub fn bound(b: &[u8], at: usize) -> u32
    ensures { result ≡ (type_at b.now at).bound }
{
    quad_at(b, at, 6)
}

pub fn element(b: &[u8], at: usize) -> usize
    ensures { (result ≡ (type_at b.now at).element) × (result < 65536) }
{
    pair_at(b, at, 10)
}
