// What is asked of the type at a place, by who reads values.
ghost use Rattle.std.specs.Prelude.{◌≡◌, ◌+◌, ◌<◌, length};
ghost use Rattle.book.specs.Places.{type_at};
ghost use Rattle.book.specs.Asked.{is_sequence, is_mutable, is_delimited, read_as};

use crate::bytes::{byte_there, is_there, quad_there};
use crate::types::{bound, extensibility, is_bounded};
use kinds::names::{BITMASK, SEQUENCE};

pub fn kind_at(book: &[u8], at: usize) -> u8
    ensures { result ≡ (type_at book.now at).kind }
{
    if is_there(book, at, crate::types::LAST) {
        return byte_there(book, at, 2) as u8;
    }
    crate::types::kind(book, at) as u8
}

// Most types have all of their own 14 bytes. That they are there is one test, which the loop of their members asks too.
pub fn extensibility_at(book: &[u8], at: usize) -> usize
    ensures { result ≡ (type_at book.now at).extensibility }
{
    if is_there(book, at, crate::types::LAST) {
        return byte_there(book, at, 3);
    }
    extensibility(book, at)
}

pub fn base_at(book: &[u8], at: usize) -> u8
    ensures { result ≡ (type_at book.now at).base }
{
    crate::types::base(book, at) as u8
}

pub fn is_sequence(book: &[u8], at: usize) -> bool
    ensures { result ≡ is_sequence (type_at book.now at) }
{
    kind_at(book, at) == SEQUENCE
}

pub fn is_mutable(book: &[u8], at: usize) -> bool
    ensures { result ≡ is_mutable (type_at book.now at) }
{
    extensibility_at(book, at) == 2
}

pub fn is_delimited(book: &[u8], at: usize) -> bool
    ensures { result ≡ is_delimited (type_at book.now at) }
{
    let extensibility = extensibility_at(book, at);
    (extensibility == 1) | (extensibility == 2)
}

// The kind that a value is read as: a bitmask's by its bound.
pub fn read_as(book: &[u8], at: usize) -> u8
    ensures { result ≡ read_as (type_at book.now at) }
{
    let kind = kind_at(book, at);
    if kind == BITMASK {
        return kinds::bitmask_stored(is_bounded(book, at), bound(book, at));
    }
    kind
}

// The same of a type whose own 14 bytes are there.
pub fn read_as_there(book: &[u8], at: usize) -> u8
    requires { at + 13 < length book.now }
    ensures { result ≡ read_as (type_at book.now at) }
{
    let kind = byte_there(book, at, 2) as u8;
    if kind == BITMASK {
        let bounded = byte_there(book, at, 5) == 1;
        return kinds::bitmask_stored(bounded, quad_there(book, at, 6));
    }
    kind
}
