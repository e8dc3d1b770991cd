// The members of a type: a run of them, and the fields of the one at a place.
ghost use Rattle.std.specs.Prelude.{◌≡◌, ◌+◌, ◌*◌, ◌<◌, length, get_or, pos};
ghost use Rattle.book.specs.Types.{byte, optional, default};
ghost use Rattle.book.specs.Places.{from, member_at, type_at, HeadOf, Skipped, Started, After, places_left};

use crate::bytes::{byte_at, byte_there, is_there, pair_at, pair_there, quad_at, quad_there};

// A member has 9 bytes before its labels: the last of them.
pub const LAST: usize = 8;

// The members of a type that are still to come, each as its place: where the next stands, and how many are left.
#[derive(Clone, Copy)]
pub struct Run<'a> {
    pub book: &'a [u8],
    pub at: usize,
    pub left: usize,
}

impl Iterator for Run<'_> {
    ghost use Rattle.std.specs.Iterator.{YieldsFirst, item_count};

    type Item = usize;

    ghost next_gives = { YieldsFirst places_left };

    ghost remaining = { item_count places_left };

    fn next(&mut self) -> Option<usize> {
        if self.left == 0 {
            return None;
        }
        let p = self.at;
        *self = after(self.book, *self);
        Some(p)
    }
}

// How many members the type at a place has.
pub fn member_count(b: &[u8], at: usize) -> usize
    ensures { (result ≡ length (type_at b.now at).members) × (result < 65536) }
{
    pair_at(b, at, 12)
}

// All members of the type at a place.
pub fn members(b: &[u8], at: usize) -> Run<'_>
    ensures { Started b.now at result }
{
    if is_there(b, at, crate::types::LAST) {
        return Run {
            book: b,
            at: at + 14,
            left: pair_there(b, at, 12),
        };
    }
    Run {
        book: b,
        at: b.len(),
        left: pair_at(b, at, 12),
    }
}

// The place past the member at p, no further than the end.
fn past(b: &[u8], p: usize) -> usize
    ensures { Skipped b.now p (9 + 4 * byte (from b.now p) 8) result }
{
    let end = b.len();
    if is_there(b, p, LAST) {
        let q = p + 9 + 4 * byte_there(b, p, 8);
        if q < end {
            return q;
        }
    }
    end
}

// Those after the next.
pub fn after<'a>(b: &'a [u8], ms: Run<'_>) -> Run<'a>
    ensures { After b.now ms.entry result }
{
    let p = ms.at;
    let left = ms.left;
    let q = past(b, p);
    if left == 0 {
        return Run {
            book: b,
            at: q,
            left: 0,
        };
    }
    Run {
        book: b,
        at: q,
        left: left - 1,
    }
}

// What is asked of every member that is read in turn.
#[derive(Clone, Copy)]
pub struct Head {
    pub id: u32,
    pub ty: usize,
    pub optional: bool,
}

// The head of the member at p, whose 9 bytes before its labels are there.
pub fn head_there(b: &[u8], p: usize) -> Head
    requires { p + 8 < length b.now }
    ensures { HeadOf (member_at b.now p) result }
{
    Head {
        id: quad_there(b, p, 0),
        ty: pair_there(b, p, 4),
        optional: byte_there(b, p, 6) % 2 == 1,
    }
}

// The head of the member at p. That its bytes are there is asked once for all of them.
pub fn head_at(b: &[u8], p: usize) -> Head
    ensures { HeadOf (member_at b.now p) result }
{
    if is_there(b, p, LAST) {
        return head_there(b, p);
    }
    Head {
        id: quad_at(b, p, 0),
        ty: pair_at(b, p, 4),
        optional: is_optional(b, p),
    }
}

// Where its bytes are known to be there, the compiler leaves this question out, as for the type below.
pub fn id(b: &[u8], p: usize) -> u32
    ensures { result ≡ (member_at b.now p).id }
{
    if is_there(b, p, LAST) {
        return quad_there(b, p, 0);
    }
    quad_at(b, p, 0)
}

pub fn type_index(b: &[u8], p: usize) -> usize
    ensures { (result ≡ (member_at b.now p).type) × (result < 65536) }
{
    if is_there(b, p, LAST) {
        return pair_there(b, p, 4);
    }
    pair_at(b, p, 4)
}

pub fn flags(b: &[u8], p: usize) -> usize
    ensures { (result ≡ (member_at b.now p).flags) × (result < 256) }
{
    byte_at(b, p, 6)
}

pub fn is_optional(b: &[u8], p: usize) -> bool
    ensures { result ≡ optional (member_at b.now p) }
{
    flags(b, p) % 2 == 1
}

pub fn is_default(b: &[u8], p: usize) -> bool
    ensures { result ≡ default (member_at b.now p) }
{
    flags(b, p) / 2 % 2 == 1
}

pub fn construct(b: &[u8], p: usize) -> usize
    ensures { (result ≡ (member_at b.now p).construct) × (result < 256) }
{
    byte_at(b, p, 7)
}

pub fn label_count(b: &[u8], p: usize) -> usize
    ensures { (result ≡ length (member_at b.now p).labels) × (result < 256) }
{
    byte_at(b, p, 8)
}

// Label i of the member at p; 0 where it has none.
pub fn label(b: &[u8], p: usize, i: usize) -> i32
    ensures { result ≡ get_or (member_at b.now p).labels i (pos 0) }
{
    if label_count(b, p) <= i {
        return 0;
    }
    wire::signed::as_i32(quad_at(b, p, 9 + 4 * i))
}
