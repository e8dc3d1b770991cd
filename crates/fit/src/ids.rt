// Order 3's clause: the ids of a type whose members are looked for by their headers.
ghost use Rattle.std.specs.Prelude.{◌≡◌, List};
ghost use Rattle.ground.specs.Choice.{every};
ghost use Rattle.book.specs.Types.{BookType};
ghost use Rattle.book.specs.Places.{member_at, type_at, listed};
ghost use Rattle.fit.specs.Ids.{required, has_headers, id_fits, other_low, low_differ, ids_fit};

use book::asked::{is_mutable, kind_at};
use book::member::{Run, id, is_optional, members};
use kinds::names::{STRUCTURE, UNION};

// An XCDR1 lookup cuts the wanted id to 16 bits, of which a header holds 14.
const LOW_BITS: u32 = 65536;

const GREATEST_LOW: u32 = 16383;

// The greatest id that an XCDR2 header holds: 28 bits.
const GREATEST: u32 = 268435455;

#[tactic(auto, using(std::proofs::lemmas::Bool::Decides::nat_tests), unfolding(crate::specs::Ids::required))]
fn is_required(book: &[u8], p: usize) -> bool
    ensures { result ≡ required (member_at book.now p) }
{
    !is_optional(book, p)
}

fn all_required(book: &[u8], ms: Run) -> bool
    ensures { result ≡ every required (listed book.now ms.entry) }
{
    for p in ms {
        if !is_required(book, p) {
            return false;
        }
    }
    true
}

#[tactic(auto, using(std::proofs::lemmas::Bool::Decides::nat_tests), unfolding(crate::specs::Ids::has_headers, book::specs::Asked::is_structure, book::specs::Asked::is_mutable))]
fn has_headers(book: &[u8], at: usize) -> bool
    ensures { result ≡ has_headers (type_at book.now at) }
{
    let kind = kind_at(book, at);
    if (kind == STRUCTURE) | (kind == UNION) {
        if is_mutable(book, at) {
            return true;
        }
        return !all_required(book, members(book, at));
    }
    false
}

#[tactic(auto, using(std::proofs::lemmas::Bool::Decides::nat_tests), unfolding(crate::specs::Ids::id_fits))]
fn id_fits(book: &[u8], p: usize, only_xcdr2: bool) -> bool
    ensures { result ≡ id_fits only_xcdr2 (member_at book.now p) }
{
    let id = id(book, p);
    if only_xcdr2 {
        return id <= GREATEST;
    }
    id % LOW_BITS <= GREATEST_LOW
}

fn each_fits(book: &[u8], ms: Run, only_xcdr2: bool) -> bool
    ensures { result ≡ every (id_fits only_xcdr2) (listed book.now ms.entry) }
{
    for p in ms {
        if !id_fits(book, p, only_xcdr2) {
            return false;
        }
    }
    true
}

fn other_low(book: &[u8], p: usize, wanted: u32) -> bool
    ensures { result ≡ other_low wanted (member_at book.now p) }
{
    !(id(book, p) % LOW_BITS == wanted % LOW_BITS)
}

// Whether none of these members has the low bits of this id.
fn low_is_new(book: &[u8], ms: Run, wanted: u32) -> bool
    ensures { result ≡ every (other_low wanted) (listed book.now ms.entry) }
{
    for p in ms {
        if !other_low(book, p, wanted) {
            return false;
        }
    }
    true
}

fn low_differ(book: &[u8], ms: Run) -> bool
    ensures { result ≡ low_differ (listed book.now ms.entry) }
{
    let mut rest = ms;
    while let Some(p) = rest.next() {
        if !low_is_new(book, rest, id(book, p)) {
            return false;
        }
    }
    true
}

// Whatever the other types are.
#[tactic(auto, using(std::proofs::lemmas::Bool::Decides::nat_tests), unfolding(crate::specs::Ids::ids_fit))]
pub fn ids_fit(book: &[u8], at: usize, only_xcdr2: bool) -> bool
    ensures { (types : List BookType) → result ≡ ids_fit only_xcdr2 types (type_at book.now at) }
{
    if !has_headers(book, at) {
        return true;
    }
    if !each_fits(book, members(book, at), only_xcdr2) {
        return false;
    }
    if only_xcdr2 {
        return true;
    }
    low_differ(book, members(book, at))
}
