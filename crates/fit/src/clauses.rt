// What the check asks of one type by itself: a function for each clause.
ghost use Rattle.std.specs.Prelude.{◌≡◌, List};
ghost use Rattle.book.specs.Types.{BookType};
ghost use Rattle.book.specs.Places.{member_at, type_at, types_in};
ghost use Rattle.fit.specs.Fit.{member_supported, members_supported, element_supported, base_supported, chooses, discriminator_fits, meets};
ghost use Rattle.fit.specs.Ids.{clauses_for};

use crate::ids::ids_fit;
use book::asked::{base_at, kind_at};
use book::index::Types;
use book::member::{members, type_index};
use book::types::{bound, element, is_bounded};
use kinds::names::{
    ARRAY, BITMASK, BYTE, ENUM, INT8, INT16, INT32, SEQUENCE, UINT8, UINT16, UINT32, UNION,
};

#[tactic(auto, using(std::proofs::lemmas::Bool::Decides::nat_tests), unfolding(crate::specs::Fit::member_supported))]
fn member_supported(types: &Types, p: usize) -> bool
    ensures { result ≡ member_supported (types_in types.now) (member_at types.now.book.now p) }
{
    !kinds::unsupported_member(types.kind_of(type_index(types.book, p)))
}

#[tactic(auto, using(std::proofs::lemmas::Bool::Decides::nat_tests), unfolding(crate::specs::Fit::members_supported))]
fn members_supported(types: &Types, at: usize) -> bool
    ensures { result ≡ members_supported (types_in types.now) (type_at types.now.book.now at) }
{
    if kind_at(types.book, at) == ENUM {
        return true;
    }
    for p in members(types.book, at) {
        if !member_supported(types, p) {
            return false;
        }
    }
    true
}

#[tactic(auto, using(std::proofs::lemmas::Bool::Decides::nat_tests), unfolding(crate::specs::Fit::element_supported))]
fn element_supported(types: &Types, at: usize) -> bool
    ensures { result ≡ element_supported (types_in types.now) (type_at types.now.book.now at) }
{
    let kind = kind_at(types.book, at);
    if (kind == SEQUENCE) | (kind == ARRAY) {
        return !kinds::unsupported_element(types.kind_of(element(types.book, at)));
    }
    true
}

// Whatever the other types are.
#[tactic(auto, using(std::proofs::lemmas::Bool::Decides::nat_tests), unfolding(crate::specs::Fit::base_supported))]
fn base_supported(book: &[u8], at: usize) -> bool
    ensures { (types : List BookType) → result ≡ base_supported types (type_at book.now at) }
{
    let kind = kind_at(book, at);
    if kind == ENUM {
        let base = base_at(book, at);
        return (base == INT16) | (base == INT32) | (base == INT8);
    }
    true
}

// Whether a value of the type at a place may tell which member of a union follows.
#[tactic(auto, using(std::proofs::lemmas::Bool::Decides::nat_tests), unfolding(crate::specs::Fit::chooses))]
fn chooses(book: &[u8], at: usize) -> bool
    ensures { result ≡ chooses (type_at book.now at) }
{
    let kind = kind_at(book, at);
    if kind == BITMASK {
        let stored = kinds::bitmask_stored(is_bounded(book, at), bound(book, at));
        return (stored == UINT8) | (stored == UINT16) | (stored == UINT32);
    }
    (kind == BYTE)
        | (kind == INT16)
        | (kind == INT32)
        | (kind == UINT16)
        | (kind == UINT32)
        | (kind == INT8)
        | (kind == UINT8)
        | (kind == ENUM)
}

#[tactic(auto, using(std::proofs::lemmas::Bool::Decides::nat_tests), unfolding(crate::specs::Fit::discriminator_fits, crate::specs::Fit::first_chooses))]
fn discriminator_fits(types: &Types, at: usize) -> bool
    ensures { result ≡ discriminator_fits (types_in types.now) (type_at types.now.book.now at) }
{
    if kind_at(types.book, at) == UNION {
        let mut ms = members(types.book, at);
        if let Some(p) = ms.next() {
            return chooses(types.book, types.member_place(p));
        }
        return false;
    }
    true
}

// Every clause of the check: the function of a clause that is added joins the others here.
pub fn clauses_met(types: &Types, at: usize, only_xcdr2: bool) -> bool
    ensures { result ≡ meets (clauses_for only_xcdr2) (types_in types.now) (type_at types.now.book.now at) }
{
    members_supported(types, at)
        & element_supported(types, at)
        & base_supported(types.book, at)
        & discriminator_fits(types, at)
        & ids_fit(types.book, at, only_xcdr2)
}
