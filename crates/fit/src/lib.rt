// The type check: whether a reading of a type can meet nothing that is the type's own fault. The records are measured from the lowest up, by the
// longest chain of structures, enums and unions from each.
#![tactic(auto)]

ghost use Rattle.std.specs.Prelude.{◌≡◌, ◌≤◌, ◌<◌, length, get_or};
ghost use Rattle.book.specs.Places.{type_at, types_in};
ghost use Rattle.fit.specs.Fit.{links_of};
ghost use Rattle.fit.specs.Ids.{clauses_for};
ghost use Rattle.fit.specs.Check.{check_of};
ghost use Rattle.fit.specs.Code.Check.{too_long, longest_from, chain_of, Measured, fits};

pub mod clauses;
pub mod ids;

use book::asked::kind_at;
use book::fault::{is_right, number_of};
use book::index::Types;
use book::judge::judge_into;
use book::member::{members, type_index};
use book::types::{element, type_count};
use clauses::clauses_met;
use kinds::names::{ARRAY, ENUM, SEQUENCE};

// The most types that a book has.
const TYPES: usize = 64;

// The longest chain of structures, enums and unions that a reading opens.
const LONGEST: u8 = 16;

// The measure of a type that is not fit: one more.
const TOO_LONG: u8 = 17;

// The measure of type number k: a type that is not below is not fit.
#[tactic(auto, using(std::proofs::lemmas::Bool::Decides::nat_tests))]
fn lower_chain(lower: &[u8], k: usize) -> u8
    ensures { result ≡ get_or lower.now k too_long }
{
    if lower.len() <= k {
        return TOO_LONG;
    }
    lower[k]
}

// The longest chain below the type at a place.
fn longest(book: &[u8], lower: &[u8], at: usize) -> u8
    ensures { result ≡ longest_from lower.now 0 (links_of (type_at book.now at)) }
{
    let kind = kind_at(book, at);
    if (kind == SEQUENCE) | (kind == ARRAY) {
        return lower_chain(lower, element(book, at));
    }
    if kind == ENUM {
        return 0;
    }
    let mut m: u8 = 0;
    for p in members(book, at) {
        m = m.max(lower_chain(lower, type_index(book, p)));
    }
    m
}

// The longest chain from the type at a place, whose lower records are measured.
fn chain(types: &Types, lower: &[u8], at: usize, only_xcdr2: bool) -> u8
    ensures { result ≡ chain_of (clauses_for only_xcdr2) (types_in types.now) lower.now (type_at types.now.book.now at) }
{
    if !clauses_met(types, at, only_xcdr2) {
        return TOO_LONG;
    }
    let m = longest(types.book, lower, at);
    if LONGEST < m {
        return TOO_LONG;
    }
    if kinds::opens(kind_at(types.book, at)) {
        return m + 1;
    }
    m
}

// Measures the first n records, the lower ones first, so that each is measured once.
// (a) A call and no loop: document 01's form for this place is a call with a smaller record index (docs/DECISIONS.md).
fn chains(types: &Types, lent: &mut [u8], n: usize, only_xcdr2: bool)
    requires { n ≤ length lent.old }
    ensures { Measured (clauses_for only_xcdr2) (types_in types.now) n lent.old lent.new }
{
    if n == 0 {
        return;
    }
    let k = n - 1;
    chains(types, lent, k, only_xcdr2);
    let m = chain(types, &lent[0..k], types.place(k), only_xcdr2);
    lent[k] = m;
}

// Whether the check passes type number `root` of those that an index finds.
#[tactic(auto, using(std::proofs::lemmas::Bool::Decides::nat_tests), unfolding(crate::specs::Code::Check::fits))]
fn fits_by(types: &Types, root: usize, only_xcdr2: bool) -> bool
    requires { root < 64 }
    ensures { result ≡ fits (clauses_for only_xcdr2) (types_in types.now) root }
{
    let at = types.place(root);
    if !kinds::opens(kind_at(types.book, at)) {
        return false;
    }
    let mut lent = [0u8; TYPES];
    chains(types, &mut lent, root, only_xcdr2);
    chain(types, &lent[0..root], at, only_xcdr2) <= LONGEST
}

// The type check: 0 where it passes, 17 to 23 for a book that breaks a rule, 9 for a root that the book has not, and 16 for a type that is not fit: for any
// encoding, or for XCDR2 only. (a) `check_of` is a number: document 01's own, which the C interface hands on.
pub fn check(book: &[u8], root: usize, only_xcdr2: bool) -> u8
    ensures { result ≡ check_of book.now root only_xcdr2 }
{
    let mut places = [0u32; TYPES];
    let found = judge_into(book, &mut places);
    if !is_right(found) {
        return number_of(found);
    }
    let n = type_count(book);
    if n <= root {
        return 9;
    }
    let types = Types {
        book,
        index: &places[0..n],
    };
    if fits_by(&types, root, only_xcdr2) {
        return 0;
    }
    16
}
