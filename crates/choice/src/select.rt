// The member that a discriminator's value selects.
ghost use Rattle.std.specs.Prelude.{◌≡◌};
ghost use Rattle.book.specs.Places.{member_at, type_at, types_in};
ghost use Rattle.book.specs.Labels.{told};
ghost use Rattle.choice.specs.Select.{first_default, default_value, by_default_value, selected_of};

use book::index::Types;
use book::labels::{first_with, last_default};
use book::member::{construct, is_default, label, members};
use book::types::ENUM;

// The try-construct code of UseDefault.
const USE_DEFAULT: usize = 0;

// The first literal, of the enum at `at`, with the default flag.
fn first_default(book: &[u8], at: usize) -> Option<usize>
    ensures { told book.now result ≡ first_default (type_at book.now at).members }
{
    for p in members(book, at) {
        if is_default(book, p) {
            return Some(p);
        }
    }
    None
}

// The value that stands for a discriminator of the type at `at` where its own selects nothing. The Rust's get_default_discriminator_value.
#[tactic(auto, using(book::proofs::Places::places_none, crate::proofs::Selection::value_zero))]
pub fn default_value(book: &[u8], at: usize) -> i32
    ensures { result ≡ default_value (type_at book.now at) }
{
    if book::types::kind(book, at) == ENUM {
        if let Some(p) = first_default(book, at) {
            return label(book, p, 0);
        }
        let mut literals = members(book, at);
        if let Some(first) = literals.next() {
            return label(book, first, 0);
        }
    }
    0
}

// The first member that holds the default value of the discriminator at p, where that is UseDefault.
fn by_default_value(types: &Types, at: usize, p: usize) -> Option<usize>
    ensures { told types.now.book.now result ≡ by_default_value (types_in types.now) (member_at types.now.book.now p) (type_at types.now.book.now at).members }
{
    if construct(types.book, p) == USE_DEFAULT {
        let q = types.member_place(p);
        return first_with(types.book, at, default_value(types.book, q));
    }
    None
}

// The member, of the union at `at` whose discriminator is at p, that the value d selects.
pub fn select(types: &Types, at: usize, p: usize, d: i32) -> Option<usize>
    ensures { told types.now.book.now result ≡ selected_of (types_in types.now) (member_at types.now.book.now p) (type_at types.now.book.now at).members d }
{
    if let Some(q) = first_with(types.book, at, d) {
        return Some(q);
    }
    if let Some(q) = last_default(types.book, at) {
        return Some(q);
    }
    by_default_value(types, at, p)
}
