// A book judged once, and its index, with which messages are read many times.
ghost use Rattle.std.specs.Prelude.{◌≡◌, ◌-◌, ◌≤◌, length, set, Ok};
ghost use Rattle.book.specs.Fault.{fault_of};
ghost use Rattle.sinotayam.specs.Answer.{code_of};
ghost use Rattle.sinotayam.specs.Prepared.{prepare_of, prepared_from, own_from, places_in, HeldIn};

use crate::answer::Status;
use book::fault::Fault;
use book::index::{Types, index};
use book::judge::{fault, judge_into};
use book::types::type_count;

// The words that the index of any book has room in.
pub const WORDS: usize = 65;

// Leaves an index of no types.
fn unprepared(lent: &mut [u32], status: Status) -> Status
    ensures { (result ≡ status) × (lent.new ≡ set lent.old 0 0) }
{
    if let Some(first) = lent.first_mut() {
        *first = 0;
    }
    status
}

// The index of a right book, or of no types where the list is too short.
#[tactic(auto, using(std::proofs::lemmas::Bool::Decides::nat_tests, book::proofs::Faults::told_nothing), unfolding(crate::specs::Prepared::prepare_of, crate::specs::Prepared::prepared_from, crate::specs::Prepared::has_places, crate::specs::Answer::code_of, book::specs::Fault::fault_number))]
fn places_of(book: &[u8], lent: &mut [u32]) -> Status
    requires { fault_of book.now ≡ Ok tt }
    ensures { (code_of result ≡ prepare_of book.now lent.old) × (lent.new ≡ prepared_from book.now lent.old) }
{
    let n = type_count(book);
    if lent.len() <= n {
        return unprepared(lent, Status::NoRoom);
    }
    index(book, &mut lent[1..]);
    lent[0] = n as u32;
    Status::Read
}

// Judges a book, and fills the lent index for `read_prepared`. A refused book, and an index that is too short, leave an index of no types,
// with which every reading is refused.
#[tactic(auto, using(std::proofs::lemmas::Bool::Decides::nat_tests, crate::proofs::Preparing::not_right), unfolding(crate::specs::Prepared::prepare_of, crate::specs::Prepared::prepared_from, crate::specs::Prepared::has_places, crate::specs::Answer::code_of, book::specs::Fault::fault_number))]
pub fn prepare(book: &[u8], lent: &mut [u32]) -> Status
    ensures { (code_of result ≡ prepare_of book.now lent.old) × (lent.new ≡ prepared_from book.now lent.old) }
{
    match fault(book) {
        Ok(()) => places_of(book, lent),
        Err(fault) => unprepared(lent, Status::BadBook(fault.reason)),
    }
}

// Judges a book for one reading alone. The index is the call's own, so the judge's places go into it before the verdict.
pub fn prepare_own(book: &[u8], own: &mut [u32; WORDS]) -> Result<(), Fault>
    ensures { (result ≡ fault_of book.now) × (own.new ≡ own_from book.now own.old) × (result ≡ Ok tt → own.new ≡ prepared_from book.now own.old) }
{
    judge_into(book, &mut own[1..])?;
    own[0] = type_count(book) as u32;
    Ok(())
}

// How many types an index holds: as many as it says, and no more than it has.
#[tactic(auto, using(std::proofs::lemmas::Bool::Decides::nat_tests), unfolding(crate::specs::Prepared::places_in))]
pub fn count(index: &[u32]) -> usize
    ensures { (result ≡ length (places_in index.now)) × (result ≤ length index.now - 1) }
{
    match index.split_first() {
        None => 0,
        Some((count, places)) => (*count as usize).min(places.len()),
    }
}

// The types that an index holds, if it holds any.
#[tactic(auto, using(std::proofs::lemmas::Bool::Decides::nat_tests), unfolding(crate::specs::Prepared::HeldIn))]
pub fn held<'a>(book: &'a [u8], index: &'a [u32]) -> Option<Types<'a>>
    ensures { HeldIn book.now index.now result }
{
    match count(index) {
        0 => None,
        n => Some(Types {
            book,
            index: &index[1..n + 1],
        }),
    }
}
