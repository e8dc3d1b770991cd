// Reading a message of a book's type into value rows. Nothing is required of a book, a root, a message or a table: every input has its
// answer, and the answer settles every word of the lent table.
#![tactic(auto)]

ghost use Rattle.book.specs.Places.{types_in};
ghost use Rattle.table.specs.Rows.{capacity};
ghost use Rattle.sinotayam.specs.Answer.{Settled};
ghost use Rattle.sinotayam.specs.Entry.{message_by, read_of, read_data_of};
ghost use Rattle.sinotayam.specs.Prepared.{read_prepared, read_data_prepared};

pub mod answer;
pub mod c;
pub mod prepared;
pub mod reading;
pub mod texts;

use crate::answer::{Answer, Status, refused, short};
use crate::prepared::{WORDS, held, prepare_own};
use crate::reading::{HEADER, LONGEST, data_by, identified};
use book::index::Types;
use wire::cursor::Told;
use wire::settings::Mode;

// A message of one of these types. The tests are not shared with `data_by`: but for the root's they are of other numbers, and their order is the document's.
#[tactic(auto, using(std::proofs::lemmas::Bool::Decides::nat_tests, crate::proofs::Entries::length_types), unfolding(crate::specs::Entry::message_by, crate::specs::Entry::refused_if, crate::specs::Entry::short_if))]
fn message_by(types: &Types, root: usize, message: &[u8], mode: Mode, table: &mut [u64]) -> Answer
    ensures { Settled (message_by (types_in types.now) root message.now mode (capacity table.old)) table.old table.new result }
{
    if types.index.len() <= root {
        return refused(table, Status::BadRoot);
    }
    if LONGEST < message.len() {
        return refused(table, Status::TooLong);
    }
    if message.len() < HEADER {
        let told = Told {
            position: 0,
            need: HEADER - message.len(),
        };
        return short(table, told);
    }
    let id = [message[0], message[1]];
    identified(types, root, id, &message[HEADER..], mode, table)
}

// Reads a message with an index that `prepare` made. The book is not judged again: of another index the answer is what the rules say of
// the types that it points to.
pub fn read_prepared(
    book: &[u8],
    index: &[u32],
    root: usize,
    message: &[u8],
    mode: Mode,
    table: &mut [u64],
) -> Answer
    ensures { Settled (read_prepared book.now index.now root message.now mode (capacity table.old)) table.old table.new result }
{
    let Some(types) = held(book, index) else {
        return refused(table, Status::NotPrepared);
    };
    message_by(&types, root, message, mode, table)
}

pub fn read_data_prepared(
    book: &[u8],
    index: &[u32],
    root: usize,
    id: [u8; 2],
    s: &[u8],
    mode: Mode,
    table: &mut [u64],
) -> Answer
    ensures { Settled (read_data_prepared book.now index.now root id s.now mode (capacity table.old)) table.old table.new result }
{
    let Some(types) = held(book, index) else {
        return refused(table, Status::NotPrepared);
    };
    data_by(&types, root, id, s, mode, table)
}

// Reads a message: the Rust's deserialize_top_level_type.
pub fn read(book: &[u8], root: usize, message: &[u8], mode: Mode, table: &mut [u64]) -> Answer
    ensures { Settled (read_of book.now root message.now mode (capacity table.old)) table.old table.new result }
{
    let mut index = [0u32; WORDS];
    match prepare_own(book, &mut index) {
        Ok(()) => read_prepared(book, &index, root, message, mode, table),
        Err(fault) => refused(table, Status::BadBook(fault.reason)),
    }
}

// Reads data whose identifier is known: the Rust's deserialize_top_level_type_from_representation_identifier.
pub fn read_data(
    book: &[u8],
    root: usize,
    id: [u8; 2],
    s: &[u8],
    mode: Mode,
    table: &mut [u64],
) -> Answer
    ensures { Settled (read_data_of book.now root id s.now mode (capacity table.old)) table.old table.new result }
{
    let mut index = [0u32; WORDS];
    match prepare_own(book, &mut index) {
        Ok(()) => read_data_prepared(book, &index, root, id, s, mode, table),
        Err(fault) => refused(table, Status::BadBook(fault.reason)),
    }
}
