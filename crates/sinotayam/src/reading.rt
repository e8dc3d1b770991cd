// Reading data by the places of a book's types.
ghost use Rattle.std.specs.Prelude.{get_or};
ghost use Rattle.wire.specs.Identifier.{settings_of};
ghost use Rattle.book.specs.Places.{types_in};
ghost use Rattle.reader.specs.Nested.{reading};
ghost use Rattle.table.specs.Rows.{capacity};
ghost use Rattle.sinotayam.specs.Answer.{result_of, Settled};
ghost use Rattle.sinotayam.specs.Entry.{by_identifier, data_by};

use crate::answer::{Answer, NOTHING, Status, refused, short};
use book::index::Types;
use reader::Deserializer;
use table::out::Trouble;
use table::rows::clear_after;
use wire::reader::Reader;
use wire::settings::{Mode, settings_of};

// The longest message.
pub const LONGEST: usize = 65536;

// The bytes before a message's data: its identifier and its options.
pub const HEADER: usize = 4;

// Reads one value of a type from the whole data: the rows, and zeros after the last.
fn data_as(from: Deserializer, root: usize, table: &mut [u64]) -> Answer
    ensures { Settled (result_of (reading (types_in from.entry.types) from.entry.reader.bytes.now from.entry.reader.set root (capacity table.old))) table.old table.new result }
{
    match from.top_level_type(table, root) {
        Ok((_, rows)) => {
            clear_after(table, rows);
            Answer {
                status: Status::Read,
                rows,
                told: NOTHING,
            }
        }
        Err(Trouble::Short(x)) => short(table, x.told),
        Err(Trouble::Refused(k)) => refused(table, k.into()),
    }
}

// By the identifier: unknown, or the reading.
#[tactic(auto, using(std::proofs::lemmas::Bool::Decides::nat_tests), unfolding(crate::specs::Entry::by_identifier))]
pub fn identified(
    types: &Types,
    root: usize,
    id: [u8; 2],
    s: &[u8],
    mode: Mode,
    table: &mut [u64],
) -> Answer
    ensures { Settled (by_identifier (types_in types.now) root s.now (capacity table.old) (settings_of mode (get_or id 0 0) (get_or id 1 0))) table.old table.new result }
{
    let Some(set) = settings_of(id, mode) else {
        return refused(table, Status::InvalidData);
    };
    let from = Deserializer {
        types: *types,
        reader: Reader { bytes: s, set },
    };
    data_as(from, root, table)
}

// Data whose identifier is known, of one of these types.
#[tactic(auto, using(std::proofs::lemmas::Bool::Decides::nat_tests, crate::proofs::Entries::length_types), unfolding(crate::specs::Entry::data_by, crate::specs::Entry::refused_if))]
pub fn data_by(
    types: &Types,
    root: usize,
    id: [u8; 2],
    s: &[u8],
    mode: Mode,
    table: &mut [u64],
) -> Answer
    ensures { Settled (data_by (types_in types.now) root id s.now mode (capacity table.old)) table.old table.new result }
{
    if types.index.len() <= root {
        return refused(table, Status::BadRoot);
    }
    if LONGEST - HEADER < s.len() {
        return refused(table, Status::TooLong);
    }
    identified(types, root, id, s, mode, table)
}
