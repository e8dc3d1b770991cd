// What the calls for C and Rust do: crate sinotayam_c exports each under its name here, with the clauses that stand here, and
// include/sinotayam.h declares them. Nothing is required of any. A reading call is lent two words, for what is told of a shortage.
ghost use Rattle.std.specs.Prelude.{◌≡◌, not, eqb};
ghost use Rattle.book.specs.Fault.{fault_word, fault_of};
ghost use Rattle.table.specs.Rows.{capacity};
ghost use Rattle.fit.specs.Check.{check_of};
ghost use Rattle.sinotayam.specs.Answer.{code_of, mode_of, packed, Returned, Tells};
ghost use Rattle.sinotayam.specs.Entry.{read_of};
ghost use Rattle.sinotayam.specs.Prepared.{prepare_of, prepared_from, read_prepared};
ghost use Rattle.sinotayam.specs.Text.{text_number};

use crate::answer::Answer;
use crate::prepared::prepare;
use crate::texts::text_status;
use crate::{read, read_prepared};
use book::judge::fault;
use wire::settings::Mode;

// 2 to the 56th: beside the number's byte a word has 56 bits for the count of rows.
const COUNTS: u64 = 72057594037927936;

// The number and the count of rows in one word, which is what a C call hands back.
fn pack(a: Answer) -> u64
    ensures { result ≡ packed (code_of a.status) a.rows }
{
    a.rows as u64 % COUNTS * 256 + u64::from(a.status.code())
}

// The mode by its number: 0 is the crate's, anything else the standard's.
#[tactic(auto, using(std::proofs::lemmas::Bool::Decides::nat_tests), unfolding(crate::specs::Answer::mode_of))]
fn mode_of(standard: u8) -> Mode
    ensures { result ≡ mode_of standard }
{
    match standard {
        0 => Mode::Crate,
        _ => Mode::Standard,
    }
}

pub fn sinotayam_read(
    book: &[u8],
    root: u16,
    message: &[u8],
    standard: u8,
    table: &mut [u64],
    position: &mut u64,
    need: &mut u64,
) -> u64
    ensures { Returned (read_of book.now root message.now (mode_of standard) (capacity table.old)) table.old table.new result × Tells (read_of book.now root message.now (mode_of standard) (capacity table.old)) position.new need.new }
{
    let mode = mode_of(standard);
    let a = read(book, root as usize, message, mode, table);
    *position = a.told.position as u64;
    *need = a.told.need as u64;
    pack(a)
}

// What is wrong with a book: record * 256 + number, and 0 for a right one.
#[tactic(auto, using(std::proofs::lemmas::Bool::Decides::nat_tests), unfolding(book::specs::Fault::fault_word))]
pub fn sinotayam_fault(book: &[u8]) -> u32
    ensures { result ≡ fault_word (fault_of book.now) }
{
    match fault(book) {
        Ok(()) => 0,
        Err(fault) => (fault.at * 256 + usize::from(fault.number())) as u32,
    }
}

// The type check: 0, 17 to 23, 9 or 16. The last number: 0 for a type that is used with any encoding, anything else for one that is used with XCDR2 only.
pub fn sinotayam_check(book: &[u8], root: u16, only_xcdr2: u8) -> u8
    ensures { result ≡ check_of book.now root (not (eqb only_xcdr2 0)) }
{
    fit::check(book, root as usize, only_xcdr2 != 0)
}

pub fn sinotayam_prepare(book: &[u8], index: &mut [u32]) -> u8
    ensures { (result ≡ prepare_of book.now index.old) × (index.new ≡ prepared_from book.now index.old) }
{
    prepare(book, index).code()
}

pub fn sinotayam_read_prepared(
    book: &[u8],
    index: &[u32],
    root: u16,
    message: &[u8],
    standard: u8,
    table: &mut [u64],
    position: &mut u64,
    need: &mut u64,
) -> u64
    ensures { Returned (read_prepared book.now index.now root message.now (mode_of standard) (capacity table.old)) table.old table.new result × Tells (read_prepared book.now index.now root message.now (mode_of standard) (capacity table.old)) position.new need.new }
{
    let mode = mode_of(standard);
    let a = read_prepared(book, index, root as usize, message, mode, table);
    *position = a.told.position as u64;
    *need = a.told.need as u64;
    pack(a)
}

pub fn sinotayam_text(table: &[u64], row: usize, s: &[u8]) -> u8
    ensures { result ≡ text_number table.now row s.now }
{
    text_status(table, row, s).code()
}
