// The calls for C and Rust: include/sinotayam.h declares them. A slice is a pointer and a length there. Nothing is required of any.
// Each is the call of the same name in the library sinotayam (src/c.rt), with its clauses.
#![tactic(auto)]

ghost use Rattle.std.specs.Prelude.{◌≡◌, not, eqb};
ghost use Rattle.book.specs.Fault.{fault_word, fault_of};
ghost use Rattle.table.specs.Rows.{capacity};
ghost use Rattle.fit.specs.Check.{check_of};
ghost use Rattle.sinotayam.specs.Answer.{mode_of, Returned, Tells};
ghost use Rattle.sinotayam.specs.Entry.{read_of};
ghost use Rattle.sinotayam.specs.Prepared.{prepare_of, prepared_from, read_prepared};
ghost use Rattle.sinotayam.specs.Text.{text_number};

use sinotayam::c;

#[unsafe(no_mangle)]
pub extern "C" fn sinotayam_read(
    book: &[u8],
    root: u16,
    message: &[u8],
    standard: u8,
    table: &mut [u64],
    position: &mut u64,
    need: &mut u64,
) -> u64
    ensures { Returned (read_of book.now root message.now (mode_of standard) (capacity table.old)) table.old table.new result × Tells (read_of book.now root message.now (mode_of standard) (capacity table.old)) position.new need.new }
{
    c::sinotayam_read(book, root, message, standard, table, position, need)
}

// What is wrong with a book: record * 256 + number, and 0 for a right one.
#[unsafe(no_mangle)]
pub extern "C" fn sinotayam_fault(book: &[u8]) -> u32
    ensures { result ≡ fault_word (fault_of book.now) }
{
    c::sinotayam_fault(book)
}

// The type check: 0, 17 to 23, 9 or 16. The last number: 0 for a type that is used with any encoding, anything else for one that is used with XCDR2 only.
#[unsafe(no_mangle)]
pub extern "C" fn sinotayam_check(book: &[u8], root: u16, only_xcdr2: u8) -> u8
    ensures { result ≡ check_of book.now root (not (eqb only_xcdr2 0)) }
{
    c::sinotayam_check(book, root, only_xcdr2)
}

#[unsafe(no_mangle)]
pub extern "C" fn sinotayam_prepare(book: &[u8], index: &mut [u32]) -> u8
    ensures { (result ≡ prepare_of book.now index.old) × (index.new ≡ prepared_from book.now index.old) }
{
    c::sinotayam_prepare(book, index)
}

#[unsafe(no_mangle)]
pub extern "C" fn sinotayam_read_prepared(
    book: &[u8],
    index: &[u32],
    root: u16,
    message: &[u8],
    standard: u8,
    table: &mut [u64],
    position: &mut u64,
    need: &mut u64,
) -> u64
    ensures { Returned (read_prepared book.now index.now root message.now (mode_of standard) (capacity table.old)) table.old table.new result × Tells (read_prepared book.now index.now root message.now (mode_of standard) (capacity table.old)) position.new need.new }
{
    c::sinotayam_read_prepared(book, index, root, message, standard, table, position, need)
}

#[unsafe(no_mangle)]
pub extern "C" fn sinotayam_text(table: &[u64], row: usize, s: &[u8]) -> u8
    ensures { result ≡ text_number table.now row s.now }
{
    c::sinotayam_text(table, row, s)
}
