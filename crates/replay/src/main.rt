// Reads a list from standard input and prints the answer and the rows of each entry. It reads an entry at a time: an array for the whole list
// is longer than the checker follows. An entry is the mode, a byte (0 the crate's, 1 the standard's; 2 and 3 are these, with a line more for what
// is told of answer 1), the number of rows of the table, u16, and a case as `rows` takes it: the book, the root, the message's length, the
// message. A message that `rows` would not take is read here too, and answered.
// The stored list begins with 200 messages of Cyclone DDS and Fast-CDR, whose rows are known from the samples that they wrote: 102 entries in
// the crate's mode, and all 200 in the standard's. The entries after them, and what is said of them, `compare/sample` wrote (no words after it)
// from the crate dust_dds and from the rules in plain Rust; the port took no part in it.
#![tactic(auto)]

use book::bytes::{byte_at, pair_at, quad_at};
use cases::input::read_full;
use std::io::Read;
use table::rows::WIDTH;
use wire::settings::Mode;

// The longest entry: a book of 65,536 bytes and a message of one more, and nine bytes.
const LONGEST: usize = 131082;

// 2,048 rows: the largest table of an entry.
const WORDS: usize = 10240;

// The most entries of a list.
const ENTRIES: usize = 100000;

// How an entry is read, and whether what is told of answer 1 is a line more.
#[derive(Clone, Copy)]
struct Manner {
    mode: Mode,
    tells: bool,
}

fn manner_of(byte: u8) -> Manner {
    let mode = match byte {
        0 | 2 => Mode::Crate,
        _ => Mode::Standard,
    };
    Manner {
        mode,
        tells: 2 <= byte,
    }
}

// Fills the part; None where the input ends before.
fn fill(from: &mut impl Read, part: &mut [u8]) -> Option<()> {
    if read_full(from, part) < part.len() {
        return None;
    }
    Some(())
}

fn say(
    rt: &impl Print,
    book: &[u8],
    root: usize,
    message: &[u8],
    manner: Manner,
    table: &mut [u64],
) {
    let a = sinotayam::read(book, root, message, manner.mode, table);
    cases::lines::answer(rt, a, table);
    // The need is over 0 where the answer is 1, and else 0.
    if manner.tells & (0 < a.told.need) {
        cases::lines::told(rt, a.told);
    }
}

// Reads the rest of the entry whose first seven bytes stand in buf, and its message with the first rows of the table; None where it is no whole entry, or
// the table has fewer rows.
fn entry(rt: &impl Print, from: &mut impl Read, buf: &mut [u8], table: &mut [u64]) -> Option<()> {
    let manner = manner_of(byte_at(buf, 0, 0) as u8);
    let rows = pair_at(buf, 1, 0);
    let book = quad_at(buf, 3, 0) as usize + 3;
    let start = book + 6;
    fill(from, buf.get_mut(7..start)?)?;
    let root = pair_at(buf, book, 0);
    let end = quad_at(buf, book, 2) as usize + start;
    fill(from, buf.get_mut(start..end)?)?;
    let part = table.get_mut(..rows * WIDTH)?;
    say(rt, &buf[3..book], root, &buf[start..end], manner, part);
    Some(())
}

// Reads one entry, if there is one more; false where the list is at its end, or has no whole entry there.
fn next(rt: &impl Print, from: &mut impl Read, buf: &mut [u8], table: &mut [u64]) -> bool {
    let Some(first) = buf.get_mut(..7) else {
        return false;
    };
    if read_full(from, first) == 0 {
        return false;
    }
    if entry(rt, from, buf, table).is_some() {
        return true;
    }
    let _ = rt.write_all(b"input\n");
    false
}

fn all(rt: &impl Print, from: &mut impl Read, buf: &mut [u8], table: &mut [u64]) {
    for _ in 0..ENTRIES {
        if !next(rt, from, buf, table) {
            return;
        }
    }
}

fn main(rt: HostRuntime) {
    let mut buf = [0u8; LONGEST];
    let mut table = [0u64; WORDS];
    all(&rt, &mut rt.stdin(), &mut buf, &mut table);
}
