// The quick way: numbers, booleans and texts that are there whole, and whose rows have a place; of FLOAT128s those of a list alone. Most members and elements are such. It reads by the same
// rules as `scalar`, and leaves to that whatever it does not take. A function here tells the position after what it took; or None, and nothing is done.
// The laws of the quick way close what is asked of its functions, most of them without an answer.
#![tactic(auto, using(crate::proofs::Quickly::quick_laws), unfolding(crate::specs::Code::Quick::is_number, crate::specs::Code::Quick::is_taken))]

ghost use Rattle.std.specs.Prelude.{◌≡◌, ℕ, Some, Bool, true, false, ◌+◌, ◌*◌, ◌≤◌, ◌<◌, length};
ghost use Rattle.kinds.specs.Kinds.{align_of, stored_of};
ghost use Rattle.table.specs.Rows.{capacity, room, row_at, no_room};
ghost use Rattle.table.specs.Code.Rows.{Filled};
ghost use Rattle.values.specs.Scalar.{scalar_of};
ghost use Rattle.values.specs.List.{elements_from};
ghost use Rattle.values.specs.Code.Lists.{plain_of};
ghost use Rattle.values.specs.Code.Quick.{is_number, is_taken, Quickly, rows_from, WhereThere};

use crate::scalar::word_of;
use kinds::names::{
    BOOLEAN, BYTE, CHAR8, FLOAT32, FLOAT64, INT8, INT16, INT32, INT64, SEQUENCE, STRING8, UINT8,
    UINT16, UINT32, UINT64,
};
use kinds::{stored, widths};
use table::rows::{Row, is_full, put_row};
use text::string::is_text;
use wire::cursor::Cursor;
use wire::number::from_bytes;
use wire::reader::Reader;

// The numbers of up to 8 bytes; a boolean is judged, and CHAR16 is unsupported.
#[tactic(auto, using(std::proofs::lemmas::Bool::Decides::nat_tests), unfolding(crate::specs::Code::Quick::is_number))]
fn is_number(kind: u8) -> bool
    ensures { result ≡ is_number kind }
{
    matches!(kind, BYTE..=FLOAT64 | INT8..=CHAR8)
}

// A number and its row. The width and the row's kind come from the caller: where it knows them when this is compiled, the machine's code is short.
fn any_number_at(
    r: Reader,
    t: &mut [u64],
    kind: u8,
    stored: u64,
    width: usize,
    id: u64,
    at: Cursor,
    n: usize,
) -> Option<usize>
    requires { (no_room t.old n ≡ false) × (is_number kind ≡ true) × (stored ≡ stored_of kind) × (width ≡ align_of kind) }
    ensures { Quickly (scalar_of r.entry.bytes.now r.entry.set kind id at (room t.old n)) 1 n at.origin t.old t.new result }
{
    let q = at.start(r.bytes, r.set.version, width);
    if r.bytes.len() < q + width {
        return None;
    }
    let v = from_bytes(r.bytes, r.set.order, q, width);
    let row = Row {
        kind: stored,
        id,
        a: word_of(kind, width, v),
        b: 0,
        place: q as u64,
    };
    put_row(t, n, row);
    Some(q + width)
}

// A number of a kind that is known when this is compiled, and so are its width and its row's kind, which the table says.
fn number_at<const KIND: u8>(
    r: Reader,
    t: &mut [u64],
    id: u64,
    at: Cursor,
    n: usize,
) -> Option<usize>
    requires { (no_room t.old n ≡ false) × (is_number KIND ≡ true) }
    ensures { Quickly (scalar_of r.entry.bytes.now r.entry.set KIND id at (room t.old n)) 1 n at.origin t.old t.new result }
{
    let row_kind = u64::from(kinds::stored_of(KIND));
    let width = usize::from(kinds::align_of(KIND));
    any_number_at(r, t, KIND, row_kind, width, id, at, n)
}

// A boolean, where it is 0 or 1.
pub fn boolean_at(r: Reader, t: &mut [u64], id: u64, at: Cursor, n: usize) -> Option<usize>
    requires { no_room t.old n ≡ false }
    ensures { Quickly (scalar_of r.entry.bytes.now r.entry.set 1 id at (room t.old n)) 1 n at.origin t.old t.new result }
{
    let q = at.start(r.bytes, r.set.version, widths::BOOLEAN);
    if r.bytes.len() < q + widths::BOOLEAN {
        return None;
    }
    let v = from_bytes(r.bytes, r.set.order, q, widths::BOOLEAN);
    if 1 < v {
        return None;
    }
    let row = Row {
        kind: stored::BOOLEAN,
        id,
        a: v,
        b: 0,
        place: q as u64,
    };
    put_row(t, n, row);
    Some(q + widths::BOOLEAN)
}

// A FLOAT128.
pub fn float128_at(r: Reader, t: &mut [u64], id: u64, at: Cursor, n: usize) -> Option<usize>
    requires { no_room t.old n ≡ false }
    ensures { Quickly (scalar_of r.entry.bytes.now r.entry.set 11 id at (room t.old n)) 1 n at.origin t.old t.new result }
{
    let Ok((low, high, past)) = r.read_float128(at) else {
        return None;
    };
    let row = Row {
        kind: stored::FLOAT128,
        id,
        a: low,
        b: high,
        place: past.pos.saturating_sub(widths::FLOAT128) as u64,
    };
    put_row(t, n, row);
    Some(past.pos)
}

// A text, where it is well-formed.
pub fn text_at(r: Reader, t: &mut [u64], id: u64, at: Cursor, n: usize) -> Option<usize>
    requires { no_room t.old n ≡ false }
    ensures { Quickly (scalar_of r.entry.bytes.now r.entry.set 16 id at (room t.old n)) 1 n at.origin t.old t.new result }
{
    let q = at.start(r.bytes, r.set.version, 4);
    if r.bytes.len() < q + 4 {
        return None;
    }
    let size = from_bytes(r.bytes, r.set.order, q, 4) as usize;
    let start = q + 4;
    if size == 0 {
        return None;
    }
    if r.bytes.len() - start < size {
        return None;
    }
    if !is_text(r.bytes, start, size - 1) {
        return None;
    }
    let row = Row {
        kind: stored::STRING8,
        id,
        a: start as u64,
        b: (size - 1) as u64,
        place: q as u64,
    };
    put_row(t, n, row);
    Some(start + size)
}

// A value of this kind. In an arm the kind is known, and so are its width and its row's kind, which the table says: looked up when this is compiled, they cost
// nothing, and a number is taken with two thirds of the instructions that four arms by width would take, each look-up made anew. The hint has the compiler take it
// into each loop of members: a call for each member would cost as much as the member.
#[inline(always)]
pub fn value_at(r: Reader, t: &mut [u64], kind: u8, id: u64, at: Cursor, n: usize) -> Option<usize>
    ensures { Quickly (scalar_of r.entry.bytes.now r.entry.set kind id at (room t.old n)) 1 n at.origin t.old t.new result × ((p : ℕ) → result ≡ Some p → is_taken kind ≡ true) }
{
    if is_full(t, n) {
        return None;
    }
    match kind {
        BOOLEAN => boolean_at(r, t, id, at, n),
        BYTE => number_at::<BYTE>(r, t, id, at, n),
        INT16 => number_at::<INT16>(r, t, id, at, n),
        INT32 => number_at::<INT32>(r, t, id, at, n),
        INT64 => number_at::<INT64>(r, t, id, at, n),
        UINT16 => number_at::<UINT16>(r, t, id, at, n),
        UINT32 => number_at::<UINT32>(r, t, id, at, n),
        UINT64 => number_at::<UINT64>(r, t, id, at, n),
        FLOAT32 => number_at::<FLOAT32>(r, t, id, at, n),
        FLOAT64 => number_at::<FLOAT64>(r, t, id, at, n),
        INT8 => number_at::<INT8>(r, t, id, at, n),
        UINT8 => number_at::<UINT8>(r, t, id, at, n),
        CHAR8 => number_at::<CHAR8>(r, t, id, at, n),
        STRING8 => text_at(r, t, id, at, n),
        _ => None,
    }
}

// The same by three arms, with the entries of a number's kind looked up as it runs: for what the members' loops do not take, an optional member or one that a
// union selects.
pub fn any_at(r: Reader, t: &mut [u64], kind: u8, id: u64, at: Cursor, n: usize) -> Option<usize>
    ensures quickly { Quickly (scalar_of r.entry.bytes.now r.entry.set kind id at (room t.old n)) 1 n at.origin t.old t.new result }
    ensures taken { (p : ℕ) → result ≡ Some p → is_taken kind ≡ true }
{
    if is_full(t, n) {
        return None;
    }
    match kind {
        BOOLEAN => boolean_at(r, t, id, at, n),
        STRING8 => text_at(r, t, id, at, n),
        _ => {
            if is_number(kind) {
                let row_kind = kinds::stored_of(kind) as u64;
                let own_width = kinds::align_of(kind) as usize;
                return any_number_at(r, t, kind, row_kind, own_width, id, at, n);
            }
            None
        }
    }
}

// The rows of a list's numbers. Nothing is asked in the loop, so the machine may take several at once.
#[tactic(auto, using(crate::proofs::Quickly::quick_laws, crate::proofs::Runs::fill_laws))]
fn fill(
    r: Reader,
    t: &mut [u64],
    kind: u8,
    stored: u64,
    width: usize,
    count: usize,
    pos: usize,
    n: usize,
)
    requires { (is_number kind ≡ true) × (stored ≡ stored_of kind) × (width ≡ align_of kind) × (pos + count * width ≤ length r.bytes.now) × (n + count ≤ capacity t.old) }
    ensures { Filled t.old t.new n (rows_from r.entry.bytes.now r.entry.set.order kind count 0 pos) }
{
    for i in 0..count {
        let p = pos + i * width;
        let v = from_bytes(r.bytes, r.set.order, p, width);
        let row = Row {
            kind: stored,
            id: i as u64,
            a: word_of(kind, width, v),
            b: 0,
            place: p as u64,
        };
        put_row(t, n + i, row);
    }
}

// By a width that is known, the machine's code for the loop is short.
#[tactic(auto, using(crate::proofs::Runs::width_laws))]
fn fill_by_width(
    r: Reader,
    t: &mut [u64],
    kind: u8,
    stored: u64,
    width: usize,
    count: usize,
    pos: usize,
    n: usize,
)
    requires { (is_number kind ≡ true) × (stored ≡ stored_of kind) × (width ≡ align_of kind) × (pos + count * width ≤ length r.bytes.now) × (n + count ≤ capacity t.old) }
    ensures { Filled t.old t.new n (rows_from r.entry.bytes.now r.entry.set.order kind count 0 pos) }
{
    match width {
        1 => fill(r, t, kind, stored, 1, count, pos, n),
        2 => fill(r, t, kind, stored, 2, count, pos, n),
        4 => fill(r, t, kind, stored, 4, count, pos, n),
        _ => fill(r, t, kind, stored, width, count, pos, n),
    }
}

// The position after `count` numbers from pos on, where the data has them and the table a place for their rows; else None.
#[tactic(auto, using(crate::proofs::Runs::there_laws))]
fn end_of(r: Reader, t: &[u64], width: usize, count: u64, pos: usize, n: usize) -> Option<usize>
    requires { (0 < width) × (width ≤ 8) }
    ensures { WhereThere r.entry.bytes.now t.now width count pos n result }
{
    let rows = t.len() / table::rows::WIDTH;
    let end = r.bytes.len();
    if (count == 0) | (0xFFFF_FFFF < count) {
        return None;
    }
    if end < pos {
        return None;
    }
    if rows < n {
        return None;
    }
    let k = count as usize;
    if end - pos < k * width {
        return None;
    }
    if rows - n < k {
        return None;
    }
    Some(pos + k * width)
}

// The numbers of a whole list; of an empty one whatever they would be.
pub fn numbers_at(
    r: Reader,
    t: &mut [u64],
    kind: u8,
    count: u64,
    at: Cursor,
    n: usize,
) -> Option<usize>
    ensures { Quickly (elements_from r.entry.bytes.now r.entry.set kind count 0 at (room t.old n)) count n at.origin t.old t.new result }
{
    if count == 0 {
        return Some(at.pos);
    }
    if !is_number(kind) {
        return None;
    }
    if at.pos < at.origin {
        return None;
    }
    let width = kinds::align_of(kind) as usize;
    let stored = kinds::stored_of(kind) as u64;
    let Ok(c) = at.align(r.bytes, r.set.version, width) else {
        return None;
    };
    let end = end_of(r, t, width, count, c.pos, n)?;
    fill_by_width(r, t, kind, stored, width, count as usize, c.pos, n);
    Some(end)
}

// A list: its row, once its numbers have theirs. A number has a byte at least, so where the data has fewer bytes it has not all of them; and the block that is
// asked for before a list of bytes is there.
pub fn list_at(
    r: Reader,
    t: &mut [u64],
    kind: u8,
    id: u64,
    count: u64,
    at: Cursor,
    n: usize,
) -> Option<usize>
    ensures { ((bytes : Bool) → Quickly (plain_of bytes r.entry.bytes.now r.entry.set kind id count at (room t.old n)) (1 + count) n at.origin t.old t.new result) × ((p : ℕ) → result ≡ Some p → (row_at t.new n).b ≡ count) }
{
    let from = at.pos;
    let end = r.bytes.len();
    if is_full(t, n) {
        return None;
    }
    if end < from {
        return None;
    }
    if ((end - from) as u64) < count {
        return None;
    }
    let past = numbers_at(r, t, kind, count, at, n + 1)?;
    let row = Row {
        kind: kinds::stored_of(SEQUENCE) as u64,
        id,
        a: kinds::stored_of(kind) as u64,
        b: count,
        place: from as u64,
    };
    put_row(t, n, row);
    Some(past)
}
