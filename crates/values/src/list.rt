// Lists of values that open nothing.
ghost use Rattle.std.specs.Prelude.{◌≡◌};
ghost use Rattle.table.specs.Rows.{room};
ghost use Rattle.table.specs.Code.Outcome.{Done};
ghost use Rattle.values.specs.Scalar.{scalar_of};
ghost use Rattle.values.specs.List.{elements_from, list_of};
ghost use Rattle.values.specs.Code.Lists.{block_at, plain_of};
ghost use Rattle.values.specs.Code.Quick.{Quickly};

use crate::{quick, scalar};
use kinds::names::{BOOLEAN, FLOAT128, SEQUENCE, STRING8};
use table::out::{Out, Refusal, Trouble};
use table::rows::{Row, is_full, put_row};
use wire::cursor::{Cursor, Shortage};
use wire::reader::Reader;

// The quick way for a list's texts, booleans and FLOAT128s, which `numbers_at` does not take.
#[tactic(auto, using(crate::proofs::Quickly::quick_laws))]
fn element(r: Reader, t: &mut [u64], kind: u8, id: u64, at: Cursor, n: usize) -> Option<usize>
    ensures { Quickly (scalar_of r.entry.bytes.now r.entry.set kind id at (room t.old n)) 1 n at.origin t.old t.new result }
{
    if is_full(t, n) {
        return None;
    }
    match kind {
        STRING8 => quick::text_at(r, t, id, at, n),
        BOOLEAN => quick::boolean_at(r, t, id, at, n),
        FLOAT128 => quick::float128_at(r, t, id, at, n),
        _ => None,
    }
}

// The elements, one by one.
fn each(r: Reader, t: &mut [u64], kind: u8, count: u64, at: Cursor, n: usize) -> Out
    ensures { Done (elements_from r.entry.bytes.now r.entry.set kind count 0 at (room t.old n)) n t.old t.new result }
{
    let mut c = at;
    let mut m = n;
    for i in 0..count {
        if let Some(past) = element(r, t, kind, i, c, m) {
            c = Cursor::new(past, c.origin);
            m += 1;
            continue;
        }
        (c, m) = scalar::scalar(r, t, kind, i, c, m)?;
    }
    Ok((c, m))
}

// The elements: all at once where they are numbers that are there whole, else one by one.
fn elements(r: Reader, t: &mut [u64], kind: u8, count: u64, at: Cursor, n: usize) -> Out
    ensures { Done (elements_from r.entry.bytes.now r.entry.set kind count 0 at (room t.old n)) n t.old t.new result }
{
    if let Some(past) = quick::numbers_at(r, t, kind, count, at, n) {
        return Ok((Cursor::new(past, at.origin), n + (count as usize)));
    }
    each(r, t, kind, count, at, n)
}

// The list's row, then its elements.
fn list(r: Reader, t: &mut [u64], kind: u8, id: u64, count: u64, at: Cursor, n: usize) -> Out
    ensures { Done (list_of r.entry.bytes.now r.entry.set kind id count at (room t.old n)) n t.old t.new result }
{
    if is_full(t, n) {
        return Err(Trouble::Refused(Refusal::NoRoom));
    }
    let row = Row {
        kind: kinds::stored_of(SEQUENCE) as u64,
        id,
        a: kinds::stored_of(kind) as u64,
        b: count,
        place: at.pos as u64,
    };
    put_row(t, n, row);
    elements(r, t, kind, count, at, n + 1)
}

// The bytes of a list of BYTE or UINT8 are asked for in one block, before its row.
#[tactic(auto, using(std::proofs::lemmas::Bool::Decides::nat_tests), unfolding(crate::specs::Code::Lists::block_at))]
fn block(r: Reader, bytes: bool, count: u64, at: Cursor) -> Result<Cursor, Shortage>
    ensures { result ≡ block_at «bytes» r.entry.bytes.now at count }
{
    if bytes {
        return at.seek(r.bytes, count as usize);
    }
    Ok(at)
}

// A list by the kind that its elements are read as; `bytes` says whether their own kind is BYTE or UINT8. A bitmask that is read as UINT8 is no byte: its list
// asks for no block. There is one such function, and one place that calls it, so the compiler takes it in there.
#[tactic(auto, using(std::proofs::lemmas::Bool::Decides::nat_tests), unfolding(crate::specs::Code::Lists::plain_of, crate::specs::List::on_block))]
pub fn plain(
    r: Reader,
    t: &mut [u64],
    kind: u8,
    bytes: bool,
    id: u64,
    count: u64,
    at: Cursor,
    n: usize,
) -> Out
    ensures { Done (plain_of «bytes» r.entry.bytes.now r.entry.set kind id count at (room t.old n)) n t.old t.new result }
{
    block(r, bytes, count, at)?;
    list(r, t, kind, id, count, at, n)
}
