// One value that opens nothing: it is read, judged, and then given its row.
ghost use Rattle.std.specs.Prelude.{◌≡◌, ◌≤◌, ◌<◌, ◌^◌};
ghost use Rattle.kinds.specs.Kinds.{align_of, stored_of};
ghost use Rattle.table.specs.Rows.{room};
ghost use Rattle.table.specs.Code.Outcome.{Done};
ghost use Rattle.wire.specs.Number.{read_boolean, read_float128, read_number};
ghost use Rattle.values.specs.Scalar.{rowed, on_boolean, on_float128, word_of, on_number, on_text, scalar_of, enum_of};

use kinds::names::{BOOLEAN, CHAR16, FLOAT128, INT8, INT16, INT32, STRING8, STRING16};
use kinds::widths;
use table::out::{Out, Refusal, Trouble};
use table::rows::{Row, is_full, put_row};
use text::string::{string_type, wstring_type};
use wire::cursor::{Cursor, Unread};
use wire::reader::Reader;

// The bytes of a text's length.
const LENGTH: usize = 4;

// The row of a value that was read, if it has a place.
fn give_row(t: &mut [u64], n: usize, c: Cursor, r: Row) -> Out
    ensures { Done (rowed (room t.old n) c r) n t.old t.new result }
{
    if is_full(t, n) {
        return Err(Trouble::Refused(Refusal::NoRoom));
    }
    put_row(t, n, r);
    Ok((c, n + 1))
}

// What was read ends where the reading then stands, so its place is so many bytes before; and so of the other values.
fn boolean(r: Reader, t: &mut [u64], id: u64, at: Cursor, n: usize) -> Out
    ensures { Done (on_boolean id (room t.old n) (read_boolean r.entry.bytes.now r.entry.set at)) n t.old t.new result }
{
    let (v, c) = r.read_boolean(at)?;
    let row = Row {
        kind: kinds::stored_of(BOOLEAN) as u64,
        id,
        a: u64::from(v),
        b: 0,
        place: c.pos.saturating_sub(widths::BOOLEAN) as u64,
    };
    give_row(t, n, c, row)
}

fn float128(r: Reader, t: &mut [u64], id: u64, at: Cursor, n: usize) -> Out
    ensures { Done (on_float128 id (room t.old n) (read_float128 r.entry.bytes.now r.entry.set at)) n t.old t.new result }
{
    let (low, high, c) = r.read_float128(at)?;
    let row = Row {
        kind: kinds::stored_of(FLOAT128) as u64,
        id,
        a: low,
        b: high,
        place: c.pos.saturating_sub(widths::FLOAT128) as u64,
    };
    give_row(t, n, c, row)
}

// The word of a number that was read: a signed one is extended.
#[tactic(auto, using(std::proofs::lemmas::Bool::Decides::nat_tests), unfolding(crate::specs::Scalar::word_of))]
pub fn word_of(kind: u8, width: usize, v: u64) -> u64
    requires { (width ≡ align_of kind) × (0 < width) × (width ≤ 8) × (v < 256 ^ width) }
    ensures { result ≡ word_of kind v }
{
    if kinds::is_signed(kind) {
        return wire::signed::extend(v, width);
    }
    v
}

fn number(r: Reader, t: &mut [u64], kind: u8, id: u64, at: Cursor, n: usize) -> Out
    requires { (0 < align_of kind) × (align_of kind ≤ 8) }
    ensures { Done (on_number kind id (room t.old n) (read_number r.entry.bytes.now r.entry.set at (align_of kind))) n t.old t.new result }
{
    let width = kinds::align_of(kind) as usize;
    let (v, c) = r.read_number(at, width)?;
    let row = Row {
        kind: kinds::stored_of(kind) as u64,
        id,
        a: word_of(kind, width, v),
        b: 0,
        place: c.pos.saturating_sub(width) as u64,
    };
    give_row(t, n, c, row)
}

// The row of a text that was read: where it stands in the data, and how long it is.
fn text_row(
    t: &mut [u64],
    id: u64,
    n: usize,
    kind: u8,
    got: Result<(usize, usize, Cursor), Unread>,
) -> Out
    ensures { Done (on_text (stored_of kind) id (room t.old n) got) n t.old t.new result }
{
    let (start, size, c) = got?;
    let row = Row {
        kind: kinds::stored_of(kind) as u64,
        id,
        a: start as u64,
        b: size as u64,
        place: start.saturating_sub(LENGTH) as u64,
    };
    give_row(t, n, c, row)
}

// A value by its kind: a number, a boolean or a text. CHAR16 and all that is none of these is unsupported.
pub fn scalar(r: Reader, t: &mut [u64], kind: u8, id: u64, at: Cursor, n: usize) -> Out
    ensures { Done (scalar_of r.entry.bytes.now r.entry.set kind id at (room t.old n)) n t.old t.new result }
{
    match kind {
        BOOLEAN => boolean(r, t, id, at, n),
        FLOAT128 => float128(r, t, id, at, n),
        CHAR16 => Err(Trouble::Refused(Refusal::Unsupported)),
        STRING8 => text_row(t, id, n, STRING8, string_type(r, at)),
        STRING16 => text_row(t, id, n, STRING16, wstring_type(r, at)),
        _ => {
            if kinds::is_primitive(kind) {
                return number(r, t, kind, id, at, n);
            }
            Err(Trouble::Refused(Refusal::Unsupported))
        }
    }
}

// Serialization rule 5: the value of an enum, of its base kind.
#[tactic(auto, using(std::proofs::lemmas::Bool::Decides::nat_tests, crate::proofs::Scalars::enum_none), unfolding(crate::specs::Scalar::enum_of))]
pub fn enum_type(r: Reader, t: &mut [u64], base: u8, at: Cursor, n: usize) -> Out
    ensures { Done (enum_of r.entry.bytes.now r.entry.set base at (room t.old n)) n t.old t.new result }
{
    match base {
        INT16 | INT32 | INT8 => scalar(r, t, base, 0, at, n),
        _ => Err(Trouble::Refused(Refusal::Unsupported)),
    }
}
