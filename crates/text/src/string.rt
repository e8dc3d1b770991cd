// Strings in the data: a length, then bytes or 16-bit units. They stay in the data; the answer says where: the start, how many bytes or units, and the cursor
// past them.
ghost use Rattle.std.specs.Prelude.{◌≡◌, ◌+◌, ◌≤◌, length};
ghost use Rattle.text.specs.Unicode.{utf8};
ghost use Rattle.text.specs.Text.{part, bytes_here, string_type, units_here, wstring_type};

use crate::utf16::State;
use crate::{utf8, utf16};
use wire::cursor::{Cursor, Unread};
use wire::reader::Reader;

// Whether the n bytes from `start` are well-formed.
pub fn is_text(s: &[u8], start: usize, n: usize) -> bool
    requires { start + n ≤ length s.now }
    ensures { result ≡ utf8 (part s.now start n) }
{
    utf8::is_utf8(&s[start..start + n])
}

// n bytes of text and the closing byte, from the cursor on. The text is judged last: a short one is short, whatever its bytes.
fn bytes_here(s: &[u8], at: Cursor, n: usize) -> Result<(usize, usize, Cursor), Unread>
    ensures { result ≡ bytes_here s.now at n }
{
    let closing = at.seek(s, n)?;
    let past = closing.seek(s, 1)?;
    if is_text(s, at.pos, n) {
        Ok((at.pos, n, past))
    } else {
        Err(Unread::Bad)
    }
}

// Serialization rule 3: STRING8.
#[tactic(auto, using(crate::proofs::Strings::string_short, crate::proofs::Strings::string_got))]
pub fn string_type(r: Reader, at: Cursor) -> Result<(usize, usize, Cursor), Unread>
    ensures { result ≡ string_type r.entry.bytes.now r.entry.set at }
{
    let (n, c) = r.read_number(at, 4)?;
    bytes_here(r.bytes, c, n.saturating_sub(1) as usize)
}

// n units of text from the cursor on. The check runs along and keeps a fault to itself until all units are read.
fn units_here(r: Reader, at: Cursor, n: usize) -> Result<(usize, usize, Cursor), Unread>
    ensures { result ≡ units_here r.entry.bytes.now r.entry.set at n }
{
    let mut c = at;
    let mut state = State::Whole;
    for _ in 0..n {
        let (u, d) = r.read_number(c, 2)?;
        state = utf16::next_unit(state, u as u16);
        c = d;
    }
    match state {
        State::Whole => Ok((at.pos, n, c)),
        State::Half => Err(Unread::Bad),
        State::Bad => Err(Unread::Bad),
    }
}

// Serialization rule 4: STRING16.
pub fn wstring_type(r: Reader, at: Cursor) -> Result<(usize, usize, Cursor), Unread>
    ensures { result ≡ wstring_type r.entry.bytes.now r.entry.set at }
{
    let (n, c) = r.read_number(at, 4)?;
    if n == 0 {
        return Ok((c.pos, 0, c));
    }
    if n % 2 == 1 {
        return Err(Unread::Bad);
    }
    units_here(r, c, (n / 2) as usize)
}
