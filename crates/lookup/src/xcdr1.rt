// The search of XCDR1: headers of an id and a length, 16 bits each, up to an end marker.
ghost use Rattle.std.specs.Prelude.{◌≡◌};
ghost use Rattle.lookup.specs.Xcdr1.{id_of, header_at, turn_at, seek_to_pid, seek_to_sentinel};

use crate::search::{past_value, seek_by};
use std::ops::ControlFlow;
use wire::cursor::{Cursor, Shortage};
use wire::reader::Reader;

pub const PID_LIST_END: u64 = 0x3F02;

// The id without its two flags.
pub fn id(word: u64) -> u64
    ensures { result ≡ id_of word }
{
    word % 0x4000
}

// The id, the length, and the cursor after both.
#[tactic(auto, using(std::proofs::lemmas::Bool::Decides::nat_tests), unfolding(crate::specs::Xcdr1::header_at, wire::specs::Number::after_number))]
fn read_header(r: Reader, at: Cursor) -> Result<(u64, u64, Cursor), Shortage>
    ensures { result ≡ header_at r.entry.bytes.now r.entry.set at }
{
    let (word, c) = r.read_number(at, 2)?;
    let (length, d) = r.read_number(c, 2)?;
    Ok((id(word), length, d))
}

// One header. With another length than 0 the marker is a header as any other.
#[tactic(auto, using(std::proofs::lemmas::Bool::Decides::nat_tests), unfolding(crate::specs::Xcdr1::turn_at, crate::specs::Xcdr1::on_header, crate::specs::Xcdr1::verdict))]
fn turn(
    r: Reader,
    pid: u32,
    at: Cursor,
) -> Result<ControlFlow<Option<(u64, Cursor)>, Cursor>, Shortage>
    ensures { result ≡ turn_at r.entry.bytes.now r.entry.set pid at }
{
    let wanted = u64::from(pid);
    let (pid_here, length, c) = read_header(r, at)?;
    if (pid_here == PID_LIST_END) & (length == 0) {
        if wanted == PID_LIST_END {
            return Ok(ControlFlow::Break(Some((0, c))));
        }
        return Ok(ControlFlow::Break(None));
    }
    if pid_here == wanted % 0x1_0000 {
        return Ok(ControlFlow::Break(Some((length, c))));
    }
    let next = past_value(r, c, length)?;
    Ok(ControlFlow::Continue(next))
}

pub fn seek_to_pid(r: Reader, pid: u32, at: Cursor) -> Result<Option<(u64, Cursor)>, Shortage>
    ensures { result ≡ seek_to_pid r.entry.bytes.now r.entry.set pid at }
{
    seek_by(r, |c| turn(r, pid, c), at)
}

// A Mutable structure's own search, from where it stands: past the first header of the marker, whatever its length.
#[tactic(auto, using(std::proofs::lemmas::Bool::Decides::nat_tests), unfolding(crate::specs::Xcdr1::seek_to_sentinel, crate::specs::Xcdr1::sentinel_place))]
pub fn seek_to_sentinel(r: Reader, at: Cursor) -> Result<Cursor, Shortage>
    ensures { result ≡ seek_to_sentinel r.entry.bytes.now r.entry.set at }
{
    let found = seek_to_pid(r, PID_LIST_END as u32, at)?;
    match found {
        Some((_, c)) => Ok(c),
        // Never: who looks for the marker has found it there.
        None => Ok(at),
    }
}
