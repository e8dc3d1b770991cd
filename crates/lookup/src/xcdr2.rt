// The search of XCDR2: EMHEADERs of 32 bits, an id below a length code, the longer lengths in a NEXTINT after it. It has no end marker,
// and no other end than the data's, which is cut at the structure's where ends are kept.
ghost use Rattle.std.specs.Prelude.{◌≡◌, ◌<◌, ◌≤◌, ◌^◌};
ghost use Rattle.wire.specs.Code.Reads.{Small};
ghost use Rattle.lookup.specs.Xcdr2.{id_of, lc_of, fixed_length, unit_of, step_back, length_from, nextint_times, length_of, turn_at, seek_to_pid};

use crate::search::{past_value, seek_by};
use std::ops::ControlFlow;
use wire::cursor::{Cursor, Shortage};
use wire::reader::Reader;
use wire::settings::Mode;

pub fn id(emheader: u64) -> u64
    ensures { result ≡ id_of emheader }
{
    emheader % 0x1000_0000
}

// The length code.
pub fn lc(emheader: u64) -> u64
    ensures { (result ≡ lc_of emheader) × (result < 8) }
{
    emheader / 0x1000_0000 % 8
}

// The length that a length code below 4 tells.
#[tactic(auto, using(std::proofs::lemmas::Bool::Decides::nat_tests))]
pub fn fixed_length(lc: u64) -> u64
    requires { lc < 4 }
    ensures { (result ≡ fixed_length lc) × (0 < result) × (result ≤ 8) }
{
    match lc {
        0 => 1,
        1 => 2,
        2 => 4,
        _ => 8,
    }
}

// The unit of the length that NEXTINT tells.
#[tactic(auto, using(std::proofs::lemmas::Bool::Decides::nat_tests))]
pub fn unit(lc: u64) -> u64
    requires { (4 ≤ lc) × (lc < 8) }
    ensures { (result ≡ unit_of lc) × (result ≤ 8) }
{
    match lc {
        4 => 1,
        5 => 1,
        6 => 4,
        _ => 8,
    }
}

// How far a value that was found begins before the end of its header: which length codes give NEXTINT back to it.
#[tactic(auto, using(std::proofs::lemmas::Bool::Decides::nat_tests), unfolding(crate::specs::Xcdr2::step_back))]
pub fn step_back(mode: Mode, lc: u64) -> usize
    ensures { (result ≡ step_back mode lc) × (result ≤ 4) }
{
    match mode {
        Mode::Crate => { if lc == 5 { 4 } else { 0 } }
        Mode::Standard => { if ground::in_range(lc, 5, 7) { 4 } else { 0 } }
    }
}

// The length that is found, of a header that tells n: in the standard's mode NEXTINT's four bytes are counted too, where they are the member's.
#[tactic(auto, using(std::proofs::lemmas::Bool::Decides::nat_tests), unfolding(crate::specs::Xcdr2::length_from, crate::specs::Xcdr2::step_back))]
pub fn length_from(mode: Mode, lc: u64, n: u64) -> u64
    requires { n < 256 ^ 5 }
    ensures { result ≡ length_from mode lc n }
{
    match mode {
        Mode::Crate => n,
        Mode::Standard => n + (step_back(Mode::Standard, lc) as u64),
    }
}

// A length in units of `unit` bytes, and the cursor after NEXTINT.
#[tactic(auto, using(std::proofs::lemmas::Bool::Decides::nat_tests), unfolding(crate::specs::Xcdr2::nextint_times, wire::specs::Number::after_number))]
fn nextint_times(r: Reader, unit: u64, at: Cursor) -> Result<(u64, Cursor), Shortage>
    requires { unit ≤ 8 }
    ensures { (result ≡ nextint_times r.entry.bytes.now r.entry.set unit at) × Small 5 result }
{
    let (n, c) = r.read_number(at, 4)?;
    Ok((n * unit, c))
}

// The length that the header tells, and the cursor after the whole header.
#[tactic(auto, using(std::proofs::lemmas::Bool::Decides::nat_tests), unfolding(crate::specs::Xcdr2::length_of, crate::specs::Xcdr2::length_by_lc))]
fn length(r: Reader, emheader: u64, at: Cursor) -> Result<(u64, Cursor), Shortage>
    ensures { (result ≡ length_of r.entry.bytes.now r.entry.set emheader at) × Small 5 result }
{
    let code = lc(emheader);
    if code < 4 {
        return Ok((fixed_length(code), at));
    }
    nextint_times(r, unit(code), at)
}

// One header. It steps back on a match alone.
#[tactic(auto, using(std::proofs::lemmas::Bool::Decides::nat_tests), unfolding(crate::specs::Xcdr2::turn_at, crate::specs::Xcdr2::verdict, wire::specs::Number::after_number))]
fn turn(
    r: Reader,
    pid: u32,
    at: Cursor,
) -> Result<ControlFlow<Option<(u64, Cursor)>, Cursor>, Shortage>
    ensures { result ≡ turn_at r.entry.bytes.now r.entry.set pid at }
{
    let mode = r.set.mode;
    let (emheader, c) = r.read_number(at, 4)?;
    let (n, d) = length(r, emheader, c)?;
    if id(emheader) == u64::from(pid) {
        let code = lc(emheader);
        let value = Cursor::new(d.pos - step_back(mode, code), d.origin);
        return Ok(ControlFlow::Break(Some((length_from(mode, code, n), value))));
    }
    let next = past_value(r, d, n)?;
    Ok(ControlFlow::Continue(next))
}

pub fn seek_to_pid(r: Reader, pid: u32, at: Cursor) -> Result<Option<(u64, Cursor)>, Shortage>
    ensures { result ≡ seek_to_pid r.entry.bytes.now r.entry.set pid at }
{
    seek_by(r, |c| turn(r, pid, c), at)
}
