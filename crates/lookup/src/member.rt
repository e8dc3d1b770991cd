// Where a member's value is, by its id. The lookup of the Rust's deserialize_mmember; what is read there is the caller's.
ghost use Rattle.std.specs.Prelude.{◌≡◌};
ghost use Rattle.lookup.specs.Member.{located_v1, located_v2, locate};

use wire::cursor::{Cursor, Shortage};
use wire::reader::Reader;
use wire::settings::Version;

// What an XCDR1 search says of a member: the value is read from an origin of its own.
#[tactic(auto, using(std::proofs::lemmas::Bool::Decides::nat_tests), unfolding(crate::specs::Member::located_v1))]
fn located_v1(
    found: Result<Option<(u64, Cursor)>, Shortage>,
    back: Cursor,
) -> Result<(Option<(u64, Cursor)>, Cursor), Shortage>
    ensures { result ≡ located_v1 found back }
{
    match found {
        Ok(Some((length, c))) if 0 < length => Ok((
            Some((length, Cursor::new(c.pos, c.pos))),
            back,
        )),
        _ => Ok((None, back)),
    }
}

// What an XCDR2 search says of a member.
#[tactic(auto, using(std::proofs::lemmas::Bool::Decides::nat_tests), unfolding(crate::specs::Member::located_v2))]
fn located_v2(
    found: Result<Option<(u64, Cursor)>, Shortage>,
    back: Cursor,
) -> Result<(Option<(u64, Cursor)>, Cursor), Shortage>
    ensures { result ≡ located_v2 found back }
{
    Ok((found.ok().flatten(), back))
}

// The value's length and where it is read, if there is one, and the cursor that the reading comes back to, which is the one after the first alignment. Only
// that alignment's shortage is the member's.
#[tactic(auto, using(std::proofs::lemmas::Bool::Decides::nat_tests), unfolding(crate::specs::Member::locate, crate::specs::Member::looked_up, wire::specs::Place::after_move))]
pub fn locate(r: Reader, id: u32, at: Cursor) -> Result<(Option<(u64, Cursor)>, Cursor), Shortage>
    ensures { result ≡ locate r.entry.bytes.now r.entry.set id at }
{
    let back = at.align(r.bytes, r.set.version, 4)?;
    match r.set.version {
        Version::Xcdr1 => located_v1(crate::xcdr1::seek_to_pid(r, id, back), back),
        Version::Xcdr2 => located_v2(crate::xcdr2::seek_to_pid(r, id, back), back),
    }
}
