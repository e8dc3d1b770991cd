// The member that comes next. Members mostly stand in the order of their ids, so the header after the last one found is asked first;
// where it is the wanted one, no search from the structure's start is needed. Whoever is told nothing searches as ever, so this stays narrow.
ghost use Rattle.std.specs.Prelude.{◌≡◌, ◌≤◌, ◌<◌, ◌^◌, true, length};
ghost use Rattle.wire.specs.Place.{cursor_at};
ghost use Rattle.wire.specs.declared.settings.Settings.{Settings};
ghost use Rattle.lookup.specs.Code.Ahead.{AheadIs, HeaderAhead, StartIs, TrueHint, hint_after, value_at, HeadAt, HeadOrEnd, LongHead, MayStand, PassedTo, PassedNear};
ghost use Rattle.lookup.specs.Xcdr1.{seek_to_sentinel};
ghost use Rattle.lookup.specs.Xcdr2.{id_of};

use crate::xcdr1::{PID_LIST_END, seek_to_sentinel};
use crate::xcdr2::{fixed_length, lc, length_from, step_back, unit};
use wire::cursor::{Cursor, Shortage};
use wire::number::from_bytes;
use wire::reader::Reader;
use wire::settings::Version;

// The wanted member, where the header there is its own. Nothing is told of another's, of one with an empty value in XCDR1, and where something is missing.
#[derive(Clone, Copy)]
pub struct Ahead {
    // Where the value starts.
    pub value: usize,
    pub length: u64,
    // Where the next header stands; near the end of the data, where none can, any place there.
    pub next: usize,
}

// Where the next header stands: past a value, aligned to 4 from the origin; the data's end where that is past it.
pub fn next_header(s: &[u8], at: usize, size: u64, origin: usize) -> usize
    requires { (origin ≤ at) × (at ≤ length s.now) × (size ≤ 2 ^ 35) }
    ensures to { PassedTo s.now (cursor_at at origin) size result }
    ensures near { PassedNear s.now (cursor_at at origin) size result }
{
    let to = at + (size as usize);
    let next = origin + (to - origin).next_multiple_of(4);
    next.min(s.len())
}

// A header that has its length in NEXTINT. A list that is empty has an empty value: that is read too.
#[tactic(auto, using(std::proofs::lemmas::Bool::Decides::nat_tests), unfolding(crate::specs::Code::Ahead::AheadIs))]
fn with_nextint(r: Reader, emheader: u64, pos: usize, origin: usize) -> Option<Ahead>
    requires { LongHead r.bytes.now r.set emheader pos origin }
    ensures { AheadIs r.entry.bytes.now r.entry.set (id_of emheader) (cursor_at pos origin) result }
{
    let head = pos + 4;
    if r.bytes.len() - pos < 8 {
        return None;
    }
    let code = lc(emheader);
    let told = from_bytes(r.bytes, r.set.order, head, 4) * unit(code);
    let body = head + 4;
    Some(Ahead {
        value: body - step_back(r.set.mode, code),
        length: length_from(r.set.mode, code, told),
        next: next_header(r.bytes, body, told, origin),
    })
}

// A header of XCDR2.
#[tactic(auto, using(std::proofs::lemmas::Bool::Decides::nat_tests), unfolding(crate::specs::Code::Ahead::AheadIs))]
fn xcdr2(r: Reader, wanted: u64, pos: usize, origin: usize) -> Option<Ahead>
    requires { HeadAt r.bytes.now pos origin × (r.set.version ≡ Version.Xcdr2) }
    ensures { AheadIs r.entry.bytes.now r.entry.set wanted (cursor_at pos origin) result }
{
    let emheader = from_bytes(r.bytes, r.set.order, pos, 4);
    if crate::xcdr2::id(emheader) != wanted {
        return None;
    }
    let code = lc(emheader);
    if 4 <= code {
        return with_nextint(r, emheader, pos, origin);
    }
    let head = pos + 4;
    let told = fixed_length(code);
    Some(Ahead {
        value: head - step_back(r.set.mode, code),
        length: length_from(r.set.mode, code, told),
        next: next_header(r.bytes, head, told, origin),
    })
}

// A header of XCDR1. An empty one is left to the search, and so is the end marker.
#[tactic(auto, using(std::proofs::lemmas::Bool::Decides::nat_tests), unfolding(crate::specs::Code::Ahead::AheadIs))]
fn xcdr1(r: Reader, wanted: u64, pos: usize, origin: usize) -> Option<Ahead>
    requires { HeadAt r.bytes.now pos origin × (r.set.version ≡ Version.Xcdr1) }
    ensures { AheadIs r.entry.bytes.now r.entry.set wanted (cursor_at pos origin) result }
{
    let word = from_bytes(r.bytes, r.set.order, pos, 2);
    if crate::xcdr1::id(word) != wanted {
        return None;
    }
    let length = from_bytes(r.bytes, r.set.order, pos + 2, 2);
    if length == 0 {
        return None;
    }
    let value = pos + 4;
    Some(Ahead {
        value,
        length,
        next: next_header(r.bytes, value, length, origin),
    })
}

// A header.
#[inline(always)]
pub fn header_at(r: Reader, wanted: u64, pos: usize, origin: usize) -> Option<Ahead>
    requires { HeadAt r.bytes.now pos origin }
    ensures { AheadIs r.entry.bytes.now r.entry.set wanted (cursor_at pos origin) result }
{
    match r.set.version {
        Version::Xcdr1 => xcdr1(r, wanted, pos, origin),
        Version::Xcdr2 => xcdr2(r, wanted, pos, origin),
    }
}

// Where a found value is read.
#[tactic(auto, using(std::proofs::lemmas::Bool::Decides::nat_tests), unfolding(crate::specs::Code::Ahead::value_at))]
pub fn value_at(version: Version, pos: usize, origin: usize) -> Cursor
    ensures { result ≡ value_at version pos origin }
{
    match version {
        Version::Xcdr1 => Cursor::new(pos, pos),
        Version::Xcdr2 => Cursor::new(pos, origin),
    }
}

// Where the next header is looked for: a search for an id from `least` on, from the structure's start, is a search from `next`, if a
// header stands there.
#[derive(Clone, Copy)]
pub struct Hint {
    pub next: usize,
    pub least: u32,
}

// Whether a header may stand where the cursor is, if the data has its bytes.
pub fn may_stand(s: &[u8], c: Cursor) -> bool
    ensures { (result ≡ true → MayStand s.now c) × (MayStand s.now c → result ≡ true) }
{
    c.origin <= c.pos && c.pos <= s.len() && (c.pos - c.origin) % 4 == 0
}

// The hint before any member was found: the start itself, if a header may stand there.
fn first_hint(s: &[u8], back: Cursor) -> Hint
    ensures { (set : Settings) → TrueHint s.now set back back.origin result }
{
    let next = if may_stand(s, back) {
        back.pos
    } else {
        s.len()
    };
    Hint { next, least: 0 }
}

// Where the lookups of a structure begin, which every lookup comes back to: the first one's alignment, if there is one; and the hint before any member was
// found. What follows a DHEADER or a header is mostly aligned already, and then one test settles both.
#[tactic(auto, using(std::proofs::lemmas::Bool::Decides::nat_tests), unfolding(crate::specs::Code::Ahead::StartIs, crate::specs::Code::Ahead::first_lookup))]
pub fn start_at(r: Reader, some: bool, at: Cursor) -> Result<(Cursor, Hint), Shortage>
    ensures { StartIs r.entry.bytes.now r.entry.set some at result }
{
    if may_stand(r.bytes, at) {
        return Ok((
            at,
            Hint {
                next: at.pos,
                least: 0,
            },
        ));
    }
    if !some {
        return Ok((at, first_hint(r.bytes, at)));
    }
    let back = at.align(r.bytes, r.set.version, 4)?;
    Ok((back, first_hint(r.bytes, back)))
}

// The wanted member, if its header is where the hint says.
pub fn header_ahead(r: Reader, wanted: u32, h: Hint, origin: usize) -> Option<Ahead>
    requires { HeadOrEnd r.bytes.now h.next origin }
    ensures { HeaderAhead r.entry.bytes.now r.entry.set wanted h origin result }
{
    if wanted < h.least || r.bytes.len() - h.next < 4 {
        return None;
    }
    header_at(r, u64::from(wanted), h.next, origin)
}

// The hint after a member that was found.
pub fn hint_after(found: Ahead, wanted: u32) -> Hint
    requires { wanted < 2 ^ 28 }
    ensures { result ≡ hint_after found wanted }
{
    Hint {
        next: found.next,
        least: wanted + 1,
    }
}

// A Mutable structure's own search for the end marker, from where the hint says, which is nearer than its start.
pub fn sentinel_from(r: Reader, at: Cursor, h: Hint) -> Result<Cursor, Shortage>
    requires { TrueHint r.bytes.now r.set at at.origin h × (r.set.version ≡ Version.Xcdr1) }
    ensures { result ≡ seek_to_sentinel r.entry.bytes.now r.entry.set at }
{
    if PID_LIST_END < u64::from(h.least) || r.bytes.len() - h.next < 4 {
        return seek_to_sentinel(r, at);
    }
    seek_to_sentinel(r, Cursor::new(h.next, at.origin))
}
