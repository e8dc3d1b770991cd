// The lookup where it begins at a header's place, as it mostly does: from header to header by their places alone, which go by register. What it does not
// settle is left to `locate`.
ghost use Rattle.std.specs.Prelude.{◌≡◌, ℕ};
ghost use Rattle.wire.specs.Place.{cursor_at};
ghost use Rattle.wire.specs.declared.settings.Settings.{Settings};
ghost use Rattle.wire.specs.Number.{number_at};
ghost use Rattle.lookup.specs.Xcdr2.{id_of};
ghost use Rattle.lookup.specs.Code.Ahead.{HeadAt, HeadOrEnd, LongHead};
ghost use Rattle.lookup.specs.Code.Straight.{LeadsTo, Past, SoughtIs, Stepped, Steps, StepsFor};

use crate::ahead::{header_at, may_stand, next_header};
use crate::xcdr1::PID_LIST_END;
use crate::xcdr2::{fixed_length, lc, unit};
use wire::cursor::Cursor;
use wire::number::from_bytes;
use wire::reader::Reader;
use wire::settings::Version;

#[derive(Clone, Copy)]
pub enum Sought {
    // Where the value starts, and its length.
    Found(usize, u64),
    // There is nothing to read.
    Absent,
    // It is left to `locate`.
    Unsettled,
}

// The place after an XCDR2 header that has its length in NEXTINT, and after its value.
fn past_long(r: Reader, emheader: u64, pos: usize, origin: usize) -> usize
    requires { LongHead r.bytes.now r.set emheader pos origin }
    ensures { Past r.entry.bytes.now r.entry.set (id_of emheader) pos origin result }
{
    let head = pos + 4;
    if r.bytes.len() - pos < 8 {
        return r.bytes.len();
    }
    let length = from_bytes(r.bytes, r.set.order, head, 4) * unit(lc(emheader));
    next_header(r.bytes, head + 4, length, origin)
}

// The place after an XCDR2 header and its value.
fn past(r: Reader, emheader: u64, pos: usize, origin: usize) -> usize
    requires { HeadAt r.bytes.now pos origin × (r.set.version ≡ Version.Xcdr2) × (emheader ≡ number_at r.set.order 0 r.bytes.now pos 4) }
    ensures { Past r.entry.bytes.now r.entry.set (id_of emheader) pos origin result }
{
    let code = lc(emheader);
    if 4 <= code {
        return past_long(r, emheader, pos, origin);
    }
    next_header(r.bytes, pos + 4, fixed_length(code), origin)
}

// One header of XCDR2: its own place where it is the wanted one's, else the next one's.
fn step_v2(r: Reader, wanted: u64, pos: usize, origin: usize) -> usize
    requires { HeadAt r.bytes.now pos origin × (r.set.version ≡ Version.Xcdr2) }
    ensures { Stepped r.entry.bytes.now r.entry.set wanted pos origin result }
{
    let emheader = from_bytes(r.bytes, r.set.order, pos, 4);
    if crate::xcdr2::id(emheader) == wanted {
        return pos;
    }
    past(r, emheader, pos, origin)
}

// One header of XCDR1: its own place where it is the wanted one's, else the next one's. The end marker ends the search, and an empty value is none.
fn step_v1(r: Reader, wanted: u64, pos: usize, origin: usize) -> usize
    requires { HeadAt r.bytes.now pos origin × (r.set.version ≡ Version.Xcdr1) }
    ensures { Stepped r.entry.bytes.now r.entry.set wanted pos origin result }
{
    let id = crate::xcdr1::id(from_bytes(r.bytes, r.set.order, pos, 2));
    let length = from_bytes(r.bytes, r.set.order, pos + 2, 2);
    if id == wanted % 0x1_0000 {
        if length == 0 {
            return r.bytes.len();
        }
        return pos;
    }
    if (id == PID_LIST_END) & (length == 0) {
        return r.bytes.len();
    }
    next_header(r.bytes, pos + 4, length, origin)
}

// The place of the header that a step stays at, from a header's place on; or one so near the end of the data that no header is there.
// That it stays is told by the place itself: a place alone goes by register.
fn stays_at<F: Fn(usize) -> usize>(s: &[u8], step: F, from: usize, origin: usize) -> usize
    requires stands { HeadOrEnd s.now from origin }
    requires steps { Steps s.now origin (F.pre step) (F.post step) }
    ensures { (set : Settings) (id : ℕ) → StepsFor s.now set id origin (F.post step) → LeadsTo s.now set id (cursor_at from origin) result }
{
    let mut pos = from;
    while 4 <= s.len() - pos {
        let next = step(pos);
        if next == pos {
            return pos;
        }
        pos = next;
    }
    pos
}

// The wanted member's header, from a header's place on.
fn nearest(r: Reader, wanted: u64, from: usize, origin: usize) -> usize
    requires { HeadOrEnd r.bytes.now from origin }
    ensures { LeadsTo r.entry.bytes.now r.entry.set wanted (cursor_at from origin) result }
{
    match r.set.version {
        Version::Xcdr1 => stays_at(r.bytes, |pos| step_v1(r, wanted, pos, origin), from, origin),
        Version::Xcdr2 => stays_at(r.bytes, |pos| step_v2(r, wanted, pos, origin), from, origin),
    }
}

// A member by its id, from where its lookup begins.
pub fn look_up(r: Reader, id: u32, c: Cursor) -> Sought
    ensures { SoughtIs r.entry.bytes.now r.entry.set id c result }
{
    if !may_stand(r.bytes, c) {
        return Sought::Unsettled;
    }
    let wanted = u64::from(id);
    let q = nearest(r, wanted, c.pos, c.origin);
    if r.bytes.len() - q < 4 {
        return Sought::Absent;
    }
    match header_at(r, wanted, q, c.origin) {
        Some(a) => Sought::Found(a.value, a.length),
        None => Sought::Unsettled,
    }
}
