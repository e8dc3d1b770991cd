// What the searches of both versions share: from header to header until one settles it, and how a value is passed over.
ghost use Rattle.std.specs.Prelude.{◌≡◌};
ghost use Rattle.wire.specs.declared.cursor.Cursor.{Cursor};
ghost use Rattle.lookup.specs.Search.{Turn, past_value, seek_by};
ghost use Rattle.lookup.specs.Code.Turns.{MovesOn, TellsAs};

use std::ops::ControlFlow;
use wire::cursor::{Cursor, Shortage};
use wire::reader::Reader;

// Past a value that nobody asked for, to the next header.
#[tactic(auto, using(std::proofs::lemmas::Bool::Decides::nat_tests), unfolding(crate::specs::Search::past_value, wire::specs::Place::after_move))]
pub fn past_value(r: Reader, at: Cursor, length: u64) -> Result<Cursor, Shortage>
    ensures { result ≡ past_value r.entry.bytes.now r.entry.set at length }
{
    let past = at.seek(r.bytes, length as usize)?;
    past.align(r.bytes, r.set.version, 4)
}

// A value's length and where it starts, or that the list of headers ended, which XCDR1's alone does. A header settles it, or the next one is at the cursor.
// It ends since each header moves the cursor on.
pub fn seek_by<F: Fn(Cursor) -> Result<ControlFlow<Option<(u64, Cursor)>, Cursor>, Shortage>>(
    r: Reader,
    turn: F,
    at: Cursor,
) -> Result<Option<(u64, Cursor)>, Shortage>
    requires calls { F.IsAlwaysCallable turn }
    requires moves { MovesOn r.bytes.now (F.post turn) }
    ensures { (t : Cursor → Turn) → TellsAs (F.post turn) t → result ≡ seek_by r.entry.bytes.now t at }
{
    let mut c = at;
    loop {
        match turn(c)? {
            ControlFlow::Break(found) => return Ok(found),
            ControlFlow::Continue(d) => c = d,
        }
    }
}
