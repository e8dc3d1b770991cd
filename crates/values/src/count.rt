// How many elements a list has.
ghost use Rattle.std.specs.Prelude.{◌≡◌};
ghost use Rattle.values.specs.Count.{count_at};

use wire::cursor::{Cursor, Shortage};
use wire::reader::Reader;

// A sequence tells its length, an array has its bound. The cursor is where the elements begin.
#[tactic(auto, using(std::proofs::lemmas::Bool::Decides::nat_tests), unfolding(crate::specs::Count::count_at))]
pub fn count_at(
    r: Reader,
    sequence: bool,
    bound: u64,
    at: Cursor,
) -> Result<(u64, Cursor), Shortage>
    ensures { result ≡ count_at r.entry.bytes.now r.entry.set sequence bound at }
{
    if sequence {
        return r.read_number(at, 4);
    }
    Ok((bound, at))
}
