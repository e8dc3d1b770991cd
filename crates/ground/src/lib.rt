// What every floor of the house stands on. Most of it is in specs/ and proofs/: how a definition picks a case, ranges, and the law
// that turns one computed test into a rule of every number of a range.
#![tactic(auto)]

ghost use Rattle.std.specs.Prelude.{◌≡◌, ◌<◌};
ghost use Rattle.ground.specs.Choice.{◌‥◌, within};

// A byte as a number of 64 bits: said once, with its bound, since a cast in place asks for the bound each time.
pub fn wide(x: u8) -> u64
    ensures { (result ≡ x) × (result < 256) }
{
    x as u64
}

// A word of 32 bits as a place in a list, said once for the same reason.
pub fn widen(x: u32) -> usize
    ensures { result ≡ x }
{
    x as usize
}

// Whether x is one of the numbers from `from` to `to`.
pub fn in_range(x: u64, from: u64, to: u64) -> bool
    ensures { result ≡ within (from ‥ to) x }
{
    (from <= x) & (x <= to)
}
