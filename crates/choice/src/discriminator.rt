// The discriminator, read back from the rows that it left in the table.
ghost use Rattle.std.specs.Prelude.{◌≡◌};
ghost use Rattle.choice.specs.Discriminator.{discriminator_in};
ghost use Rattle.choice.specs.Code.Discriminator.{discriminator_at, unsaid_trouble};

use table::out::{Refusal, Trouble};
use table::rows::{Row, row_at};

// (d) A row's kind is a word of the table, any number: constants, and no enum.
// The kinds of rows whose value a label can be compared with.
const INT16: u64 = 3;

const INT32: u64 = 4;

const UINT16: u64 = 6;

const UINT32: u64 = 7;

const INT8: u64 = 12;

const UINT8: u64 = 13;

// The kind of an enum's own row.
const ENUM: u64 = 21;

// Why a discriminator has no value.
#[derive(Clone, Copy)]
pub enum Unsaid {
    // It was not stored.
    Absent,
    // Its kind has no value as an i32.
    Unfit,
}

impl From<Unsaid> for Trouble {
    ghost from_gives = { λ x e. e ≡ unsaid_trouble x };

    fn from(x: Unsaid) -> Trouble {
        match x {
            Unsaid::Absent => Trouble::Refused(Refusal::NoDiscriminator),
            Unsaid::Unfit => Trouble::Refused(Refusal::InvalidType),
        }
    }
}

// What the row of a number says: the low 32 bits of its word, as an i32.
pub fn discriminator_in(r: Row) -> Result<i32, Unsaid>
    ensures { result ≡ discriminator_in r }
{
    let kind = r.kind;
    let a = r.a;
    if (kind == INT16)
        | (kind == INT32)
        | (kind == UINT16)
        | (kind == UINT32)
        | (kind == INT8)
        | (kind == UINT8)
    {
        return Ok(wire::signed::as_i32((a % 0x1_0000_0000) as u32));
    }
    Err(Unsaid::Unfit)
}

// What rows n to m - 1 say. An enum's value stands in the row beneath its own.
pub fn discriminator_at(t: &[u64], n: usize, m: usize) -> Result<i32, Unsaid>
    ensures { result ≡ discriminator_at t.now n m }
{
    if m <= n {
        return Err(Unsaid::Absent);
    }
    let r = row_at(t, n);
    let kind = r.kind;
    if kind == ENUM {
        if m - n == 1 {
            return Err(Unsaid::Unfit);
        }
        return discriminator_in(row_at(t, n + 1));
    }
    discriminator_in(r)
}
