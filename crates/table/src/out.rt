// What reading a value comes to.
ghost use Rattle.std.specs.Prelude.{◌≡◌};
ghost use Rattle.table.specs.Code.Outcome.{unread_trouble};
ghost use Rattle.table.specs.declared.out.Trouble.TheVariants.{Short, Refused};

use wire::cursor::{Cursor, Shortage, Unread};

// Why a reading is refused, but for too few bytes. The first two are the Rust's.
#[derive(Clone, Copy)]
pub enum Refusal {
    InvalidData,
    InvalidType,
    Unsupported,
    TooDeep,
    NoRoom,
    NoDiscriminator,
}

// Why a value has no answer: too few bytes, or a refusal.
#[derive(Clone, Copy)]
pub enum Trouble {
    Short(Shortage),
    Refused(Refusal),
}

// The place after the value and the number of rows that then stand in the table.
pub type Out = Result<(Cursor, usize), Trouble>;

impl From<Shortage> for Trouble {
    ghost from_gives = { λ x e. e ≡ Short x };

    fn from(x: Shortage) -> Trouble {
        Trouble::Short(x)
    }
}

impl From<Refusal> for Trouble {
    ghost from_gives = { λ k e. e ≡ Refused k };

    fn from(k: Refusal) -> Trouble {
        Trouble::Refused(k)
    }
}

// Bytes that no such value has are InvalidData.
impl From<Unread> for Trouble {
    ghost from_gives = { λ x e. e ≡ unread_trouble x };

    fn from(x: Unread) -> Trouble {
        match x {
            Unread::Short(y) => Trouble::Short(y),
            Unread::Bad => Trouble::Refused(Refusal::InvalidData),
        }
    }
}
