// What a call gives back: a number of document 01's table, how many rows stand in the lent table, and what is told of a shortage.
ghost use Rattle.std.specs.Prelude.{◌≡◌};
ghost use Rattle.table.specs.Outcome.{refusal_number};
ghost use Rattle.sinotayam.specs.Answer.{code_of, refused_by, short_by, Settled};

use book::fault::Reason;
use table::out::Refusal;
use table::rows::clear_after;
use wire::cursor::Told;

// Document 01's "Numbers given back", without 4, which no call gives back, and with order 2's reasons for a book. A reading with an index of no types is NotPrepared.
#[derive(Clone, Copy)]
pub enum Status {
    Read,
    NotEnoughData,
    InvalidData,
    InvalidType,
    NotPrepared,
    BadRoot,
    TooLong,
    Unsupported,
    TooDeep,
    NoRoom,
    NoDiscriminator,
    NotText,
    Unfit,
    BadBook(Reason),
}

// No Result: document 01 defines an answer as a number and a count of rows, and order 6 of document 02 adds what is told, whatever the number.
#[derive(Clone, Copy)]
pub struct Answer {
    pub status: Status,
    pub rows: usize,
    // Where the read that ran short began, and the bytes that it still needed; both 0 unless the status is NotEnoughData.
    pub told: Told,
}

// What is told of any other status.
pub const NOTHING: Told = Told {
    position: 0,
    need: 0,
};

impl Status {
    // The number as documents 01 and 02 write it.
    #[tactic(auto, using(std::proofs::lemmas::Bool::Decides::nat_tests), unfolding(crate::specs::Answer::code_of))]
    pub fn code(self) -> u8
        ensures { result ≡ code_of self }
    {
        match self {
            Status::Read => 0,
            Status::NotEnoughData => 1,
            Status::InvalidData => 2,
            Status::InvalidType => 3,
            Status::NotPrepared => 8,
            Status::BadRoot => 9,
            Status::TooLong => 10,
            Status::Unsupported => 11,
            Status::TooDeep => 12,
            Status::NoRoom => 13,
            Status::NoDiscriminator => 14,
            Status::NotText => 15,
            Status::Unfit => 16,
            Status::BadBook(why) => why.number(),
        }
    }
}

impl From<Refusal> for Status {
    ghost from_gives = { λ k s. code_of s ≡ refusal_number k };

    #[tactic(auto, using(std::proofs::lemmas::Bool::Decides::nat_tests), unfolding(crate::specs::Answer::code_of, table::specs::Outcome::refusal_number))]
    fn from(k: Refusal) -> Status {
        match k {
            Refusal::InvalidData => Status::InvalidData,
            Refusal::InvalidType => Status::InvalidType,
            Refusal::Unsupported => Status::Unsupported,
            Refusal::TooDeep => Status::TooDeep,
            Refusal::NoRoom => Status::NoRoom,
            Refusal::NoDiscriminator => Status::NoDiscriminator,
        }
    }
}

// A refusal: no rows, and the whole table zero.
pub fn refused(table: &mut [u64], status: Status) -> Answer
    ensures { Settled (refused_by status) table.old table.new result }
{
    clear_after(table, 0);
    Answer {
        status,
        rows: 0,
        told: NOTHING,
    }
}

// A read that ran short: refused, with what is told of it.
pub fn short(table: &mut [u64], told: Told) -> Answer
    ensures { Settled (short_by told) table.old table.new result }
{
    Answer {
        told,
        ..refused(table, Status::NotEnoughData)
    }
}
