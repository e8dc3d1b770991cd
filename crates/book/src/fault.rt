// What is wrong with a book: a record and a reason, in order 2's words.
ghost use Rattle.std.specs.Prelude.{◌≡◌};
ghost use Rattle.book.specs.Fault.{reason_number, is_right, fault_number};

// "head, record length, code out of range, type link, bound, member list, union's first member"
#[derive(Clone, Copy, PartialEq, Eq)]
pub enum Reason {
    Head,
    RecordLength,
    CodeRange,
    TypeLink,
    Bound,
    MemberList,
    FirstMember,
}

// This record, "65,535 for the book's head", is wrong by this reason.
#[derive(Clone, Copy, PartialEq, Eq)]
pub struct Fault {
    pub at: usize,
    pub reason: Reason,
}

// The record that stands for the book's head.
pub const HEAD: usize = 65535;

impl Reason {
    // The number as order 2 counts them.
    pub fn number(self) -> u8
        ensures { result ≡ reason_number self }
    {
        match self {
            Reason::Head => 17,
            Reason::RecordLength => 18,
            Reason::CodeRange => 19,
            Reason::TypeLink => 20,
            Reason::Bound => 21,
            Reason::MemberList => 22,
            Reason::FirstMember => 23,
        }
    }
}

impl Fault {
    // The reason's number.
    pub fn number(self) -> u8
        ensures { result ≡ reason_number self.reason }
    {
        self.reason.number()
    }
}

// Whether nothing is wrong, by what is told of a book.
pub fn is_right(told: Result<(), Fault>) -> bool
    ensures { result ≡ is_right told }
{
    match told {
        Ok(()) => true,
        Err(_) => false,
    }
}

// The reason's number; 0 where nothing is wrong.
pub fn number_of(told: Result<(), Fault>) -> u8
    ensures { result ≡ fault_number told }
{
    match told {
        Ok(()) => 0,
        Err(found) => found.number(),
    }
}
