// The twenty-two refusals.
ghost use Rattle.std.specs.Prelude.{◌≡◌, Some};
ghost use Rattle.std.specs.Fmt.{decimal};
ghost use Rattle.scene.specs.Refusals.{number_of};

use std::fmt;

// A refusal's number is the one by which people know it.
#[derive(Clone, Copy, Debug, PartialEq, Eq)]
pub enum Refusal {
    SheetTooLong = 1,
    HeaderWrong = 2,
    LineMalformed = 3,
    CueNumberWrong = 4,
    ItemMalformed = 5,
    NotPointisable = 6,
    TitleNotInSheet = 7,
    TitleCountWrong = 8,
    TableMalformed = 9,
    OperandOutOfRange = 10,
    TitleUndeclared = 11,
    OutsideScene = 12,
    SetOutOfRange = 13,
    TooManyRows = 14,
    ListTooShort = 15,
    MomentCountWrong = 16,
    NoSuchRow = 17,
    PencilStands = 18,
    SlipMismatch = 19,
    BookFull = 20,
    NumbersSpent = 21,
    Clash = 22,
}

impl Refusal {
    // The number by which people know the refusal.
    pub fn number(self) -> u8
        ensures { result ≡ number_of self }
    {
        self as u8
    }
}

impl fmt::Display for Refusal {
    ghost output = { λ r. Some (decimal (number_of r)) };

    fn fmt<W: fmt::Write>(&self, f: &mut fmt::Formatter<W>) -> fmt::Result {
        write!(f, "{}", self.number())
    }
}
