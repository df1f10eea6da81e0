// The commands of a house table between its first and its end.
ghost use Rattle.std.specs.Prelude.{◌≡◌, length, MatchOption};
ghost use Rattle.table.specs.Commands.{encoding, NoCommand, Begins};

#[derive(Clone, Copy, Debug, PartialEq, Eq)]
pub enum Command {
    Row { left: u8, set: u8, right: u8 },
    // The title rises before it falls.
    Title { title: u8 },
    // The rule's set is 256 times the high byte, and the low byte.
    Rule { from: u8, high: u8, low: u8, to: u8 },
}

// The first byte of each command: constants, since patterns of bytes name them.
pub const START: u8 = 0x10;

pub const END: u8 = 0x00;

pub const ROW: u8 = 0x01;

const RULE: u8 = 0x02;

const TITLE: u8 = 0x03;

impl Command {
    // The bytes that the command takes.
    pub fn size(self) -> usize
        ensures { result ≡ length (encoding self) }
    {
        match self {
            Command::Row { .. } => 4,
            Command::Title { .. } => 2,
            Command::Rule { .. } => 5,
        }
    }

    // The command that the bytes begin with, if it is whole.
    pub fn first_of(bytes: &[u8]) -> Option<Command>
        ensures { MatchOption result (NoCommand bytes.now) (Begins bytes.now) }
    {
        match bytes {
            [ROW, left, set, right, ..] => Some(Command::Row {
                left: *left,
                set: *set,
                right: *right,
            }),
            [TITLE, title, ..] => Some(Command::Title { title: *title }),
            [RULE, from, high, low, to, ..] => Some(Command::Rule {
                from: *from,
                high: *high,
                low: *low,
                to: *to,
            }),
            _ => None,
        }
    }
}
