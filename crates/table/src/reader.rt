// The reader of house tables.
ghost use Rattle.std.specs.Prelude.{◌≡◌, ◌≤◌, ◌∷◌, ◌++◌, length, drop, MatchOption, Some};
ghost use Rattle.std.specs.Result.{result_map_both};
ghost use Rattle.table.specs.declared.reader.ReadError.TheVariants.{NoMemory};
ghost use Rattle.std.specs.Fmt.{decimal};
ghost use Rattle.scene.specs.Refusals.{number_of};
ghost use Rattle.table.specs.Readings.{NoStart, NoEnd, EndBefore, Reads, Only};
ghost use Rattle.table.specs.Told.{Told, Commanded, same, fault_at};

use crate::commands::{Command, END, START};
use crate::stating::Context;
use crate::tables::Table;
use scene::refusals::Refusal;
use scene::sources::{MOST_WORKING_ROWS, Row};
use std::alloc::{AllocError, Global};
use std::fmt;

// The most bytes in a table.
const MOST_BYTES: usize = 32768;

// Why a table was refused, and the place of the fault.
#[derive(Clone, Copy, Debug)]
pub struct TableFault {
    pub refusal: Refusal,
    pub place: usize,
}

impl fmt::Display for TableFault {
    ghost output = { λ f. Some (decimal (number_of f.refusal) ++ 9 ∷ decimal f.place) };

    fn fmt<W: fmt::Write>(&self, f: &mut fmt::Formatter<W>) -> fmt::Result {
        write!(f, "{}\t{}", self.refusal, self.place)
    }
}

#[derive(Clone, Copy, Debug)]
pub enum ReadError {
    Refused(TableFault),
    NoMemory,
}

impl From<AllocError> for ReadError {
    ghost from_gives = { λ _ r. r ≡ NoMemory };

    fn from(_e: AllocError) -> ReadError {
        ReadError::NoMemory
    }
}

// A refusal at a place.
fn refuse(refusal: Refusal, place: usize) -> ReadError
    ensures { result ≡ ReadError.Refused (record { refusal = refusal; place = place }) }
{
    ReadError::Refused(TableFault { refusal, place })
}

// The result with the place of its refusal.
fn at_place<T>(place: usize, outcome: Result<T, Refusal>) -> Result<T, ReadError>
    ensures { result ≡ result_map_both same (fault_at place) outcome }
{
    outcome.map_err(|refusal| refuse(refusal, place))
}

// Where the commands stop, and the rows that they state.
struct Stop {
    rows: Vec<Row>,
    place: usize,
}

// The commands after the first, whose operand is the last moment.
fn read_commands(heap: Global, bytes: &[u8], last: u8) -> Result<Stop, ReadError>
    requires { (length bytes.now ≤ 32768) × (bytes.now ≡ 16 ∷ last ∷ drop 2 bytes.now) }
    ensures { Commanded bytes.now last result }
{
    let mut context = Context::new(u16::from(last) + 1);
    let mut rows = Vec::new(heap);
    let mut place = 2;
    while let Some(command) = Command::first_of(&bytes[place..]) {
        let statement = at_place(place, context.rows_stated(command))?;
        statement.add_to(&mut rows)?;
        context.declare(command);
        place += command.size();
    }
    Ok(Stop { rows, place })
}

// The operand of the first command.
fn start_of(bytes: &[u8]) -> Option<u8>
    ensures { MatchOption result (NoStart bytes.now) (λ c. bytes.now ≡ 16 ∷ c ∷ drop 2 bytes.now) }
{
    match bytes {
        [START, last, ..] => Some(*last),
        _ => None,
    }
}

// How many bytes follow the end, if the bytes begin with it.
fn after_end(bytes: &[u8]) -> Option<usize>
    ensures { MatchOption result (NoEnd bytes.now) (λ n. EndBefore bytes.now n) }
{
    match bytes {
        [END, after @ ..] => Some(after.len()),
        _ => None,
    }
}

// The table whose bytes these are, or why they are none.
fn read(heap: Global, bytes: &[u8]) -> Result<Table, ReadError>
    ensures { Told (Reads bytes.now) result }
{
    if bytes.len() > MOST_BYTES {
        return Err(refuse(Refusal::TableMalformed, 0));
    }
    let last = start_of(bytes).ok_or(refuse(Refusal::TableMalformed, 0))?;
    let Stop { rows, place } = read_commands(heap, bytes, last)?;
    let after = after_end(&bytes[place..]).ok_or(refuse(Refusal::TableMalformed, place))?;
    if after > 0 {
        return Err(refuse(Refusal::TableMalformed, place + 1));
    }
    if rows.len() > MOST_WORKING_ROWS {
        return Err(refuse(Refusal::TooManyRows, 0));
    }
    Ok(Table {
        moments: u16::from(last) + 1,
        rows,
    })
}

// The table whose bytes these are: no other answer fits them.
pub fn read_table(heap: Global, bytes: &[u8]) -> Result<Table, ReadError>
    ensures reads { Told (Reads bytes.now) result }
    ensures only { Told (Only bytes.now) result }
{
    read(heap, bytes)
}
