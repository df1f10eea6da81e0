// The writer of house tables.
ghost use Rattle.std.specs.Prelude.{◌≡◌, ◌+◌, ◌*◌, ◌<◌, ◌≤◌, length, take, IfOk, MatchResult};
ghost use Rattle.scene.specs.Checks.{Answers};
ghost use Rattle.table.specs.Commands.{encoding};
ghost use Rattle.table.specs.Readings.{Reads, found};
ghost use Rattle.table.specs.Writings.{row_command, written, over, of_rows, of_room, writing};

use crate::commands::{END, ROW, START};
use scene::refusals::Refusal;
use scene::sources::{ByteRow, MOST_WORKING_ROWS, Source};

// The number of rows to write.
fn rows_written<S: Source>(source: &S) -> Result<usize, Refusal>
    ensures { Answers (of_rows (S.scene source.now).rows) (λ n. n ≡ length (S.scene source.now).rows) result }
{
    let count = source.count();
    if count > MOST_WORKING_ROWS {
        return Err(Refusal::TooManyRows);
    }
    Ok(count)
}

// The bytes that so many rows take, which must fit into the room.
fn size_within(rows: usize, room: usize) -> Result<usize, Refusal>
    requires { rows ≤ 4096 }
    ensures { Answers (of_room rows room) (λ n. n ≡ 3 + 4 * rows) result }
{
    let size = 3 + 4 * rows;
    if room < size {
        return Err(Refusal::ListTooShort);
    }
    Ok(size)
}

// A row as its command. A function, since neither of its types is declared here, so that no `From` may be.
fn row_bytes(row: ByteRow) -> [u8; 4]
    ensures { result ≡ encoding (row_command row) }
{
    let (left, set, right) = row;
    [ROW, left, set, right]
}

// Writes any source as a table at the start of the list, and answers how many bytes it took.
pub fn write_table<S: Source>(source: &S, out: &mut [u8]) -> Result<usize, Refusal>
    ensures size { Answers (writing (S.scene source.now).rows (length out.old)) (λ n. (n ≡ 3 + 4 * length (S.scene source.now).rows) × (n ≡ length (written (S.scene source.now).moments (S.scene source.now).rows))) result }
    ensures bytes { MatchResult result (λ _. out.new ≡ over (written (S.scene source.now).moments (S.scene source.now).rows) out.old) (λ _. out.new ≡ out.old) }
    ensures back { IfOk result (λ n. Reads (take n out.new) (found (S.scene source.now).moments (S.scene source.now).rows)) }
{
    let count = rows_written(source)?;
    let size = size_within(count, out.len())?;
    out[0] = START;
    out[1] = (source.moments() - 1) as u8;
    for (i, row) in source.rows().enumerate() {
        let at = 2 + 4 * i;
        out[at..at + 4].copy_from_slice(&row_bytes(row));
    }
    out[size - 1] = END;
    Ok(size)
}
