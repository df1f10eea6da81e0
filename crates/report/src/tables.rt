// What the table printer prints.
ghost use Rattle.std.specs.Prelude.{◌≡◌, IfOk, string_bytes};
ghost use Rattle.report.specs.Tables.{Shown, found_text, refused_text};

use crate::rows::{hex, listing};
use scene::sources::MOST_WORKING_ROWS;
use std::alloc::{AllocError, Global};
use table::reader::{ReadError, TableFault, read_table};
use table::tables::Table;
use table::writer::write_table;

// The bytes of the longest table that is written.
const MOST_WRITTEN: usize = 3 + 4 * MOST_WORKING_ROWS;

// The line of a refusal.
#[tactic(auto, using(crate::proofs::Refused::fault_line))]
fn text_of_fault(heap: Global, fault: TableFault) -> Result<String, AllocError>
    ensures { IfOk result (λ s. string_bytes s ≡ refused_text fault.refusal fault.place) }
{
    format!(in heap; "refused\t{fault}\n")
}

// The moments and rows of a table, and its bytes as they are written.
fn text_of_table(heap: Global, table: &Table) -> Result<String, AllocError>
    ensures { IfOk result (λ s. string_bytes s ≡ found_text table.now.moments table.now.rows.items) }
{
    // A list with a count, since the writer fills the list of its caller.
    let mut out = [0; MOST_WRITTEN];
    let size = write_table(table, &mut out).unwrap();
    let rows = listing(heap, table)?;
    let bytes = hex(heap, &out[..size])?;
    format!(in heap; "{rows}written\t{size}\t{bytes}\n")
}

// The text for any bytes: the table that they are, or why they are none.
pub fn table_text(heap: Global, bytes: &[u8]) -> Result<String, AllocError>
    ensures { IfOk result (λ s. Shown bytes.now (string_bytes s)) }
{
    match read_table(heap, bytes) {
        Ok(table) => text_of_table(heap, &table),
        Err(ReadError::Refused(fault)) => text_of_fault(heap, fault),
        Err(ReadError::NoMemory) => Err(AllocError),
    }
}
