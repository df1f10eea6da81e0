// A scene of 256 moments and 4,096 rows that a program in another language lends.
ghost use Rattle.std.specs.Prelude.{◌≡◌};
ghost use Rattle.bench_calls.specs.Lent.{inside, seen, lent, lent_lawful};

use scene::sources::{Row, Source, row_in};

// The left moment, the set of relations, the right moment.
#[derive(Clone, Copy)]
#[repr(C)]
pub struct BenchRow {
    left: u8,
    set: u8,
    right: u8,
}

#[repr(C)]
pub struct BenchScene {
    rows: [BenchRow; 4096],
}

// A set from 1 to 7 for any byte: its three low bits, and 7 where these are 0.
fn set_inside(byte: u8) -> u8
    ensures { result ≡ inside byte }
{
    let low = byte % 8;
    if low == 0 { 7 } else { low }
}

// The row as the scene has it.
impl From<BenchRow> for Row {
    ghost from_gives = { λ b r. r ≡ seen b };

    fn from(row: BenchRow) -> Row {
        (
            u16::from(row.left),
            set_inside(row.set),
            u16::from(row.right),
        )
    }
}

// Lawful for any bytes.
impl Source for BenchScene {
    ghost scene = { λ s. lent s.rows };

    ghost lawful = { λ s. lent_lawful s.rows };

    fn moments(&self) -> u16 {
        256
    }

    fn count(&self) -> usize {
        self.rows.len()
    }

    fn row(&self, position: usize) -> Option<Row> {
        let row = row_in(&self.rows, position)?;
        Some(Row::from(row))
    }
}
