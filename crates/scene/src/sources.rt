// A source answers rows; what it means is a scene.
ghost use Rattle.std.specs.Prelude.{◌≡◌, length, drop};
ghost use Rattle.std.specs.Iterator.{YieldsFirst, item_count};
ghost use Rattle.scene.specs.Scenes.{Scene, Lawful};
ghost use Rattle.std.specs.List.{slice_get};

// The left moment, the set of relations, the right moment: plain numbers, as any writer of a source answers them.
pub type Row = (u16, u8, u16);

// A row of a source: its moments are below 256, so that each is a byte.
pub type ByteRow = (u8, u8, u8);

// The most moments that a scene may have.
pub const MOST_MOMENTS: u16 = 256;

// The most rows that a source may have.
pub const MOST_ROWS: usize = 8192;

// The most rows of a sheet or a table, and of a source that is questioned or written.
pub const MOST_WORKING_ROWS: usize = 4096;

pub trait Source {
    // The moments and rows that the source stands for.
    ghost scene: { Self → Scene };

    // 1 to 256 moments, and at most 8,192 rows, which name moments of the source and have sets from 1 to 7. It stands
    // above the methods, so that clauses can name it and it is known of a `&dyn Source` too.
    ghost lawful: { (s : Self) → Lawful (scene s) };

    fn moments(&self) -> u16
        ensures { result ≡ (scene self.now).moments };

    fn count(&self) -> usize
        ensures { result ≡ length (scene self.now).rows };

    // The row at a position counted from 0; none at or past the end.
    fn row(&self, position: usize) -> Option<Row>
        ensures { result ≡ slice_get (scene self.now).rows position };

    // The rows from the first to the last.
    final fn rows(&self) -> Rows<'_, Self>
        ensures source { result.source.now ≡ self.now }
        ensures start { result.position ≡ 0 }
    {
        Rows {
            source: self,
            position: 0,
        }
    }
}

// The rows of a source, from a position on.
#[derive_where(Clone, Copy)]
pub struct Rows<'a, S> {
    source: &'a S,
    position: usize,
}

impl<'a, S: Source> Iterator for Rows<'a, S> {
    type Item = ByteRow;

    ghost next_gives = { YieldsFirst (λ r. drop r.position (S.scene r.source.now).rows) };

    ghost remaining = { item_count (λ r. drop r.position (S.scene r.source.now).rows) };

    #[tactic(auto, using(crate::proofs::Positions::rest_past, crate::proofs::Positions::there_below))]
    fn next(&mut self) -> Option<ByteRow> {
        let (left, set, right) = self.source.row(self.position)?;
        self.position += 1;
        Some((left as u8, set, right as u8))
    }
}

// The row at a position of a list, of whatever kind its rows are; none at or past its end.
pub fn row_in<T: Copy>(rows: &[T], position: usize) -> Option<T>
    ensures { result ≡ slice_get rows.now position }
{
    rows.get(position).copied()
}
