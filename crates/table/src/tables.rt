// A house table that was read: a source.
ghost use Rattle.std.specs.Prelude.{◌≡◌, ◌≤◌, true, length};
ghost use Rattle.scene.specs.Scenes.{all_fit};
ghost use Rattle.table.specs.Tables.{tabled, tabled_lawful};

use scene::sources::{Row, Source, row_in};

#[derive(Drop)]
pub struct Table {
    pub(crate) moments: u16,
    pub(crate) rows: Vec<Row>,
    ghost some: { 1 ≤ moments },
    ghost few: { moments ≤ 256 },
    ghost short: { length rows.items ≤ 4096 },
    ghost own: { all_fit moments rows.items ≡ true },
}

impl Source for Table {
    ghost scene = { λ t. tabled t.moments t.rows.items };

    ghost lawful = { λ t. tabled_lawful t.moments t.rows.items t.some t.few t.short t.own };

    fn moments(&self) -> u16 {
        self.moments
    }

    fn count(&self) -> usize {
        self.rows.len()
    }

    fn row(&self, position: usize) -> Option<Row> {
        row_in(&self.rows, position)
    }
}
