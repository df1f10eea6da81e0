// A source whose rows are read from right to left, so that each step leads the other way.
ghost use Rattle.graph.specs.Turned.{turned_lawful, turned_scene};

use scene::sources::{Row, Source};

#[derive_where(Clone, Copy)]
pub struct Turned<'a, S> {
    pub below: &'a S,
}

impl<'a, S: Source> Source for Turned<'a, S> {
    ghost scene = { λ t. turned_scene (S.scene t.below.now) };

    ghost lawful = { λ t. turned_lawful (S.scene t.below.now) (S.lawful t.below.now) };

    fn moments(&self) -> u16 {
        self.below.moments()
    }

    fn count(&self) -> usize {
        self.below.count()
    }

    fn row(&self, position: usize) -> Option<Row> {
        let (left, set, right) = self.below.row(position)?;
        Some((right, set, left))
    }
}
