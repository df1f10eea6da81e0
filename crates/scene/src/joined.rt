// Two sources as one: the rows of the first, then those of the second.
ghost use Rattle.std.specs.Prelude.{max};
ghost use Rattle.scene.specs.Checks.{Answers};
ghost use Rattle.scene.specs.Layers.{Piled, joined, joined_lawful, joining};

use crate::piles::{check_pile, pile_count, pile_row};
use crate::refusals::Refusal;
use crate::sources::{Row, Source};

#[derive_where(Clone, Copy)]
pub struct Joined<'a, 'b, S, T> {
    first: &'a S,
    second: &'b T,
}

impl<'a, 'b, S: Source, T: Source> Joined<'a, 'b, S, T> {
    // Refused where the two have more rows together than a source may have.
    pub fn new(first: &'a S, second: &'b T) -> Result<Joined<'a, 'b, S, T>, Refusal>
        ensures { Answers (joining (S.scene first.now) (T.scene second.now)) (λ j. Piled (max (S.scene first.now).moments (T.scene second.now).moments) (S.scene first.now).rows (T.scene second.now).rows (joined (S.scene j.first.now) (T.scene j.second.now))) result }
    {
        check_pile(first, second.count())?;
        Ok(Joined { first, second })
    }
}

impl<'a, 'b, S: Source, T: Source> Source for Joined<'a, 'b, S, T> {
    ghost scene = { λ j. joined (S.scene j.first.now) (T.scene j.second.now) };

    ghost lawful = { λ j. joined_lawful (S.scene j.first.now) (T.scene j.second.now) (S.lawful j.first.now) (T.lawful j.second.now) };

    fn moments(&self) -> u16 {
        self.first.moments().max(self.second.moments())
    }

    fn count(&self) -> usize {
        pile_count(self.first, self.second.count())
    }

    fn row(&self, position: usize) -> Option<Row> {
        pile_row(self.first, |k| self.second.row(k), position)
    }
}
