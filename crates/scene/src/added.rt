// A source with a few rows more.
ghost use Rattle.std.specs.Prelude.{◌≡◌, ◌≤◌, true, length};
ghost use Rattle.scene.specs.Checks.{Answers};
ghost use Rattle.scene.specs.Layers.{Piled, added, added_lawful, adding, of_row, of_count};
ghost use Rattle.scene.specs.Scenes.{all_fit};

use crate::piles::{check_pile, pile_count, pile_row};
use crate::refusals::Refusal;
use crate::sources::{Row, Source, row_in};

// The most rows in one addition.
const MOST_ADDED: usize = 6;

#[derive(Drop)]
pub struct Added<'a, 'm, S> {
    below: &'a S,
    more: &'m [Row],
    // The number of moments that the rows were checked against.
    moments: u16,
    ghost few: { moments ≤ 256 },
    ghost own: { all_fit moments more.now ≡ true },
    ghost short: { length more.now ≤ 6 },
}

// Whether a row may stand in a scene of so many moments.
pub fn check_row(row: Row, moments: u16) -> Result<(), Refusal>
    ensures { Answers (of_row moments row) (λ _. Unit {0}) result }
{
    let (left, set, right) = row;
    if left >= moments || right >= moments {
        return Err(Refusal::OutsideScene);
    }
    if set < 1 || set > 7 {
        return Err(Refusal::SetOutOfRange);
    }
    Ok(())
}

// Whether so many rows may be added to those below.
fn check_count<S: Source>(below: &S, more: usize) -> Result<(), Refusal>
    ensures { Answers (of_count (length (S.scene below.now).rows) more) (λ _. Unit {0}) result }
{
    if more > MOST_ADDED {
        return Err(Refusal::TooManyRows);
    }
    check_pile(below, more)
}

impl<'a, 'm, S: Source> Added<'a, 'm, S> {
    // Each row is checked in turn, then how many there are.
    pub fn new(below: &'a S, more: &'m [Row]) -> Result<Added<'a, 'm, S>, Refusal>
        ensures { Answers (adding (S.scene below.now) more.now) (λ a. Piled (S.scene below.now).moments (S.scene below.now).rows more.now (added (S.scene a.below.now) a.moments a.more.now)) result }
    {
        let moments = below.moments();
        for row in more {
            check_row(*row, moments)?;
        }
        check_count(below, more.len())?;
        Ok(Added {
            below,
            more,
            moments,
        })
    }
}

impl<'a, 'm, S: Source> Source for Added<'a, 'm, S> {
    ghost scene = { λ a. added (S.scene a.below.now) a.moments a.more.now };

    ghost lawful = { λ a. added_lawful (S.scene a.below.now) a.moments a.more.now (S.lawful a.below.now) a.few a.own };

    fn moments(&self) -> u16 {
        self.below.moments().max(self.moments)
    }

    fn count(&self) -> usize {
        pile_count(self.below, self.more.len())
    }

    fn row(&self, position: usize) -> Option<Row> {
        pile_row(self.below, |k| row_in(self.more, k), position)
    }
}
