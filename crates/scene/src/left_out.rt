// A source without some of its rows.
ghost use Rattle.std.specs.Prelude.{◌≡◌, ℕ, ◌<◌, ◌≤◌, true, false, [], ◌∷◌, get_or, MatchOption, slice_index_or};
ghost use Rattle.scene.specs.declared.refusals.Refusal.TheVariants.{NoSuchRow};
ghost use Rattle.scene.specs.Checks.{Answers};
ghost use Rattle.scene.specs.Layers.{LeavesOut, left_lawful, left_out, leaving_out};
ghost use Rattle.scene.specs.Marks.{low, marked, unmarked, missed, Ranked, Open, InTurn};

use crate::refusals::Refusal;
use crate::sources::{MOST_ROWS, Row, Source};

// Positions from here on cannot be marked.
const MARKABLE: usize = 4096;

#[derive(Drop)]
pub struct LeftOut<'a, 'm, S> {
    below: &'a S,
    marks: &'m [u16],
    // The markable positions that remain, in rising sequence. Fixed arrays, so that making a layer needs no memory
    // from the heap and has no outcome beyond its refusals.
    positions: [u16; MARKABLE],
    // How many remain below each position up to the first that cannot be marked.
    ranks: [u16; MARKABLE + 1],
    ghost markable: { low marks.now ≡ true },
    ghost ranked: { Ranked (marked marks.now) ranks 4096 },
    ghost open: { Open (marked marks.now) positions (unmarked marks.now 4096) },
    ghost bounded: { unmarked marks.now 4096 ≤ 4096 },
    ghost sequence: { InTurn (marked marks.now) positions (unmarked marks.now 4096) },
}

// Whether a position may be marked.
fn check_mark(mark: u16) -> Result<(), Refusal>
    ensures { Answers ((NoSuchRow, 4095 < mark) ∷ []) (λ _. Unit {0}) result }
{
    if usize::from(mark) >= MARKABLE {
        return Err(Refusal::NoSuchRow);
    }
    Ok(())
}

// Which positions are marked.
fn mark_table(marks: &[u16]) -> Result<[bool; MARKABLE], Refusal>
    ensures { Answers (leaving_out marks.now) (λ table. (k : ℕ) → slice_index_or table k false ≡ marked marks.now k) result }
{
    let mut table = [false; MARKABLE];
    for mark in marks {
        check_mark(*mark)?;
        table[*mark as usize] = true;
    }
    Ok(table)
}

struct Remaining {
    positions: [u16; MARKABLE],
    ranks: [u16; MARKABLE + 1],
}

// The positions that the table does not mark, and how many there are below each position.
fn find_remaining(table: &[bool; MARKABLE]) -> Remaining
    ensures ranked { Ranked (λ k. get_or table.now k false) result.ranks 4096 }
    ensures open { Open (λ k. get_or table.now k false) result.positions (missed (λ k. get_or table.now k false) 0 4096) }
    ensures sequence { InTurn (λ k. get_or table.now k false) result.positions (missed (λ k. get_or table.now k false) 0 4096) }
{
    let mut positions = [0; MARKABLE];
    let mut ranks = [0; MARKABLE + 1];
    let mut open: u16 = 0;
    for (k, marked) in table.iter().enumerate() {
        if !*marked {
            positions[open as usize] = k as u16;
            open += 1;
        }
        ranks[k + 1] = open;
    }
    Remaining { positions, ranks }
}

impl<S> LeftOut<'_, '_, S> {
    // How many positions remain below a position up to the first that cannot be marked.
    fn rank(&self, position: usize) -> usize
        requires { position ≤ 4096 }
        ensures { result ≡ unmarked self.now.marks.now position }
    {
        usize::from(self.ranks[position])
    }

    // The markable position that stands behind so many that remain, if there is one.
    fn kept_position(&self, before: usize) -> Option<usize>
        ensures { MatchOption result (unmarked self.now.marks.now 4096 ≤ before) (λ p. (marked self.now.marks.now p ≡ false) × (unmarked self.now.marks.now p ≡ before)) }
    {
        let remaining = &self.positions[..self.rank(MARKABLE)];
        remaining.get(before).map(|position| usize::from(*position))
    }
}

impl<'a, 'm, S: Source> LeftOut<'a, 'm, S> {
    // Marks may come in any sequence and more than once; one past the end leaves nothing out.
    pub fn new(below: &'a S, marks: &'m [u16]) -> Result<LeftOut<'a, 'm, S>, Refusal>
        ensures { Answers (leaving_out marks.now) (λ l. LeavesOut (S.scene below.now) marks.now (left_out (S.scene l.below.now) l.marks.now)) result }
    {
        let table = mark_table(marks)?;
        let Remaining { positions, ranks } = find_remaining(&table);
        Ok(LeftOut {
            below,
            marks,
            positions,
            ranks,
        })
    }
}

impl<'a, 'm, S: Source> Source for LeftOut<'a, 'm, S> {
    ghost scene = { λ l. left_out (S.scene l.below.now) l.marks.now };

    ghost lawful = { λ l. left_lawful (S.scene l.below.now) l.marks.now (S.lawful l.below.now) };

    fn moments(&self) -> u16 {
        self.below.moments()
    }

    fn count(&self) -> usize {
        let below = self.below.count();
        if below <= MARKABLE {
            self.rank(below)
        } else {
            self.rank(MARKABLE) + (below - MARKABLE)
        }
    }

    fn row(&self, position: usize) -> Option<Row> {
        if position >= MOST_ROWS {
            return None;
        }
        match self.kept_position(position) {
            Some(below) => self.below.row(below),
            None => self.below.row(MARKABLE + (position - self.rank(MARKABLE))),
        }
    }
}
