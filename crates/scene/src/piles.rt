// One list of rows on those of a source, of which at most the first 8,192 are answered.
ghost use Rattle.std.specs.Prelude.{◌≡◌, ℕ, ◌+◌, ◌<◌, min, List, [], ◌∷◌, length};
ghost use Rattle.std.specs.List.{slice_get};
ghost use Rattle.algebra.specs.Placements.{Row};
ghost use Rattle.scene.specs.declared.refusals.Refusal.TheVariants.{TooManyRows};
ghost use Rattle.scene.specs.Checks.{Answers};
ghost use Rattle.scene.specs.Layers.{pile};

use crate::refusals::Refusal;
use crate::sources::{MOST_ROWS, Row, Source};

// The row at a position of the pile, where the function answers the rows above.
#[tactic(auto, using(crate::proofs::Pile::pile_above))]
pub(crate) fn pile_row<S: Source, F: FnOnce(usize) -> Option<Row>>(
    below: &S,
    above: F,
    position: usize,
) -> Option<Row>
    requires { F.IsAlwaysCallable above }
    ensures { (more : List Row) → ((k : ℕ) (r : _) → k < 8192 → F.post above k r → r ≡ slice_get more k) → result ≡ slice_get (pile (S.scene below.now).rows more) position }
{
    if position >= MOST_ROWS {
        return None;
    }
    match position.checked_sub(below.count()) {
        Some(position) => above(position),
        None => below.row(position),
    }
}

// How many rows of the pile are answered.
pub(crate) fn pile_count<S: Source>(below: &S, above: usize) -> usize
    ensures { result ≡ min (length (S.scene below.now).rows + above) 8192 }
{
    below.count().saturating_add(above).min(MOST_ROWS)
}

// Whether all rows of a pile are answered.
pub(crate) fn check_pile<S: Source>(below: &S, above: usize) -> Result<(), Refusal>
    ensures { Answers ((TooManyRows, 8192 < length (S.scene below.now).rows + above) ∷ []) (λ _. Unit {0}) result }
{
    if below.count().saturating_add(above) > MOST_ROWS {
        return Err(Refusal::TooManyRows);
    }
    Ok(())
}
