// Whether some placement obeys the rows of a source.
ghost use Rattle.std.specs.Prelude.{◌≡◌, not, ◌&&◌, Decides, MatchOption};
ghost use Rattle.algebra.specs.Points.{has};
ghost use Rattle.algebra.specs.declared.points.Relation.TheVariants.{Together};
ghost use Rattle.scene.specs.Scenes.{Agree, Clash};
ghost use Rattle.graph.specs.Clashes.{ClashTheorem, SomeImpossible};
ghost use Rattle.graph.specs.Reaching.{Tells, reaches};

use crate::closure::Closure;
use algebra::points::Relation;
use scene::sources::{ByteRow, Source};

// A source, and what the steps of its rows reach.
#[derive(Drop)]
pub(crate) struct Reached<'a, S: Source> {
    pub(crate) source: &'a S,
    pub(crate) closure: Closure,
    ghost tells: { ∥ Tells (reaches closure.matrix.rows) (S.scene source.now).rows ∥₁ },
}

impl<'a, S: Source> Reached<'a, S> {
    pub(crate) fn of(source: &'a S) -> Self
        ensures { result.source.now ≡ source.now }
    {
        Reached {
            source,
            closure: Closure::of(source),
        }
    }

    // Whether a row lacks together and has both ends in one group.
    fn is_impossible(&self, row: ByteRow) -> bool
        ensures { result ≡ (not (has row.1 Together) && (reaches self.now.closure.matrix.rows row.0 row.2 && reaches self.now.closure.matrix.rows row.2 row.0)) }
    {
        let (left, set, right) = row;
        !Relation::Together.is_in(set) && self.closure.same_group(left, right)
    }

    // Whether some row of the source is so.
    fn has_impossible_row(&self) -> bool
        ensures { Decides result (SomeImpossible (S.scene self.now.source.now).rows (S.scene self.now.source.now).rows) }
    {
        self.source.rows().any(|row| self.is_impossible(row))
    }

    // None where the rows clash.
    pub(crate) fn without_clash(source: &'a S) -> Option<Self>
        ensures { MatchOption result (Clash (S.scene source.now).rows) (λ r. Agree (S.scene source.now).rows × (r.source.now ≡ source.now)) }
    {
        let reached = Reached::of(source);
        (!reached.has_impossible_row()).then_some(reached)
    }
}

// What the steps of a source's rows reach; none where the rows clash.
pub fn closure_without_clash<S: Source>(source: &S) -> Option<Closure>
    ensures { MatchOption result (Clash (S.scene source.now).rows) (λ c. Agree (S.scene source.now).rows × Tells (reaches c.matrix.rows) (S.scene source.now).rows) }
{
    let reached = Reached::without_clash(source)?;
    Some(reached.closure)
}

// Whether some placement obeys all rows of a source.
pub fn consistent<S: Source>(source: &S) -> bool
    ensures agrees { Decides result (Agree (S.scene source.now).rows) }
    ensures theorem { ClashTheorem (S.scene source.now).rows }
{
    closure_without_clash(source).is_some()
}
