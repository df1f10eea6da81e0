// Which moment reaches which by the steps of rows.
ghost use Rattle.std.specs.Prelude.{◌≡◌, ℕ, ◌+◌, ◌%◌, ◌<◌, true, ◌&&◌, List, [], ◌==◌};
ghost use Rattle.std.specs.List.{slice_get};
ghost use Rattle.algebra.specs.Placements.{Row};
ghost use Rattle.graph.specs.Sets.{holds};
ghost use Rattle.graph.specs.Within.{TellsWithin};
ghost use Rattle.graph.specs.Reaching.{Inside, Joins, Selfs, Tells, TellsMore, TellsSteps, grown, reaches, stepped};

use crate::moments::Moments;
use algebra::points::Relation;
use scene::sources::{ByteRow, Source};

// For each of 256 moments, the set of moments that it leads to.
#[derive(Clone, Copy)]
struct Matrix {
    rows: [Moments; 256],
}

// For each of 256 moments, the set of moments that it reaches.
#[derive(Clone, Copy)]
pub struct Closure {
    matrix: Matrix,
    ghost selfs: { Selfs (reaches matrix.rows) },
    ghost joins: { Joins (reaches matrix.rows) },
}

impl Closure {
    // Each moment reaches itself alone.
    pub fn new() -> Self
        ensures alone { (x y : ℕ) → x < 256 → y < 256 → reaches result.matrix.rows x y ≡ (x == y) }
        ensures paths { Tells (reaches result.matrix.rows) [] }
    {
        Closure {
            matrix: Matrix::alone(),
        }
    }

    // What the steps of a source's rows reach.
    pub fn of<S: Source>(source: &S) -> Self
        ensures { Tells (reaches result.matrix.rows) (S.scene source.now).rows }
    {
        let mut matrix = Matrix::of_steps(source);
        matrix.close();
        Closure { matrix }
    }

    pub fn reaches(&self, from: u8, to: u8) -> bool
        ensures { result ≡ reaches self.now.matrix.rows from to }
    {
        self.matrix.rows[from as usize].has(to)
    }

    // The set of moments that one reaches.
    pub(crate) fn reached_from(&self, from: u8) -> Moments
        ensures { (y : ℕ) → holds result y ≡ reaches self.now.matrix.rows from y }
    {
        self.matrix.rows[from as usize]
    }

    // Whether two moments reach one another.
    pub fn same_group(&self, x: u8, y: u8) -> bool
        ensures { result ≡ (reaches self.now.matrix.rows x y && reaches self.now.matrix.rows y x) }
    {
        self.reaches(x, y) && self.reaches(y, x)
    }

    // One more step.
    pub fn add_step(&mut self, from: u8, to: u8)
        ensures grown { (x y : ℕ) → x < 256 → y < 256 → reaches self.new.matrix.rows x y ≡ grown (reaches self.old.matrix.rows) from to x y }
        ensures paths { (rs : List Row) → Tells (reaches self.old.matrix.rows) rs → TellsMore (reaches self.new.matrix.rows) rs from to }
    {
        if self.reaches(from, to) {
            return;
        }
        self.matrix.grow(from, to);
    }
}

impl Matrix {
    // Each moment in a set of its own.
    fn alone() -> Self
        ensures { (x y : ℕ) → x < 256 → y < 256 → reaches result.rows x y ≡ (x == y) }
    {
        let mut rows = [Moments::none(); 256];
        for (x, row) in rows.iter_mut().enumerate() {
            row.put(x as u8);
        }
        Matrix { rows }
    }

    // Whatever leads to p leads to all that q does.
    fn grow(&mut self, p: u8, q: u8)
        ensures { (x y : ℕ) → x < 256 → y < 256 → reaches self.new.rows x y ≡ grown (reaches self.old.rows) p q x y }
    {
        let more = self.rows[q as usize];
        for row in &mut self.rows {
            row.follow(p, more);
        }
    }

    // Adds the steps of a row. By `put_if`: with an `if` around `put`, consistency takes 1.7 times plain Rust, which is
    // above its limit.
    fn put_steps(&mut self, row: ByteRow)
        ensures { (x y : ℕ) → x < 256 → y < 256 → reaches self.new.rows x y ≡ stepped row (reaches self.old.rows) x y }
    {
        let (left, set, right) = row;
        self.rows[left as usize].put_if(!Relation::After.is_in(set), right);
        self.rows[right as usize].put_if(!Relation::Before.is_in(set), left);
    }

    // Each moment with those that one step leads to.
    fn of_steps<S: Source>(source: &S) -> Self
        ensures { TellsSteps (reaches result.rows) (S.scene source.now).rows }
    {
        let mut matrix = Matrix::alone();
        for row in source.rows() {
            matrix.put_steps(row);
        }
        matrix
    }

    // Lets paths pass through a moment and the next one, where they passed only through those before. The two are
    // first closed under one another; then each row takes what is reached from those of the two that it has.
    fn pass_pair(&mut self, first: u8)
        requires { first % 2 ≡ 0 }
        ensures { (rs : List Row) → TellsWithin (reaches self.old.rows) rs first → TellsWithin (reaches self.new.rows) rs (first + 2) }
    {
        let mut one = self.rows[first as usize];
        let mut next = self.rows[first as usize + 1];
        next.follow(first, one);
        one.follow(first + 1, next);
        let unions = [Moments::none(), one, next, one.join(next)];
        for row in &mut self.rows {
            *row = row.join(unions[row.pair_from(first)]);
        }
    }

    // Makes paths of steps.
    fn close(&mut self)
        ensures { (rs : List Row) → Inside rs → TellsSteps (reaches self.old.rows) rs → Tells (reaches self.new.rows) rs }
    {
        for first in (0..=254).step_by(2) {
            self.pass_pair(first);
        }
    }
}
