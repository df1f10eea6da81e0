// The three relations between moments, and sets of them.
ghost use Rattle.std.specs.Prelude.{◌≡◌, ◌/◌, ◌%◌, ◌≤◌, ◌==◌, Some};
ghost use Rattle.algebra.specs.Points.{value_of, word_of, has};

use std::fmt;

// A relation's number is what it adds to a set.
#[derive(Clone, Copy, Debug, PartialEq, Eq)]
pub enum Relation {
    Before = 1,
    Together = 2,
    After = 4,
}

impl Relation {
    // What the relation adds to a set.
    pub fn value(self) -> u8
        ensures { result ≡ value_of self }
    {
        self as u8
    }

    pub fn word(self) -> &'static str
        ensures { result.now ≡ word_of self }
    {
        match self {
            Relation::Before => "before",
            Relation::Together => "together",
            Relation::After => "after",
        }
    }

    // Whether the set holds the relation. A set is a number, as in rows; a type of its own would ask callers to make one.
    pub fn is_in(self, set: u8) -> bool
        ensures { result ≡ has set self }
    {
        has_value(u16::from(set), u16::from(self.value()))
    }
}

impl fmt::Display for Relation {
    ghost output = { λ q. Some (word_of q) };

    fn fmt<W: fmt::Write>(&self, f: &mut fmt::Formatter<W>) -> fmt::Result {
        f.write_str(self.word())
    }
}

// Whether a set, the sum of the values of its members, has the one with this value.
pub(crate) fn has_value(set: u16, value: u16) -> bool
    requires { 1 ≤ value }
    ensures { result ≡ (set / value % 2 == 1) }
{
    set / value % 2 == 1
}
