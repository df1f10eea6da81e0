// The thirteen relations between titles.
ghost use Rattle.std.specs.Prelude.{◌≡◌, MatchOption};
ghost use Rattle.algebra.specs.Titles.{facts, NoSymbol, pairs, sign, holds, thirteen, OneHolds};

use crate::points::{Relation, has_value};

// A relation's number is what it adds to a set of title relations.
#[derive(Clone, Copy, Debug, PartialEq, Eq)]
pub enum TitleRelation {
    Precedes = 1,
    PrecededBy = 2,
    Meets = 4,
    MetBy = 8,
    Overlaps = 16,
    OverlappedBy = 32,
    During = 64,
    Contains = 128,
    Starts = 256,
    StartedBy = 512,
    Finishes = 1024,
    FinishedBy = 2048,
    Equals = 4096,
}

// A moment of one title beside a moment of another: the four pairs that are compared.
#[derive(Clone, Copy, Debug, PartialEq, Eq)]
pub enum Pair {
    RiseRise,
    RiseFall,
    FallRise,
    FallFall,
}

impl Pair {
    // The four, in the sequence of the signs.
    pub(crate) fn all() -> [Pair; 4]
        ensures { result ≡ pairs }
    {
        [
            Pair::RiseRise,
            Pair::RiseFall,
            Pair::FallRise,
            Pair::FallFall,
        ]
    }
}

impl TitleRelation {
    // Of two titles that rise before they fall, exactly one of the thirteen holds.
    pub fn all() -> [TitleRelation; 13]
        ensures list { result ≡ thirteen }
        ensures one { OneHolds result }
    {
        TitleRelation::listed()
    }

    // The thirteen, by rising value.
    fn listed() -> [TitleRelation; 13]
        ensures { result ≡ thirteen }
    {
        [
            TitleRelation::Precedes,
            TitleRelation::PrecededBy,
            TitleRelation::Meets,
            TitleRelation::MetBy,
            TitleRelation::Overlaps,
            TitleRelation::OverlappedBy,
            TitleRelation::During,
            TitleRelation::Contains,
            TitleRelation::Starts,
            TitleRelation::StartedBy,
            TitleRelation::Finishes,
            TitleRelation::FinishedBy,
            TitleRelation::Equals,
        ]
    }

    // What the relation adds to a set of title relations.
    pub fn value(self) -> u16
        ensures { result ≡ (facts self).value }
    {
        self as u16
    }

    // As text, for comparing; nothing prints it.
    pub fn symbol(self) -> &'static str
        ensures { result.now ≡ (facts self).symbol }
    {
        match self {
            TitleRelation::Precedes => "b",
            TitleRelation::PrecededBy => "bi",
            TitleRelation::Meets => "m",
            TitleRelation::MetBy => "mi",
            TitleRelation::Overlaps => "o",
            TitleRelation::OverlappedBy => "oi",
            TitleRelation::During => "d",
            TitleRelation::Contains => "di",
            TitleRelation::Starts => "s",
            TitleRelation::StartedBy => "si",
            TitleRelation::Finishes => "f",
            TitleRelation::FinishedBy => "fi",
            TitleRelation::Equals => "eq",
        }
    }

    // The relation that has this symbol. Of other bytes there is no more to say, so no error type is needed. The table
    // stands here once more, since a search through the symbols took up to eleven times as long.
    pub fn of_symbol(bytes: &[u8]) -> Option<TitleRelation>
        ensures { MatchOption result (NoSymbol bytes.now) (λ t. bytes.now ≡ (facts t).symbol) }
    {
        match bytes {
            b"b" => Some(TitleRelation::Precedes),
            b"bi" => Some(TitleRelation::PrecededBy),
            b"m" => Some(TitleRelation::Meets),
            b"mi" => Some(TitleRelation::MetBy),
            b"o" => Some(TitleRelation::Overlaps),
            b"oi" => Some(TitleRelation::OverlappedBy),
            b"d" => Some(TitleRelation::During),
            b"di" => Some(TitleRelation::Contains),
            b"s" => Some(TitleRelation::Starts),
            b"si" => Some(TitleRelation::StartedBy),
            b"f" => Some(TitleRelation::Finishes),
            b"fi" => Some(TitleRelation::FinishedBy),
            b"eq" => Some(TitleRelation::Equals),
            _ => None,
        }
    }

    // The four signs: how the moments of each pair stand to each other.
    fn signs(self) -> [Relation; 4]
        ensures { result ≡ (facts self).signs }
    {
        let (b, t, a) = (Relation::Before, Relation::Together, Relation::After);
        match self {
            TitleRelation::Precedes => [b, b, b, b],
            TitleRelation::PrecededBy => [a, a, a, a],
            TitleRelation::Meets => [b, b, t, b],
            TitleRelation::MetBy => [a, t, a, a],
            TitleRelation::Overlaps => [b, b, a, b],
            TitleRelation::OverlappedBy => [a, b, a, a],
            TitleRelation::During => [a, b, a, b],
            TitleRelation::Contains => [b, b, a, a],
            TitleRelation::Starts => [t, b, a, b],
            TitleRelation::StartedBy => [t, b, a, a],
            TitleRelation::Finishes => [a, b, a, t],
            TitleRelation::FinishedBy => [b, b, a, t],
            TitleRelation::Equals => [t, b, a, t],
        }
    }

    pub fn sign(self, pair: Pair) -> Relation
        ensures { result ≡ sign self pair }
    {
        // By a match: the signs taken by an index made the sets of a rule take three times as long.
        let [rises, rise_fall, fall_rise, falls] = self.signs();
        match pair {
            Pair::RiseRise => rises,
            Pair::RiseFall => rise_fall,
            Pair::FallRise => fall_rise,
            Pair::FallFall => falls,
        }
    }

    // Whether the set holds the relation. A set is a number, as in rules; a type of its own would ask callers to make one.
    pub fn is_in(self, set: u16) -> bool
        ensures { result ≡ holds set self }
    {
        has_value(set, self.value())
    }
}
