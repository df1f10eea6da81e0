// What a title rule says of the moments of its titles.
ghost use Rattle.std.specs.Prelude.{◌≡◌, if◌then◌else◌, Some, None};
ghost use Rattle.algebra.specs.Rules.{shows, shown, share, sign_set, sign_sets, fits, settled, closed, pointisable, rows_with, ruled, sets_if, Exact, Worked};

use crate::points::Relation;
use crate::titles::{Pair, TitleRelation};

// The largest set of title relations.
pub const ALL_RELATIONS: u16 = 8191;

// Whether a member of the set has the sign at the pair.
fn is_shown(set: u16, pair: Pair, sign: Relation) -> bool
    ensures { result ≡ shown set pair sign }
{
    TitleRelation::all()
        .iter()
        .any(|t| t.is_in(set) && t.sign(pair) == sign)
}

// The signs that the members of the set have at the pair.
fn set_at(set: u16, pair: Pair) -> u8
    ensures { result ≡ sign_set set pair }
{
    let share = |sign: Relation| {
        if is_shown(set, pair, sign) {
            sign.value()
        } else {
            0
        }
    };
    share(Relation::Before) + share(Relation::Together) + share(Relation::After)
}

// The four sets of a title rule, in the sequence of the pairs. One by one: a map over the pairs took nearly twice as long.
pub fn sets_of(set: u16) -> [u8; 4]
    ensures { result ≡ sign_sets set }
{
    [
        set_at(set, Pair::RiseRise),
        set_at(set, Pair::RiseFall),
        set_at(set, Pair::FallRise),
        set_at(set, Pair::FallFall),
    ]
}

// Whether all four signs of a title relation are in the sets.
fn is_within(t: TitleRelation, sets: [u8; 4]) -> bool
    ensures { result ≡ fits t sets }
{
    Pair::all()
        .iter()
        .all(|pair| t.sign(*pair).is_in(sets[*pair as usize]))
}

// Whether a title relation is in the set, or has a sign outside the set's four sets.
fn is_settled(set: u16, sets: [u8; 4], t: TitleRelation) -> bool
    requires { sets ≡ sign_sets set }
    ensures { result ≡ settled set t }
{
    t.is_in(set) || !is_within(t, sets)
}

// Whether no relation outside the set has all four signs in the set's four sets.
fn is_closed(set: u16) -> bool
    ensures { result ≡ closed set }
{
    let sets = sets_of(set);
    TitleRelation::all()
        .iter()
        .all(|t| is_settled(set, sets, *t))
}

// Whether the set is one of a title rule, and closed.
pub fn is_pointisable(set: u16) -> bool
    ensures { result ≡ pointisable set }
{
    1 <= set && set <= ALL_RELATIONS && is_closed(set)
}

// The four sets of a rule, where it is pointisable; they are not made where it is not.
fn sets_where(set: u16) -> Option<[u8; 4]>
    ensures { result ≡ sets_if set }
{
    if !is_pointisable(set) {
        return None;
    }
    Some(sets_of(set))
}

// The four sets of a rule, where it is pointisable, with three that are worked by hand.
pub fn pointisable_sets(set: u16) -> Option<[u8; 4]>
    ensures value { result ≡ sets_if set }
    ensures worked { Worked }
{
    sets_where(set)
}

// The rows of four sets from title x to title y.
pub fn rows_with(x: u8, sets: [u8; 4], y: u8) -> [(u16, u8, u16); 4]
    ensures { result ≡ rows_with x sets y }
{
    let [rises, rise_fall, fall_rise, falls] = sets;
    let (x, y) = (2 * u16::from(x), 2 * u16::from(y));
    [
        (x, rises, y),
        (x, rise_fall, y + 1),
        (x + 1, fall_rise, y),
        (x + 1, falls, y + 1),
    ]
}

// The four rows of a pointisable rule from title x to title y.
pub fn rows_of(x: u8, set: u16, y: u8) -> Option<[(u16, u8, u16); 4]>
    ensures value { result ≡ (if pointisable set then Some (ruled x set y) else None) }
    ensures exact { Exact x set y result }
{
    let sets = sets_where(set)?;
    Some(rows_with(x, sets, y))
}
