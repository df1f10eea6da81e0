// The order: groups take their places turn by turn, the lowest leader that is ready first.
ghost use Rattle.std.specs.Prelude.{◌≡◌, ℕ, ◌<◌, ◌≤◌, false, ◌&&◌, ◌||◌, length, Decides, MatchResult, nat_lt};
ghost use Rattle.scene.specs.Checks.{Answers};
ghost use Rattle.graph.specs.Free.{Clear, Free, Grouped, LowestFree};
ghost use Rattle.graph.specs.Orders.{Beyond, OneOrder, Ordered, Owed, ordering};
ghost use Rattle.graph.specs.Reaching.{Tells, reaches};
ghost use Rattle.graph.specs.Sets.{holds};
ghost use Rattle.graph.specs.Turned.{turned_scene};
ghost use Rattle.graph.specs.Worked.{Worked};

use crate::closure::Closure;
use crate::consistency::Reached;
use crate::moments::Moments;
use crate::turned::Turned;
use scene::refusals::Refusal;
use scene::sources::Source;

// The place of a moment, counted from 1, and the leader of its group.
#[derive(Clone, Copy, Debug, PartialEq, Eq)]
#[repr(C)]
pub struct Entry {
    pub place: u16,
    pub leader: u16,
}

impl Entry {
    fn new(place: u16, leader: u8) -> Self
        ensures { result ≡ record { place = place; leader = leader } }
    {
        let leader = u16::from(leader);
        Entry { place, leader }
    }
}

// Groups that take their places: what each moment reaches, what reaches it, who has a place, and how many moments there
// are. The source is asked for that once for all turns, since it may have to count.
#[derive(Drop)]
struct Placing<'a, S: Source> {
    reached: &'a Reached<'a, S>,
    back: Closure,
    placed: Moments,
    moments: u16,
    ghost counted: { moments ≡ (S.scene reached.now.source.now).moments },
    ghost back_tells: { ∥ Tells (reaches back.matrix.rows) (turned_scene (S.scene reached.now.source.now)).rows ∥₁ },
}

impl<'a, S: Source> Placing<'a, S> {
    // No moment has a place.
    fn new(reached: &'a Reached<'a, S>) -> Self
        ensures same { result.reached.now ≡ reached.now }
        ensures none { (v : ℕ) → v < 256 → holds result.placed v ≡ false }
    {
        let back = Closure::of(&Turned {
            below: reached.source,
        });
        Placing {
            reached,
            back,
            placed: Moments::none(),
            moments: reached.source.moments(),
        }
    }

    // Whether whoever reaches a moment has a place, or is of its group.
    fn is_clear(&self, moment: u8) -> bool
        ensures { Decides result (Clear (reaches self.now.reached.now.closure.matrix.rows) (reaches self.now.back.matrix.rows) (holds self.now.placed) moment) }
    {
        let allowed = self.reached.closure.reached_from(moment).join(self.placed);
        self.back.reached_from(moment).within(allowed)
    }

    // Whether a moment has no place, and no other group without a place reaches it.
    fn is_free(&self, moment: u8) -> bool
        ensures { Decides result (Free (reaches self.now.reached.now.closure.matrix.rows) (reaches self.now.back.matrix.rows) (holds self.now.placed) moment) }
    {
        !self.placed.has(moment) && self.is_clear(moment)
    }

    // The lowest moment that is free.
    fn lowest_ready(&self) -> Option<u8>
        ensures { LowestFree (reaches self.now.reached.now.closure.matrix.rows) (reaches self.now.back.matrix.rows) (holds self.now.placed) (S.scene self.now.reached.now.source.now).moments result }
    {
        let moment = (0..self.moments).find(|m| self.is_free(*m as u8))?;
        Some(moment as u8)
    }

    // Writes the entries of a leader's group, which then has a place.
    fn place_group(&mut self, entries: &mut [Entry], leader: u8, place: u16)
        requires { length entries.old ≤ 256 }
        ensures kept { self.new.reached.now ≡ self.old.reached.now }
        ensures written { Grouped (reaches self.old.reached.now.closure.matrix.rows) (length entries.old) leader (record { place = place; leader = leader }) entries.old entries.new }
        ensures marks { (v : ℕ) → v < 256 → holds self.new.placed v ≡ (holds self.old.placed v || (nat_lt v (length entries.old) && (reaches self.old.reached.now.closure.matrix.rows leader v && reaches self.old.reached.now.closure.matrix.rows v leader))) }
    {
        for (m, entry) in entries.iter_mut().enumerate() {
            if self.reached.closure.same_group(leader, m as u8) {
                *entry = Entry::new(place, leader);
                self.placed.put(m as u8);
            }
        }
    }
}

// Places all groups of a source, with an entry for each moment; the answer is the number of places.
fn place_groups<S: Source>(reached: &Reached<S>, entries: &mut [Entry]) -> u16
    requires { length entries.old ≡ (S.scene reached.now.source.now).moments }
    ensures order { Ordered (S.scene reached.now.source.now).moments (S.scene reached.now.source.now).rows entries.new result }
    ensures rest { Beyond (S.scene reached.now.source.now).moments entries.old entries.new }
{
    let mut placing = Placing::new(reached);
    let mut places = 0;
    while let Some(leader) = placing.lowest_ready() {
        places += 1;
        placing.place_group(entries, leader, places);
    }
    places
}

// The same in a list that may be longer.
#[tactic(auto, using(crate::proofs::Outcome::ordered_longer, crate::proofs::Outcome::beyond_longer))]
fn place_all<S: Source>(reached: &Reached<S>, entries: &mut [Entry]) -> u16
    requires { (S.scene reached.now.source.now).moments ≤ length entries.old }
    ensures order { Ordered (S.scene reached.now.source.now).moments (S.scene reached.now.source.now).rows entries.new result }
    ensures rest { Beyond (S.scene reached.now.source.now).moments entries.old entries.new }
{
    let moments = reached.source.moments() as usize;
    place_groups(reached, &mut entries[..moments])
}

// Writes the place and the leader of each moment, and answers the number of places. Refused where the list has
// fewer entries than the source has moments, and then where the rows clash.
#[tactic(auto, using(crate::proofs::ByHand::worked))]
pub fn write_order<S: Source>(source: &S, entries: &mut [Entry]) -> Result<u16, Refusal>
    ensures answer { Answers (ordering (S.scene source.now) entries.old) (Owed (S.scene source.now) entries.new) result }
    ensures list { MatchResult result (λ _. Beyond (S.scene source.now).moments entries.old entries.new) (λ _. entries.new ≡ entries.old) }
    ensures one { OneOrder (S.scene source.now) }
    ensures worked { Worked }
{
    if entries.len() < source.moments() as usize {
        return Err(Refusal::ListTooShort);
    }
    let reached = Reached::without_clash(source).ok_or(Refusal::Clash)?;
    Ok(place_all(&reached, entries))
}
