// A source that stores no rows: each moment before the next.
#![tactic(auto)]

ghost use Rattle.std.specs.Prelude.{◌≡◌, ◌+◌, ◌-◌, ◌<◌, ◌≤◌};
ghost use Rattle.scene.specs.Checks.{Answers};
ghost use Rattle.chain.specs.Links.{chained, chained_lawful, chaining};

use scene::refusals::Refusal;
use scene::sources::{MOST_MOMENTS, Row, Source};

#[derive(Drop)]
pub struct Chain {
    moments: u16,
    ghost some: { 1 ≤ moments },
    ghost few: { moments ≤ 256 },
}

impl Chain {
    pub fn new(moments: u16) -> Result<Chain, Refusal>
        ensures { Answers (chaining moments) (λ c. c.moments ≡ moments) result }
    {
        if moments < 1 || moments > MOST_MOMENTS {
            return Err(Refusal::MomentCountWrong);
        }
        Ok(Chain { moments })
    }

    // The moment that has no next.
    fn last(&self) -> u16
        ensures { result ≡ self.now.moments - 1 }
    {
        self.moments - 1
    }
}

// The row of a moment and the next.
fn link(left: u8) -> Row
    ensures { result ≡ (left, 1, left + 1) }
{
    (u16::from(left), 1, u16::from(left) + 1)
}

impl Source for Chain {
    ghost scene = { λ c. chained c.moments };

    ghost lawful = { λ c. chained_lawful c.moments c.some c.few };

    fn moments(&self) -> u16 {
        self.moments
    }

    fn count(&self) -> usize {
        self.last() as usize
    }

    fn row(&self, position: usize) -> Option<Row> {
        (position < self.last() as usize).then(|| link(position as u8))
    }
}

// The highest moment of any source. It is lent as a trait object, and what holds of every source is known there too.
pub fn highest_moment(source: &dyn Source) -> u16
    ensures last { result + 1 ≡ (scene source.now).moments }
    ensures byte { result < 256 }
{
    source.moments() - 1
}

#[cfg(test)]
mod tests {
    use super::*;
    use scene::added::Added;
    use scene::joined::Joined;
    use scene::left_out::LeftOut;
    use std::process::Abort;
    use std::test::Fail;
    use table::reader::read_table;
    use table::writer::write_table;

    // The source answers just these moments and rows.
    fn expect_rows<S: Source>(rt: &impl Abort, source: &S, moments: u16, rows: &[Row]) {
        assert_eq!(rt; source.moments(), moments);
        assert_eq!(rt; source.count(), rows.len());
        for (k, row) in rows.iter().enumerate() {
            assert_eq!(rt; source.row(k), Some(*row));
        }
        assert_eq!(rt; source.row(rows.len()), None);
    }

    #[test]
    fn through_layers_and_writer(rt: HostRuntime) -> Result<(), Fail> {
        let chain = Chain::new(4)?;
        let short = Chain::new(2)?;
        let more = [(0, 2, 3), (1, 5, 3)];
        let added = Added::new(&chain, &more)?;
        let marks = [1, 1, 9];
        let left_out = LeftOut::new(&added, &marks)?;
        let joined = Joined::new(&left_out, &short)?;
        let rows = [(0, 1, 1), (2, 1, 3), (0, 2, 3), (1, 5, 3), (0, 1, 1)];
        expect_rows(&rt, &joined, 4, &rows);

        let mut out = [7; 32];
        assert_eq!(rt; write_table(&joined, &mut out)?, 23);
        assert!(rt; out[0..10] == [0x10, 3, 1, 0, 1, 1, 1, 2, 1, 3]);
        assert!(rt; out[10..23] == [1, 0, 2, 3, 1, 1, 5, 3, 1, 0, 1, 1, 0]);
        assert_eq!(rt; out[23], 7);
        expect_rows(&rt, &read_table(rt.alloc(), &out[0..23])?, 4, &rows);
        Ok(())
    }

    #[test]
    fn highest_of_four(rt: HostRuntime) -> Result<(), Fail> {
        let chain = Chain::new(4)?;
        assert_eq!(rt; highest_moment(&chain), 3);
        Ok(())
    }

    #[test]
    fn refused_chains(rt: HostRuntime) -> Result<(), Fail> {
        assert_eq!(rt; Chain::new(0).err(), Some(Refusal::MomentCountWrong));
        assert_eq!(rt; Chain::new(257).err(), Some(Refusal::MomentCountWrong));
        assert_eq!(rt; Chain::new(256)?.count(), 255);
        Ok(())
    }

    #[test]
    fn refused_rows(rt: HostRuntime) -> Result<(), Fail> {
        let chain = Chain::new(4)?;
        let outside = [(0, 1, 4)];
        assert_eq!(rt;
            Added::new(&chain, &outside).err(),
            Some(Refusal::OutsideScene)
        );
        let set_wrong = [(0, 8, 1)];
        assert_eq!(rt;
            Added::new(&chain, &set_wrong).err(),
            Some(Refusal::SetOutOfRange)
        );
        let both = [(0, 8, 1), (0, 1, 4)];
        assert_eq!(rt;
            Added::new(&chain, &both).err(),
            Some(Refusal::SetOutOfRange)
        );
        let seven = [(0, 1, 1); 7];
        assert_eq!(rt;
            Added::new(&chain, &seven).err(),
            Some(Refusal::TooManyRows)
        );
        assert_eq!(rt; Added::new(&chain, &seven[0..6])?.count(), 9);
        Ok(())
    }

    #[test]
    fn refused_marks(rt: HostRuntime) -> Result<(), Fail> {
        let chain = Chain::new(4)?;
        let above = [4096];
        assert_eq!(rt;
            LeftOut::new(&chain, &above).err(),
            Some(Refusal::NoSuchRow)
        );
        let highest = [4095];
        assert_eq!(rt; LeftOut::new(&chain, &highest)?.count(), 3);
        Ok(())
    }

    #[test]
    fn list_too_short(rt: HostRuntime) -> Result<(), Fail> {
        let chain = Chain::new(2)?;
        let mut out = [7; 6];
        assert_eq!(rt;
            write_table(&chain, &mut out).err(),
            Some(Refusal::ListTooShort)
        );
        assert_eq!(rt; out, [7; 6]);
        Ok(())
    }
}
