// Scenes, each with what is answered of it: whether some placement obeys its rows, the number of places of its
// order, and the place and leader of each moment.
#![tactic(auto)]

ghost use Rattle.std.specs.Prelude.{◌<◌};

use graph::consistency::consistent;
use graph::order::{Entry, write_order};
use scene::sources::ByteRow;
use std::io;
use table::commands::{END, ROW, START};
use table::reader::read_table;
use table::tables::Table;

// What the entries hold before an order is written.
const BLANK: Entry = Entry {
    place: 0,
    leader: 999,
};

fn show_entries(rt: &HostRuntime, entries: &[Entry]) -> io::Result<()> {
    for entry in entries {
        print!(rt; "\t{}.{}", entry.place, entry.leader)?;
    }
    println!(rt; "")
}

// Rows over the moments up to the last, to be shown under a name, with a list of so many entries.
#[derive(Clone, Copy)]
struct Case<'a> {
    name: &'a str,
    last: u8,
    rows: &'a [ByteRow],
    length: usize,
}

impl<'a> Case<'a> {
    fn new(name: &'a str, last: u8, rows: &'a [ByteRow], length: usize) -> Case<'a> {
        Case {
            name,
            last,
            rows,
            length,
        }
    }

    fn show(&self, rt: &HostRuntime) -> io::Result<()> {
        let name = self.name;
        let mut bytes = Vec::new(rt.alloc());
        bytes.extend_from_slice(&[START, self.last])?;
        for (left, set, right) in self.rows {
            bytes.extend_from_slice(&[ROW, *left, *set, *right])?;
        }
        bytes.push(END)?;
        match read_table(rt.alloc(), &bytes) {
            Ok(table) => self.show_table(rt, &table),
            Err(_) => println!(rt; "{name}\tno table"),
        }
    }

    fn show_table(&self, rt: &HostRuntime, table: &Table) -> io::Result<()> {
        let name = self.name;
        print!(rt; "{name}\t{}", consistent(table))?;
        let mut entries = vec![in rt.alloc(); BLANK; self.length]?;
        match write_order(table, &mut entries) {
            Ok(places) => print!(rt; "\tplaces\t{places}")?,
            Err(refusal) => print!(rt; "\trefused\t{refusal}")?,
        }
        show_entries(rt, &entries)
    }
}

fn show_all(rt: &HostRuntime, cases: &[Case]) -> io::Result<()> {
    for case in cases {
        case.show(rt)?;
    }
    Ok(())
}

// Rows of few moments, worked by hand.
fn show_small(rt: &HostRuntime) -> io::Result<()> {
    let cases: [Case; 14] = [
        Case::new("no rows", 2, &[], 3),
        Case::new("weak both ways", 1, &[(0, 3, 1), (1, 3, 0)], 2),
        Case::new(
            "diamond",
            3,
            &[(0, 3, 1), (0, 3, 2), (1, 3, 3), (2, 3, 3), (1, 5, 2)],
            4,
        ),
        Case::new("before itself", 0, &[(0, 1, 0)], 1),
        Case::new("apart from itself", 0, &[(0, 5, 0)], 1),
        Case::new(
            "together or apart from itself",
            0,
            &[(0, 7, 0), (0, 2, 0)],
            1,
        ),
        Case::new("weak ring", 2, &[(0, 3, 1), (1, 3, 2), (2, 3, 0)], 3),
        Case::new(
            "weak ring with two apart",
            2,
            &[(0, 3, 1), (1, 3, 2), (2, 3, 0), (0, 5, 2)],
            3,
        ),
        Case::new(
            "ring with one strict",
            2,
            &[(0, 3, 1), (1, 1, 2), (2, 3, 0)],
            3,
        ),
        Case::new("falling", 2, &[(2, 1, 1), (1, 1, 0)], 3),
        Case::new("after and together or after", 2, &[(0, 4, 1), (1, 6, 2)], 3),
        Case::new(
            "two groups of two",
            3,
            &[(1, 2, 3), (2, 2, 0), (3, 1, 0)],
            4,
        ),
        Case::new("any relation", 2, &[(0, 7, 1), (1, 7, 2), (2, 7, 0)], 3),
        Case::new("apart", 2, &[(0, 5, 1), (1, 5, 2), (2, 5, 0)], 3),
    ];
    show_all(rt, &cases)
}

// Lists that are too short, or longer than the moments.
fn show_lists(rt: &HostRuntime) -> io::Result<()> {
    let cases: [Case; 5] = [
        Case::new("no entry", 0, &[], 0),
        Case::new("one entry too few", 2, &[(0, 1, 1)], 2),
        Case::new("too few, and a clash", 2, &[(0, 1, 0)], 2),
        Case::new("a clash", 2, &[(0, 1, 0)], 3),
        Case::new("two entries more", 2, &[(2, 1, 1)], 5),
    ];
    show_all(rt, &cases)
}

// Rows from each moment to the next of 256, and one from the last to the first.
fn show_ring(rt: &HostRuntime, name: &str, set: u8, back: u8, length: usize) -> io::Result<()> {
    let mut rows = Vec::new(rt.alloc());
    for left in 0..255 {
        rows.push((left, set, left + 1))?;
    }
    rows.push((255, back, 0))?;
    Case::new(name, 255, &rows, length).show(rt)
}

// A fixed sequence of numbers that look random.
#[derive(Drop)]
struct Random {
    seed: u64,
}

impl Random {
    // The next of them, below the bound.
    fn below(&mut self, bound: u64) -> u64
        requires { 0 < bound }
        ensures { result < bound }
    {
        self.seed = (self.seed % 2147483648 * 1103515245 + 12345) % 2147483648;
        self.seed / 65536 % bound
    }
}

// So many rows over the moments up to the last.
fn random_rows(
    rt: &HostRuntime,
    random: &mut Random,
    last: u8,
    count: u64,
) -> io::Result<Vec<ByteRow>> {
    let moments = u64::from(last) + 1;
    let mut rows = Vec::new(rt.alloc());
    for _ in 0..count {
        let left = random.below(moments) as u8;
        let set = 1 + random.below(7) as u8;
        let right = random.below(moments) as u8;
        rows.push((left, set, right))?;
    }
    Ok(rows)
}

// So many scenes of up to six moments and eight rows.
fn show_random(rt: &HostRuntime, scenes: usize) -> io::Result<()> {
    let mut random = Random { seed: 2026 };
    for _ in 0..scenes {
        let last = random.below(6) as u8;
        let count = random.below(9);
        let rows = random_rows(rt, &mut random, last, count)?;
        Case::new("random", last, &rows, usize::from(last) + 1).show(rt)?;
    }
    Ok(())
}

fn main(rt: HostRuntime) -> io::Result<()> {
    show_small(&rt)?;
    show_lists(&rt)?;
    Case::new("256 moments, no rows", 255, &[], 256).show(&rt)?;
    show_ring(&rt, "256 moments rising", 1, 7, 256)?;
    show_ring(&rt, "256 moments falling", 4, 7, 256)?;
    show_ring(&rt, "256 moments in one group", 3, 3, 256)?;
    show_ring(&rt, "256 moments in a strict ring", 1, 1, 256)?;
    show_ring(&rt, "255 entries for 256 moments", 3, 3, 255)?;
    show_random(&rt, 400)
}
