// House tables at the borders of what is accepted, each with the answer of the reader.
#![tactic(auto)]

use scene::sources::Source;
use std::io;
use table::reader::{ReadError, read_table};

fn show(rt: &HostRuntime, name: &str, bytes: &[u8]) -> io::Result<()> {
    match read_table(rt.alloc(), bytes) {
        Ok(table) => println!(rt; "{name}\tfound\t{}\t{}", table.moments(), table.count()),
        Err(ReadError::Refused(fault)) => println!(rt; "{name}\trefused\t{fault}"),
        Err(ReadError::NoMemory) => println!(rt; "{name}\tno memory"),
    }
}

// A table of moments up to the last, with a command so many times, and then these bytes. The command's length is a part
// of its type, so that each is copied at once.
fn show_long<const N: usize>(
    rt: &HostRuntime,
    name: &str,
    last: u8,
    times: usize,
    command: [u8; N],
    end: &[u8],
) -> io::Result<()> {
    let mut bytes = Vec::new(rt.alloc());
    bytes.extend_from_slice(&[0x10, last])?;
    for _ in 0..times {
        bytes.extend_from_slice(&command)?;
    }
    bytes.extend_from_slice(end)?;
    show(rt, name, &bytes)
}

fn show_all(rt: &HostRuntime, cases: &[(&str, &[u8])]) -> io::Result<()> {
    for (name, bytes) in cases {
        show(rt, name, bytes)?;
    }
    Ok(())
}

// How a table begins and ends, and whole commands.
fn show_framing(rt: &HostRuntime) -> io::Result<()> {
    let cases: [(&str, &[u8]); 16] = [
        ("empty table", b""),
        ("first command cut", b"\x10"),
        ("first command not 0x10", b"\x01\x00\x01\x01\x00"),
        ("end first", b"\x00"),
        ("one moment", b"\x10\x00\x00"),
        ("256 moments", b"\x10\xff\x00"),
        ("no command and no end", b"\x10\x01"),
        ("no end", b"\x10\x01\x01\x00\x01\x01"),
        ("byte after the end", b"\x10\x01\x00\x00"),
        ("table after the end", b"\x10\x01\x00\x10\x01\x00"),
        ("row cut", b"\x10\x01\x01\x00\x01"),
        ("title cut", b"\x10\x03\x03"),
        ("rule cut", b"\x10\x03\x03\x00\x03\x01\x02\x00\x00\x01"),
        ("0x10 twice", b"\x10\x01\x10\x01\x00"),
        ("unknown command", b"\x10\x01\x01\x00\x01\x01\x04\x00"),
        (
            "set 0, then a byte after the end",
            b"\x10\x01\x01\x00\x00\x01\x00\x00",
        ),
    ];
    show_all(rt, &cases)
}

// Sets and moments in and out of range.
fn show_operands(rt: &HostRuntime) -> io::Result<()> {
    let cases: [(&str, &[u8]); 10] = [
        ("set 0", b"\x10\x01\x01\x00\x00\x01\x00"),
        (
            "set 1 and set 7",
            b"\x10\x01\x01\x00\x01\x01\x01\x00\x07\x01\x00",
        ),
        ("set 8", b"\x10\x01\x01\x00\x08\x01\x00"),
        ("left moment outside", b"\x10\x01\x01\x02\x01\x00\x00"),
        ("right moment outside", b"\x10\x01\x01\x00\x01\x02\x00"),
        (
            "second row outside",
            b"\x10\x01\x01\x00\x01\x01\x01\x00\x01\x02\x00",
        ),
        ("title with both moments", b"\x10\x03\x03\x01\x00"),
        ("title with its fall outside", b"\x10\x02\x03\x01\x00"),
        ("title twice", b"\x10\x01\x03\x00\x03\x00\x00"),
        (
            "rule of a title outside",
            b"\x10\x03\x03\x00\x02\x00\x00\x01\x02\x00",
        ),
    ];
    show_all(rt, &cases)
}

// Title rules.
fn show_rules(rt: &HostRuntime) -> io::Result<()> {
    let cases: [(&str, &[u8]); 11] = [
        (
            "first title undeclared",
            b"\x10\x03\x03\x01\x02\x00\x00\x01\x01\x00",
        ),
        (
            "second title undeclared",
            b"\x10\x03\x03\x00\x02\x00\x00\x01\x01\x00",
        ),
        (
            "title declared after its rule",
            b"\x10\x03\x03\x00\x02\x00\x00\x01\x01\x03\x01\x00",
        ),
        (
            "rule with set 0",
            b"\x10\x03\x03\x00\x03\x01\x02\x00\x00\x00\x01\x00",
        ),
        (
            "rule with set 8,191",
            b"\x10\x03\x03\x00\x03\x01\x02\x00\x1f\xff\x01\x00",
        ),
        (
            "rule with set 8,192",
            b"\x10\x03\x03\x00\x03\x01\x02\x00\x20\x00\x01\x00",
        ),
        (
            "rule not pointisable",
            b"\x10\x03\x03\x00\x03\x01\x02\x00\x00\x03\x01\x00",
        ),
        (
            "set 0 and a title undeclared",
            b"\x10\x03\x03\x00\x02\x00\x00\x00\x01\x00",
        ),
        (
            "not pointisable and a title undeclared",
            b"\x10\x03\x03\x00\x02\x00\x00\x03\x01\x00",
        ),
        (
            "rule of a title with itself",
            b"\x10\x01\x03\x00\x02\x00\x10\x00\x00\x00",
        ),
        (
            "rule of two titles",
            b"\x10\x03\x03\x00\x03\x01\x02\x00\x01\x10\x01\x00",
        ),
    ];
    show_all(rt, &cases)
}

fn main(rt: HostRuntime) -> io::Result<()> {
    show_framing(&rt)?;
    show_operands(&rt)?;
    show_rules(&rt)?;
    let row = [0x01, 0, 1, 1];
    show_long(&rt, "4,096 rows", 1, 4096, row, b"\x00")?;
    show_long(&rt, "4,097 rows", 1, 4097, row, b"\x00")?;
    show_long(
        &rt,
        "4,097 rows, then a byte after the end",
        1,
        4097,
        row,
        b"\x00\x00",
    )?;
    let title = [0x03, 127];
    show_long(
        &rt,
        "32,768 bytes, too many rows",
        255,
        16380,
        title,
        b"\x02\x7f\x00\x01\x7f\x00",
    )?;
    show_long(&rt, "32,769 bytes", 255, 16383, title, b"\x00")
}
