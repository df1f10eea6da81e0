// Reads a house table from standard input, and prints its moments, its rows in words, and the table written back.
#![tactic(auto)]

use report::tables::table_text;
use std::io;
use std::io::Read;

fn main(rt: HostRuntime) -> io::Result<()> {
    let mut bytes = Vec::new(rt.alloc());
    let _ = rt.stdin().read_to_end(&mut bytes)?;
    let text = table_text(rt.alloc(), &bytes)?;
    rt.print(text.as_str())
}
