// Plays standard input with a report of 65,536 bytes, and prints what was written.
#![tactic(auto)]

use files::play::{MAX_INPUT, Played, play};
use std::io;
use std::io::{Read, Write};

// One byte more than a file may have is enough to see that it is too long.
const LIMIT: u64 = MAX_INPUT as u64 + 1;

const REPORT: usize = 65_536;

fn main(rt: HostRuntime) -> io::Result<()> {
    let heap = rt.alloc();
    let mut file = Vec::new(heap);
    rt.stdin().take(LIMIT).read_to_end(&mut file)?;
    let mut report = Vec::from_elem(heap, 0u8, REPORT)?;
    let Played { written, fault: _ } = play(heap, file.as_slice(), report.as_mut_slice());
    report.truncate(written);
    rt.stdout().write_all(report.as_slice())
}
