// The program `check`: policy.txt and evidence.txt of the working directory.
#![tactic(auto)]

use program::line_of;
use std::io;
use std::io::Write;

fn main(rt: HostRuntime) -> io::Result<()> {
    let mut line = [0u8; 128];
    let length = line_of(&rt, b"policy.txt", b"evidence.txt", &mut line);
    rt.stdout().write_all(&line[..length])
}
