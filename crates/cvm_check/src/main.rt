// The check program: judges the caption package on standard input, and prints one line.
#![tactic(auto)]

use package::read;
use std::io;
use std::io::Read;

// No good package is that long; what stands behind these bytes is not read.
const MOST_BYTES: u64 = 40_000;

fn main(rt: HostRuntime) -> io::Result<()> {
    let mut bytes = Vec::new(rt.alloc());
    rt.stdin().take(MOST_BYTES).read_to_end(&mut bytes)?;
    match read(bytes.as_slice()) {
        Ok(package) => {
            let counts = package.counts();
            println!(rt; "read {counts}")
        }
        Err(fault) => rt.println(fault),
    }
}
