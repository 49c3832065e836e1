// The check program: judges the caption package on standard input, and prints one line.
#![tactic(auto)]

use clearing::check;
use package::MOST_CODE;
use std::io;
use std::io::Read;

// No good package is that long; what stands behind these bytes is not read.
const MOST_BYTES: u64 = 40_000;

// As in `cvm_check`, with another call in the middle: what stands about it is three calls of std's.
fn main(rt: HostRuntime) -> io::Result<()> {
    let mut bytes = Vec::new(rt.alloc());
    rt.stdin().take(MOST_BYTES).read_to_end(&mut bytes)?;
    // As many bytes as the longest code has, so that the work area is never too short.
    let mut work = [0; MOST_CODE];
    match check(bytes.as_slice(), &mut work) {
        Ok(cleared) => {
            let counts = cleared.package().counts();
            println!(rt; "cleared {counts}")
        }
        Err(fault) => rt.println(fault),
    }
}
