// Runs a table of packages from standard input: each is read and cleared, and each line of the table gets a line in
// response. The crate `case_table` says how a table is written.
#![tactic(auto)]

use case_table::Response;
use clearing::check;
use package::MOST_CODE;
use std::io;
use std::io::{BufRead, BufReader};

fn main(rt: HostRuntime) -> io::Result<()> {
    let heap = rt.alloc();
    // Through a buffer: the lines of standard input itself take a pipe a byte at a time.
    for line in BufReader::new(heap, rt.stdin())?.lines(heap) {
        let line = line?;
        let response = Response::of(heap, line.as_str(), "cleared", |bytes| {
            // As many bytes as the longest code has, so that the work area is never too short.
            let mut work = [0; MOST_CODE];
            check(bytes, &mut work).map(|cleared| cleared.package().counts())
        })?;
        rt.println(response)?;
    }
    Ok(())
}
