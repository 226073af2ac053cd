//! The program of a post: reads the day's records, and then answers what it is asked on standard input, line by line.
#![tactic(auto)]

use conversations::serve_file;
use std::fs::File;
use std::io;
use std::io::BufReader;

// The file of the day's events.
const DAY: &str = "day.tt";

// Where the file can't be opened, for whatever reason, the day has no events.
fn main(rt: HostRuntime) -> io::Result<()> {
    let mut lines = BufReader::new(rt.alloc(), rt.stdin())?;
    let day = File::open(&rt, DAY).ok();
    serve_file(rt.alloc(), day, &mut lines, &mut rt.stdout())
}
