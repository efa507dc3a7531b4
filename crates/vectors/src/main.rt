// Replays a list of the Rust's answers to judgings with the proved judging, and prints how many differ.
#![tactic(auto)]

mod read;
mod replay;
mod write;

use lines::{Lines, Sink, Source};
use std::io;

fn main(rt: HostRuntime) -> io::Result<()> {
    let mut to = Sink::new(rt.stdout());
    let mut buf = [0u8; 65536];
    let mut list = Lines::new(Source::new(rt.stdin()), &mut buf);
    replay::run(&mut list, &mut to);
    list.end()?;
    to.end()
}
