// Reads an agreement's bytes from standard input, and prints what the judge finds.
#![tactic(auto)]

mod answers;

use answers::{Answer, answer_to};
use std::io;
use std::io::Read;

fn main(rt: HostRuntime) -> io::Result<()> {
    let mut bytes = Vec::new(rt.alloc());
    rt.stdin().read_to_end(&mut bytes)?;
    rt.println(Answer(answer_to(&bytes)))
}
