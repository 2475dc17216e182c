// Reads a command list from standard input and prints the check's number and place.
#![tactic(auto)]

use std::io;
use std::io::Read;

fn main(rt: HostRuntime) -> io::Result<()> {
    let mut list = Vec::new(rt.alloc());
    // One byte more than the longest list, so that a longer one is told from it.
    rt.reader().take(32769).read_to_end(&mut list)?;
    match rdp_check::check(&list) {
        Ok(accepted) => println!(rt; "0 {}", accepted.words),
        Err(refused) => println!(rt; "{} {}", u32::from(refused.ground), refused.place),
    }
}
