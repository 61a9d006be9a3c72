// The program `cardlist` (PROFILE 7.3): it reads a table from standard input and prints its listing.
#![tactic(auto)]

use listing::LISTING_ROOM;
use std::io;
use std::io::Write;
use stdin_table::{MOST_READ, read_full};

// Reads, lists and prints. A write that fails is the program's error.
fn main(rt: HostRuntime) -> io::Result<()> {
    let mut input = [0u8; MOST_READ];
    let size = read_full(&mut rt.stdin(), &mut input);
    let mut text = [0u8; LISTING_ROOM];
    let end = listing::list(&input[..size], &mut text);
    rt.stdout().write_all(&text[..end])
}
