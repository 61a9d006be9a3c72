// The program `cardsalvage` (PROFILE 2.11): it reads a table from standard input, prints the table left of it to standard output, and what
// was found of each slot to standard error.
#![tactic(auto)]

use reports::REPORT_ROOM;
use std::io;
use std::io::Write;
use stdin_table::{MOST_READ, read_full};

// Reads, salvages and prints. Where the table cannot be written, the report still is; a write that fails is the program's error.
fn main(rt: HostRuntime) -> io::Result<()> {
    let mut input = [0u8; MOST_READ];
    let size = read_full(&mut rt.stdin(), &mut input);
    let mut text = [0u8; REPORT_ROOM];
    let printed = reports::salvage_in_words(&mut input[..size], &mut text);
    let table_written = rt.stdout().write_all(&input[..printed.table]);
    let text_written = rt.stderr().write_all(&text[..printed.text]);
    table_written.and(text_written)
}
