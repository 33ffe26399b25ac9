// Replays the stored answers of the judge (the file stdin; oracle/README.md has its format) through the export, and says what differs.
// No contract can speak of what is read and written: proved is that every access is in bounds and that the run ends.
#![tactic(auto)]

mod call;
mod words;

use call::{Difference, replay};
use input::read_full;
use input::room::room;
use std::io;
use words::split_line;

// Room for all lines.
const TEXT: usize = 1600000;

// Room for the page, the options or a lent part of any line.
const ROOM: usize = 131072;

// One line for a difference: the line's number and name, and what differs.
fn print_difference(rt: &impl Print, number: usize, name: &[u8], d: Difference) -> io::Result<()> {
    print!(rt; "line {number} ")?;
    rt.write_all(name)?;
    println!(rt; ": {d}")
}

fn replay_lines(rt: HostRuntime, text: &[u8]) -> io::Result<()> {
    let mut input = room::<ROOM>();
    let mut options = room::<ROOM>();
    let mut scratch = room::<ROOM>();
    let mut templates = room::<ROOM>();
    let mut page = room::<ROOM>();
    let mut lines: usize = 0;
    let mut differences: usize = 0;
    for ended in text.split_inclusive(|b| *b == b'\n') {
        let stored = split_line(ended.strip_suffix(b"\n").unwrap_or(ended));
        lines += 1;
        if let Err(d) = replay(
            &stored,
            &mut input,
            &mut options,
            &mut scratch,
            &mut templates,
            &mut page,
        ) {
            differences += 1;
            print_difference(&rt, lines, stored.name, d)?;
        }
    }
    println!(rt; "{lines} lines, {differences} differences")
}

fn main(rt: HostRuntime) -> io::Result<()> {
    let mut text = room::<TEXT>();
    let n = read_full(&mut rt.reader(), &mut text)?;
    if n == text.len() {
        return println!(rt; "too many lines");
    }
    replay_lines(rt, &text[..n])
}
