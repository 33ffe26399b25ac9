// Prints the card of the page on standard input (document 01, The card).
// No contract can speak of what is read and written: what stands between, `print_card`, is equal to the definition of the printed text.
#![tactic(auto)]

use input::read_full;
use input::room::room;
use page::MAX_PAGE;
use print_card::{OUT_ROOM, TEXT_ROOM, print_card};
use std::io;

// Room for a page, and one byte more: so a longer one is seen.
const PAGE: usize = MAX_PAGE + 1;

fn main(rt: HostRuntime) -> io::Result<()> {
    let mut input = room::<PAGE>();
    let mut scratch = room::<OUT_ROOM>();
    let mut templates = room::<OUT_ROOM>();
    let mut page = room::<OUT_ROOM>();
    let mut text = room::<TEXT_ROOM>();
    let n = read_full(&mut rt.reader(), &mut input)?;
    let end = print_card(
        &input[..n],
        &mut scratch,
        &mut templates,
        &mut page,
        &mut text,
    );
    if text.len() < end {
        return eprintln!(rt; "card: the text has no room");
    }
    rt.write_all(&text[..end])
}
