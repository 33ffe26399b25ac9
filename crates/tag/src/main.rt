// Prints the card of the tag text on standard input (document 02, A3; document 01, The card).
// No contract can speak of what is read and written: what stands between, `print_tag`, is equal to the definition of the printed text.
#![tactic(auto)]

mod tag_card;

use field::{HEAD, MAX_BODY};
use input::read_full;
use input::room::room;
use page::MAX_PAGE;
use print_card::{OUT_ROOM, TEXT_ROOM};
use std::io;
use tag_card::print_tag;

// Room for a text and a line end behind it, and one byte more: so a longer one is seen.
const TEXT: usize = MAX_PAGE + 2;

// The longest field: three bytes and a body of 65,535.
const TAG: usize = HEAD + MAX_BODY;

// The page of such a field: two heads more.
const PAGE: usize = TAG + 2 * HEAD;

fn main(rt: HostRuntime) -> io::Result<()> {
    let mut text = room::<TEXT>();
    let mut tag = room::<TAG>();
    let mut input = room::<PAGE>();
    let mut scratch = room::<OUT_ROOM>();
    let mut templates = room::<OUT_ROOM>();
    let mut page = room::<OUT_ROOM>();
    let mut printed = room::<TEXT_ROOM>();
    let n = read_full(&mut rt.reader(), &mut text)?;
    let end = print_tag(
        &text[..n],
        &mut tag,
        &mut input,
        &mut scratch,
        &mut templates,
        &mut page,
        &mut printed,
    );
    if printed.len() < end {
        return eprintln!(rt; "tag: the text has no room");
    }
    rt.write_all(&printed[..end])
}
