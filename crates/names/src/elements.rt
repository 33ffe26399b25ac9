// The void elements.
ghost use Rattle.std.specs.Prelude.{◌≡◌, true, get_or};
ghost use Rattle.names.specs.Names.{is_void_element};
ghost use Rattle.names.specs.Table.{read_as, fits_ends, void_ends, void_kind};

use crate::table::has_name;

// A form of 01: a small constant table, compared entry by entry.
const NAMES: [u8; 69] = *b"\
    br hr \
    col img wbr \
    area base link meta \
    embed input param track \
    source ";

// Where the names of each length begin.
const STARTS: [u16; 8] = [0, 0, 0, 6, 18, 38, 62, 69];

// Of the names of n letters: a bit for each first letter, and 32 above it one for each last letter. Most names are told by this alone.
#[tactic(auto, using(crate::proofs::VoidLaws::ends_other), unfolding(crate::specs::Table::void_ends))]
fn ends(n: usize) -> u64
    ensures { result ≡ get_or void_ends n 0 }
{
    match n {
        2 => 0x4000000000104,
        3 => 0x4108000800208,
        4 => 0x82200003006,
        5 => 0x10281000110220,
        6 => 0x2000080000,
        _ => 0,
    }
}

// Whether one of the names has this length, first letter and last letter, be they capitals or small.
#[tactic(auto, using(crate::proofs::VoidLaws::ends_short, crate::proofs::VoidLaws::ends_long), unfolding(crate::specs::Table::fits_ends))]
fn may_be_void(name: &[u8]) -> bool
    ensures { result ≡ fits_ends void_ends name.now }
{
    let [first, .., last] = name else {
        return false;
    };
    let e = ends(name.len());
    ((e >> u64::from(first % 32)) % 2 == 1) & ((e >> (u64::from(last % 32) + 32)) % 2 == 1)
}

// By the table, as the name stands or in small letters.
fn finds_void(name: &[u8], small: bool) -> bool
    requires { fits_ends void_ends name.now ≡ true }
    ensures { result ≡ is_void_element (read_as small name.now) }
{
    has_name(&NAMES, &STARTS, name, small)
}

#[tactic(auto, using(crate::proofs::VoidLaws::never_void))]
pub fn is_void_element(name: &[u8]) -> bool
    ensures { result ≡ is_void_element name.now }
{
    may_be_void(name) && finds_void(name, false)
}

// As what a name is void.
#[derive(Clone, Copy, PartialEq, Eq)]
pub enum Void {
    AsWritten,
    // not as it is written, but once it goes to small letters
    InSmallLetters,
}

// Both questions at once (document 02, A10).
#[tactic(auto, using(crate::proofs::VoidLaws::never_void, crate::proofs::VoidLaws::kind_is))]
pub fn void_kind(name: &[u8]) -> Option<Void>
    ensures { result ≡ void_kind name.now }
{
    if !may_be_void(name) {
        None
    } else if finds_void(name, false) {
        Some(Void::AsWritten)
    } else if finds_void(name, true) {
        Some(Void::InSmallLetters)
    } else {
        None
    }
}
