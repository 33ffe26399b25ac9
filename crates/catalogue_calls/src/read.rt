// What a catalogue holds: its pages one after the other, each checked, then zeros, and no name twice.
ghost use Rattle.std.specs.Prelude.{◌≡◌};
ghost use Rattle.catalogue.specs.Catalogue.{all_zero};
ghost use Rattle.catalogue_calls.specs.Reads.{Reads};

use crate::differ::names_differ;
use crate::judge::judge;
use crate::standing::page_at;

// Document 02, A13: at most so many bytes.
const MOST_BYTES: usize = 16_777_216;

// The bytes of the pages, how many they are, and how many templates they have.
#[derive(Clone, Copy)]
pub struct Held {
    pub used: usize,
    pub pages: usize,
    pub forms: u32,
}

// Nothing where the bytes are no catalogue.
pub fn read(catalogue: &[u8]) -> Option<Held>
    ensures { Reads catalogue.now result }
{
    if catalogue.len() > MOST_BYTES {
        return None;
    }
    // by page_at, since what lies behind the pages is looked at too
    let mut rest = catalogue;
    let mut pages = 0;
    let mut forms = 0;
    while let Some(p) = page_at(rest) {
        // never beyond 32 bits: a page has no more templates than bytes of them
        forms += judge(p.templates, p.page, forms).ok()? as u32;
        pages += 1;
        rest = p.behind;
    }
    if is_zero(rest) && names_differ(catalogue) {
        Some(Held {
            used: catalogue.len() - rest.len(),
            pages,
            forms,
        })
    } else {
        None
    }
}

// All bytes joined, whatever each of them is: 0.22 instructions a byte, where `all`, which stops at the first that is not zero, takes 6.
fn is_zero(s: &[u8]) -> bool
    ensures { result ≡ all_zero s.now }
{
    let mut any = 0;
    for b in s {
        any |= *b;
    }
    any == 0
}
