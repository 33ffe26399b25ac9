// A page of the catalogue by its name.
ghost use Rattle.std.specs.Prelude.{◌≡◌};
ghost use Rattle.field.specs.Row.{read};
ghost use Rattle.convert.specs.Flat.{fields_in};
ghost use Rattle.catalogue_calls.specs.Looks.{LooksUp};

use crate::standing::page_at;
use field::reader::Fields;

// Where it begins and ends, and how many templates it has.
#[derive(Clone, Copy)]
pub struct Found {
    pub at: usize,
    pub end: usize,
    pub forms: usize,
}

fn count_of(templates: &[u8]) -> usize
    ensures { result ≡ fields_in (read templates.now) }
{
    Fields(templates).count()
}

pub fn look_up(catalogue: &[u8], name: u32) -> Option<Found>
    ensures { LooksUp catalogue.now name result }
{
    // by page_at, since a page's place is told by the bytes that are left
    let mut rest = catalogue;
    while let Some(p) = page_at(rest) {
        if p.name == name {
            return Some(Found {
                at: catalogue.len() - rest.len(),
                end: catalogue.len() - p.behind.len(),
                forms: count_of(p.templates),
            });
        }
        rest = p.behind;
    }
    None
}
