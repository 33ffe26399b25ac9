// What an arrival and a leaving answer.
ghost use Rattle.std.specs.Prelude.{◌≡◌};
ghost use Rattle.catalogue.specs.Calls.{Outcome, remain};
ghost use Rattle.catalogue_calls.specs.Judges.{unkept_number};

use crate::answer::Unkept;

// The number, and what the catalogue holds behind the call: the bytes of its pages and their count, both 0 where the call is refused.
#[repr(C)]
#[derive(Clone, Copy)]
pub struct Catalogued {
    pub number: u32,
    pub used: usize,
    pub pages: usize,
}

pub fn refused(e: Unkept) -> Catalogued
    ensures { result ≡ record { number = unkept_number e; used = 0; pages = 0 } }
{
    Catalogued {
        number: u32::from(e),
        used: 0,
        pages: 0,
    }
}
