// A page leaves: the later ones are lowered where they stand, moved down to its place, and zeros follow.
ghost use Rattle.std.specs.Prelude.{◌≡◌, ◌+◌, ◌≤◌, ◌<◌, length};
ghost use Rattle.catalogue_calls.specs.Answer.{leaving, Catalogues};
ghost use Rattle.catalogue_calls.specs.Leaves.{Later, LowersFront, Lowers, Finds, Leaver};
ghost use Rattle.catalogue_calls.specs.Standing.{housed};
ghost use Rattle.catalogue.specs.Calls.{left_by};

use crate::answer::Unkept;
use crate::catalogued::{Catalogued, refused};
use crate::lookup::{Found, look_up};
use crate::numbers::{raise_calls, raise_records};
use crate::read::{Held, read};
use crate::standing::{PARTS, page_at};
use refusal::Refusal;

// The numbers of the page in front go back by so many templates. Answers the page's size.
fn lower_front(s: &mut [u8], forms: u32) -> Option<usize>
    requires { Later s.old }
    ensures { LowersFront s.old forms result s.new }
{
    let p = page_at(s)?;
    let calls = PARTS + p.templates.len();
    let end = calls + p.page.len();
    // to the other side of 2 to the 32
    let by = 0u32.wrapping_sub(forms);
    raise_records(&mut s[PARTS..calls], by);
    raise_calls(&mut s[calls..end], by);
    Some(end)
}

// The numbers of each page go back by so many templates.
fn lower(s: &mut [u8], forms: u32)
    requires { Later s.old }
    ensures { Lowers s.old forms s.new }
{
    let mut at = 0;
    // by places, since each page is changed as it is passed
    while let Some(size) = lower_front(&mut s[at..], forms) {
        at += size;
    }
}

fn find(catalogue: &[u8], name: u32) -> Result<(Held, Found), Unkept>
    ensures { Finds catalogue.now name result }
{
    let held = read(catalogue).ok_or(Unkept::Refused(Refusal::Misplaced))?;
    let found = look_up(catalogue, name).ok_or(Unkept::NameAbsent)?;
    Ok((held, found))
}

fn close_up(catalogue: &mut [u8], name: u32, held: &Held, page: &Found)
    requires there { Leaver catalogue.old name held.now.used held.now.pages held.now.forms page.now.at page.now.end page.now.forms }
    requires in_order { (page.now.at < page.now.end) × (page.now.end ≤ held.now.used) × (held.now.used ≤ length catalogue.old) }
    ensures { catalogue.new ≡ left_by housed catalogue.old (leaving catalogue.old name) }
{
    lower(&mut catalogue[page.end..], page.forms as u32);
    catalogue.copy_within(page.end..held.used, page.at);
    catalogue[held.used - (page.end - page.at)..held.used].fill(0);
}

pub fn remove(catalogue: &mut [u8], name: u32) -> Catalogued
    ensures { Catalogues (leaving catalogue.old name) catalogue.old result.number result.used result.pages catalogue.new }
{
    match find(catalogue, name) {
        Ok((held, page)) => {
            close_up(catalogue, name, &held, &page);
            Catalogued {
                number: 0,
                used: held.used - (page.end - page.at),
                pages: held.pages - 1,
            }
        }
        Err(e) => refused(e),
    }
}
