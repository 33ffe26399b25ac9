// A page arrives: first every test, then it is written behind the last page.
ghost use Rattle.std.specs.Prelude.{◌≡◌, ◌+◌, ◌≤◌, ◌<◌, ◌^◌, [], length};
ghost use Rattle.field.specs.Put.{put};
ghost use Rattle.refusal.specs.Refusal.{Fine};
ghost use Rattle.outs.specs.PageOut.{check_page_out};
ghost use Rattle.outs.specs.Templates.{check_templates};
ghost use Rattle.outs.specs.declared.Kind.TheVariants as K;
ghost use Rattle.catalogue.specs.Catalogue.{page_then};
ghost use Rattle.catalogue_calls.specs.Answer.{arriving, Catalogues, shares_of};
ghost use Rattle.catalogue_calls.specs.Standing.{housed};
ghost use Rattle.catalogue_calls.specs.Arrives.{page_of, head_of, Admits, RoomIn};

use crate::answer::Unkept;
use crate::catalogued::{Catalogued, refused};
use crate::houses::{shares_right, unused_of_others, used_in};
use crate::judge::judge;
use crate::lookup::look_up;
use crate::numbers::{raise_calls, raise_records};
use crate::read::{Held, read};
use crate::standing::PARTS;
use field::tags::CATALOGUED_PAGE;
use field::writer::{put_byte, put_bytes, put_four};
use refusal::Refusal;

// Whether the house may have the page's bytes besides its own, and the others keep what they are sure of. No sum passes 64 bits.
fn check_room(
    catalogue: &[u8],
    used: usize,
    house: usize,
    shares: &[u32],
    templates: &[u8],
    page: &[u8],
) -> Result<(), Unkept>
    requires { (1 ≤ house) × (house ≤ 16) × (length shares.now ≡ 32) × (used ≤ length catalogue.now) }
    ensures { RoomIn catalogue.now used house (shares_of shares.now) (14 + length templates.now + length page.now) result }
{
    let of_houses = used_in(catalogue);
    let size = templates
        .len()
        .saturating_add(page.len())
        .saturating_add(PARTS);
    if of_houses[house].saturating_add(size) > shares[2 * house - 1] as usize {
        return Err(Unkept::OverMost);
    }
    let others = unused_of_others(shares, &of_houses, house);
    if ((used + size) as u64).saturating_add(others) > catalogue.len() as u64 {
        return Err(Unkept::Uncovered);
    }
    Ok(())
}

// The tests in the order of document 02: 4 before all else, 3 to 7 and 17 of the page itself, then 26, 21, 24 and 25.
fn admit(
    catalogue: &[u8],
    name: u32,
    house: u32,
    shares: &[u32],
    templates: &[u8],
    page: &[u8],
) -> Result<Held, Unkept>
    ensures { Admits catalogue.now (page_of name house templates.now page.now) (shares_of shares.now) result }
{
    let held = read(catalogue).ok_or(Unkept::Refused(Refusal::Misplaced))?;
    judge(templates, page, 0)?;
    if house < 1 || house > 16 || !shares_right(shares, catalogue.len()) {
        return Err(Unkept::Unshared);
    }
    if let Some(_) = look_up(catalogue, name) {
        return Err(Unkept::NamePresent);
    }
    check_room(
        catalogue,
        held.used,
        house as usize,
        shares,
        templates,
        page,
    )?;
    Ok(held)
}

// What stands before a page's parts.
fn put_head(out: &mut [u8], at: usize, name: u32, house: u8, templates: usize, page: usize)
    requires { at + 14 < 2 ^ 64 }
    ensures { out.new ≡ put out.old at (head_of name house templates page) }
{
    let at = put_byte(out, at, CATALOGUED_PAGE);
    let at = put_four(out, at, name as usize);
    let at = put_byte(out, at, house);
    let at = put_four(out, at, templates);
    put_four(out, at, page);
}

// The page at its place, its numbers behind those of so many templates.
fn put_page(catalogue: &mut [u8], held: &Held, name: u32, house: u32, templates: &[u8], page: &[u8])
    requires is_house { house ≤ 16 }
    requires fits { held.now.used + 14 + length templates.now + length page.now ≤ length catalogue.old }
    requires templates_fine { check_templates K.New templates.now ≡ Fine }
    requires page_fine { check_page_out 4 page.now ≡ Fine }
    ensures { catalogue.new ≡ put catalogue.old held.now.used (page_then housed held.now.forms (page_of name house templates.now page.now) []) }
{
    let records = held.used + PARTS;
    let calls = records + templates.len();
    let end = calls + page.len();
    put_head(
        catalogue,
        held.used,
        name,
        house as u8,
        templates.len(),
        page.len(),
    );
    put_bytes(catalogue, records, templates);
    put_bytes(catalogue, calls, page);
    raise_records(&mut catalogue[records..calls], held.forms);
    raise_calls(&mut catalogue[calls..end], held.forms);
}

// Document 02, A13 and A14: the page's parts are templates in 84s and a page out, its numbers from 1 on.
pub fn add(
    catalogue: &mut [u8],
    name: u32,
    house: u32,
    shares: &[u32],
    templates: &[u8],
    page: &[u8],
) -> Catalogued
    ensures { Catalogues (arriving catalogue.old name house shares.now templates.now page.now) catalogue.old result.number result.used result.pages catalogue.new }
{
    match admit(catalogue, name, house, shares, templates, page) {
        Ok(held) => {
            put_page(catalogue, &held, name, house, templates, page);
            Catalogued {
                number: 0,
                used: held.used + PARTS + templates.len() + page.len(),
                pages: held.pages + 1,
            }
        }
        Err(e) => refused(e),
    }
}
