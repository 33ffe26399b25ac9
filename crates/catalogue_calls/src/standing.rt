// The page in front of a row of pages, by its frame alone: what its parts say is left to others.
ghost use Rattle.std.specs.Prelude.{◌≡◌, ◌+◌, ◌<◌, drop, length, MatchOption};
ghost use Rattle.catalogue.specs.Page.{A14, house_right};
ghost use Rattle.catalogue.specs.Catalogue.{four};
ghost use Rattle.catalogue_calls.specs.Standing.{StandsAt, GivesPage};
ghost use Rattle.std.specs.Iterator.{at_most};

use field::tags::CATALOGUED_PAGE;

// Document 02, A13 and A14: where a page's templates begin, counted from its 97.
pub const PARTS: usize = 14;

// A page where it stands: its parts, and the bytes behind it.
#[derive(Clone, Copy)]
pub struct Standing<'a> {
    pub name: u32,
    pub house: u8,
    pub templates: &'a [u8],
    pub page: &'a [u8],
    pub behind: &'a [u8],
}

// Document 02, A13 and A14: a page begins with 97, its name, its house and the lengths of its two parts.
pub fn page_at<'a>(s: &'a [u8]) -> Option<Standing<'a>>
    ensures { StandsAt s.now result }
{
    let (tag, s) = s.split_first()?;
    if *tag != CATALOGUED_PAGE {
        return None;
    }
    let (name, s) = number_at(s)?;
    let (house, s) = s.split_first()?;
    if !is_house(*house) {
        return None;
    }
    let (templates, s) = number_at(s)?;
    let (page, s) = number_at(s)?;
    let (templates, s) = s.split_at_checked(templates as usize)?;
    let (page, behind) = s.split_at_checked(page as usize)?;
    Some(Standing {
        name,
        house: *house,
        templates,
        page,
        behind,
    })
}

// The pages of a catalogue one after the other. Behind the last one stays what is no page.
#[derive(Clone, Copy)]
pub struct Pages<'a>(pub &'a [u8]);

impl<'a> Iterator for Pages<'a> {
    type Item = Standing<'a>;

    ghost next_gives = { GivesPage };

    ghost remaining = { λ row. at_most (length row.0.now) };

    fn next(&mut self) -> Option<Standing<'a>> {
        let p = page_at(self.0)?;
        self.0 = p.behind;
        Some(p)
    }
}

// Document 02, A14: the houses are numbered from 1 to 16.
pub fn is_house(house: u8) -> bool
    ensures { result ≡ house_right A14 house }
{
    (1..=16).contains(&house)
}

// A number of four bytes, and what lies behind it.
fn number_at<'a>(s: &'a [u8]) -> Option<(u32, &'a [u8])>
    ensures { MatchOption result (length s.now < 4) (λ p. (p.0 ≡ four s.now) × (p.1.now ≡ drop 4 s.now) × (length p.1.now + 4 ≡ length s.now)) }
{
    let (number, behind) = s.split_first_chunk::<4>()?;
    Some((u32::from_be_bytes(*number), behind))
}
