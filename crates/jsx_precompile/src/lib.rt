// The library: every function that hosts call, and nothing else. Each is a thin call of a crate below, which states its full answer and
// every byte lent; no caller is trusted to have looked first. The crate `jsx_precompile_c` exports them over the C convention.
// Functions of their own, not those below under other names: what each promises stands here for who reads the library alone, and an edit holds
// it to its arguments. An answer has a number, 0 or a refusal's, where a caller in Rattle would have a Result: C reads it.
#![tactic(auto)]

ghost use Rattle.std.specs.Prelude.{◌≡◌, length};
ghost use Rattle.catalogue_calls.specs.Answer.{arriving, leaving, Catalogues};
ghost use Rattle.convert.specs.Convert.{upgraded, downgraded};
ghost use Rattle.convert.specs.Flat.{Converts};
ghost use Rattle.fill.specs.Answer as F;
ghost use Rattle.find.specs.Answer.{Answered};
ghost use Rattle.spec.specs.Answer.{outcome};
ghost use Rattle.tag_pass.specs.Answers.{TagAnswers};
ghost use Rattle.transform.specs.Run.{Answers};
ghost use Rattle.jsx_precompile.specs.Version.{version};

use catalogue_calls::{Catalogued, add, remove};
use convert::{Converted, downgrade, upgrade};
use fill::{Filled, fill};
use find::{Places, find};
use tag_pass::answer::{TagAnswer, read_tag};
use transform::{Answer, transform};

pub fn jsx_precompile_transform<'a>(
    page: &'a [u8],
    options: &'a [u8],
    scratch: &mut [u8],
    templates_out: &mut [u8],
    page_out: &mut [u8],
) -> Answer
    ensures { Answers (outcome page.now options.now (length scratch.old) (length templates_out.old) (length page_out.old)) scratch.old templates_out.old page_out.old result scratch.new templates_out.new page_out.new }
{
    transform(page, options, scratch, templates_out, page_out)
}

// Document 02, A3: the field of a tag that comes as text.
pub fn jsx_precompile_read_tag(text: &[u8], tag_out: &mut [u8]) -> TagAnswer
    ensures { TagAnswers text.now tag_out.old result tag_out.new }
{
    read_tag(text, tag_out)
}

// Document 02, A7: templates out and page out from the old form into the new.
pub fn jsx_precompile_upgrade<'a>(
    templates: &'a [u8],
    page: &'a [u8],
    templates_out: &mut [u8],
    page_out: &mut [u8],
) -> Converted
    ensures { Converts (upgraded templates.now page.now (length templates_out.old) (length page_out.old)) templates_out.old page_out.old result templates_out.new page_out.new }
{
    upgrade(templates, page, templates_out, page_out)
}

// And back.
pub fn jsx_precompile_downgrade<'a>(
    templates: &'a [u8],
    page: &'a [u8],
    templates_out: &mut [u8],
    page_out: &mut [u8],
) -> Converted
    ensures { Converts (downgraded templates.now page.now (length templates_out.old) (length page_out.old)) templates_out.old page_out.old result templates_out.new page_out.new }
{
    downgrade(templates, page, templates_out, page_out)
}

// Document 02, A11: the places of templates by their numbers.
pub fn jsx_precompile_find<'a>(templates: &'a [u8], numbers: &'a [u32]) -> Places
    ensures { Answered templates.now numbers.now result.number result.records result.places }
{
    find(templates, numbers)
}

// Document 02, A8: the HTML of an order over templates.
pub fn jsx_precompile_fill<'a>(templates: &'a [u8], order: &'a [u8], html_out: &mut [u8]) -> Filled
    ensures { F.Answered (F.outcome templates.now order.now (length html_out.old)) html_out.old result.number result.html_bytes html_out.new }
{
    fill(templates, order, html_out)
}

// Document 02, A13 and A14: a page arrives at a catalogue of pages.
pub fn jsx_precompile_catalogue_add<'a>(
    catalogue: &mut [u8],
    name: u32,
    house: u32,
    shares: &'a [u32],
    templates: &'a [u8],
    page: &'a [u8],
) -> Catalogued
    ensures { Catalogues (arriving catalogue.old name house shares.now templates.now page.now) catalogue.old result.number result.used result.pages catalogue.new }
{
    add(catalogue, name, house, shares, templates, page)
}

// And leaves it.
pub fn jsx_precompile_catalogue_remove(catalogue: &mut [u8], name: u32) -> Catalogued
    ensures { Catalogues (leaving catalogue.old name) catalogue.old result.number result.used result.pages catalogue.new }
{
    remove(catalogue, name)
}

// The version of the library: major * 10,000 + minor * 100 + patch.
pub fn jsx_precompile_version() -> u32
    ensures { result ≡ version }
{
    200
}
