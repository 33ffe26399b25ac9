// The library for hosts: each function of `jsx_precompile`, exported over the C convention with the same contract. A crate of its own, since
// a crate is a library or a static library, and not both. Its functions are alike because each is a name that hosts link, and takes each
// buffer as C lends it.
#![tactic(auto)]

ghost use Rattle.std.specs.Prelude.{◌≡◌, length};
ghost use Rattle.catalogue_calls.specs.Answer.{arriving, leaving, Catalogues};
ghost use Rattle.convert.specs.Convert.{upgraded, downgraded};
ghost use Rattle.convert.specs.Flat.{Converts};
ghost use Rattle.fill.specs.Answer as F;
ghost use Rattle.find.specs.Answer.{Answered};
ghost use Rattle.spec.specs.Answer.{outcome};
ghost use Rattle.tag_pass.specs.Answers.{TagAnswers};
ghost use Rattle.transform.specs.Run.{Answers};
ghost use Rattle.jsx_precompile.specs.Version.{version};

use catalogue_calls::Catalogued;
use convert::Converted;
use fill::Filled;
use find::Places;
use tag_pass::answer::TagAnswer;
use transform::Answer;

#[unsafe(no_mangle)]
pub extern "C" fn jsx_precompile_transform<'a>(
    page: &'a [u8],
    options: &'a [u8],
    scratch: &mut [u8],
    templates_out: &mut [u8],
    page_out: &mut [u8],
) -> Answer
    ensures { Answers (outcome page.now options.now (length scratch.old) (length templates_out.old) (length page_out.old)) scratch.old templates_out.old page_out.old result scratch.new templates_out.new page_out.new }
{
    jsx_precompile::jsx_precompile_transform(page, options, scratch, templates_out, page_out)
}

// Document 02, A3: the field of a tag that comes as text.
#[unsafe(no_mangle)]
pub extern "C" fn jsx_precompile_read_tag(text: &[u8], tag_out: &mut [u8]) -> TagAnswer
    ensures { TagAnswers text.now tag_out.old result tag_out.new }
{
    jsx_precompile::jsx_precompile_read_tag(text, tag_out)
}

// Document 02, A7: templates out and page out from the old form into the new.
#[unsafe(no_mangle)]
pub extern "C" fn jsx_precompile_upgrade<'a>(
    templates: &'a [u8],
    page: &'a [u8],
    templates_out: &mut [u8],
    page_out: &mut [u8],
) -> Converted
    ensures { Converts (upgraded templates.now page.now (length templates_out.old) (length page_out.old)) templates_out.old page_out.old result templates_out.new page_out.new }
{
    jsx_precompile::jsx_precompile_upgrade(templates, page, templates_out, page_out)
}

// And back.
#[unsafe(no_mangle)]
pub extern "C" fn jsx_precompile_downgrade<'a>(
    templates: &'a [u8],
    page: &'a [u8],
    templates_out: &mut [u8],
    page_out: &mut [u8],
) -> Converted
    ensures { Converts (downgraded templates.now page.now (length templates_out.old) (length page_out.old)) templates_out.old page_out.old result templates_out.new page_out.new }
{
    jsx_precompile::jsx_precompile_downgrade(templates, page, templates_out, page_out)
}

// Document 02, A11: the places of templates by their numbers.
#[unsafe(no_mangle)]
pub extern "C" fn jsx_precompile_find<'a>(templates: &'a [u8], numbers: &'a [u32]) -> Places
    ensures { Answered templates.now numbers.now result.number result.records result.places }
{
    jsx_precompile::jsx_precompile_find(templates, numbers)
}

// Document 02, A8: the HTML of an order over templates.
#[unsafe(no_mangle)]
pub extern "C" fn jsx_precompile_fill<'a>(
    templates: &'a [u8],
    order: &'a [u8],
    html_out: &mut [u8],
) -> Filled
    ensures { F.Answered (F.outcome templates.now order.now (length html_out.old)) html_out.old result.number result.html_bytes html_out.new }
{
    jsx_precompile::jsx_precompile_fill(templates, order, html_out)
}

// Document 02, A13 and A14: a page arrives at a catalogue of pages.
#[unsafe(no_mangle)]
pub extern "C" fn jsx_precompile_catalogue_add<'a>(
    catalogue: &mut [u8],
    name: u32,
    house: u32,
    shares: &'a [u32],
    templates: &'a [u8],
    page: &'a [u8],
) -> Catalogued
    ensures { Catalogues (arriving catalogue.old name house shares.now templates.now page.now) catalogue.old result.number result.used result.pages catalogue.new }
{
    jsx_precompile::jsx_precompile_catalogue_add(catalogue, name, house, shares, templates, page)
}

// And leaves it.
#[unsafe(no_mangle)]
pub extern "C" fn jsx_precompile_catalogue_remove(catalogue: &mut [u8], name: u32) -> Catalogued
    ensures { Catalogues (leaving catalogue.old name) catalogue.old result.number result.used result.pages catalogue.new }
{
    jsx_precompile::jsx_precompile_catalogue_remove(catalogue, name)
}

// The version of the library: major * 10,000 + minor * 100 + patch.
#[unsafe(no_mangle)]
pub extern "C" fn jsx_precompile_version() -> u32
    ensures { result ≡ version }
{
    jsx_precompile::jsx_precompile_version()
}
