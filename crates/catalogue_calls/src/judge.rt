// The check of a page that arrives, or stands behind others in the catalogue: both parts as A7 checks them on the way down, then the kinds, then the
// numbers: 1 up to how many records there are, each recorded once and called once.
ghost use Rattle.std.specs.Prelude.{◌≡◌, ◌&&◌};
ghost use Rattle.field.specs.Row.{read};
ghost use Rattle.refusal.specs.Refusal.{Fine};
ghost use Rattle.outs.specs.Templates.{check_templates};
ghost use Rattle.outs.specs.declared.Kind.TheVariants as K;
ghost use Rattle.convert.specs.Flat.{body_agrees, BodyFits};
ghost use Rattle.catalogue.specs.Judged.{all_agree, recorded_numbers, each_once};
ghost use Rattle.catalogue_calls.specs.Flat.{calls_in};
ghost use Rattle.catalogue_calls.specs.Once.{lowered_by};
ghost use Rattle.catalogue_calls.specs.Judges.{Judges};

use crate::answer::Unkept;
use crate::numbers::{Calls, Records};
use crate::once::each_once;
use convert::are_kinds;
use field::reader::Fields;
use field::{KINDS_AT, NUMBER_WIDTH};
use outs::Kind;
use outs::page_out::check_page_out;
use outs::templates::{check_templates, counted_front};

// A record's body, of templates that are checked: the parts by their places.
fn agrees(w: &[u8]) -> bool
    requires { BodyFits K.New w.now }
    ensures { result ≡ body_agrees w.now }
{
    let front = counted_front(w);
    are_kinds(&w[KINDS_AT..front], &w[front..])
}

// A7: the kinds of each record are those that its strings give.
fn all_agree(templates: &[u8]) -> bool
    requires { check_templates K.New templates.now ≡ Fine }
    ensures { result ≡ all_agree (read templates.now) }
{
    for record in Fields(templates) {
        if !agrees(record.body) {
            return false;
        }
    }
    true
}

// Whether 1 up to the count are recorded once each and called once each, by the numbers as they were before so many templates came in front.
fn is_numbered(templates: &[u8], page: &[u8], count: usize, before: u32) -> bool
    ensures { result ≡ (each_once count (lowered_by before (recorded_numbers (read templates.now))) && each_once count (lowered_by before (calls_in page.now))) }
{
    each_once::<Records>(templates, count, before) && each_once::<Calls>(page, count, before)
}

// How many templates the page has, if it may stand in a catalogue.
pub fn judge(templates: &[u8], page: &[u8], before: u32) -> Result<usize, Unkept>
    ensures { Judges (record { templates = templates.now; page_out = page.now }) before result }
{
    check_templates(templates, Kind::New)?;
    check_page_out(page, NUMBER_WIDTH)?;
    let count = Fields(templates).count();
    if all_agree(templates) && is_numbered(templates, page, count, before) {
        Ok(count)
    } else {
        Err(Unkept::Disagreeing)
    }
}
