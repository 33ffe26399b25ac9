// The lookup: the check of the templates, then that of the numbers, then the walk.
ghost use Rattle.std.specs.Prelude.{◌≡◌, replicate};
ghost use Rattle.find.specs.Find.{absent};
ghost use Rattle.find.specs.Answer.{Checked, Answered, Nothing, unfound_number};
ghost use Rattle.find.specs.declared.answer.Unfound.TheVariants.{Templates};

use crate::lookup::{ABSENT, Places, walk};
use crate::search::{MOST, is_rising};
use outs::Kind;
use outs::templates::check_templates;
use refusal::Refusal;

// Why nothing is looked up: what is refused of the templates, or that the numbers are too many or do not rise. Of its own, as convert's is: were
// both cases of one enum, each would be an answer of the other.
#[derive(Clone, Copy)]
pub enum Unfound {
    Templates(Refusal),
    Numbers,
}

impl From<Refusal> for Unfound {
    ghost from_gives = { λ r e. e ≡ Templates r };

    fn from(r: Refusal) -> Unfound {
        Unfound::Templates(r)
    }
}

// Document 02, A11: 3, 4 and 6 for the templates, then 20.
impl From<Unfound> for u32 {
    ghost from_gives = { λ e n. n ≡ unfound_number e };

    fn from(e: Unfound) -> u32 {
        match e {
            Unfound::Templates(r) => u32::from(r),
            Unfound::Numbers => 20,
        }
    }
}

fn check(templates: &[u8], numbers: &[u32]) -> Result<(), Unfound>
    ensures { Checked templates.now numbers.now result }
{
    check_templates(templates, Kind::New)?;
    if numbers.len() <= MOST && is_rising(numbers) {
        Ok(())
    } else {
        Err(Unfound::Numbers)
    }
}

// Nothing found, and nothing read.
fn refused(e: Unfound) -> Places
    ensures { Nothing (unfound_number e) result.number result.records result.places }
{
    Places {
        number: u32::from(e),
        records: 0,
        places: [ABSENT; MOST],
    }
}

pub fn find(templates: &[u8], numbers: &[u32]) -> Places
    ensures { Answered templates.now numbers.now result.number result.records result.places }
{
    match check(templates, numbers) {
        Ok(()) => walk(templates, numbers),
        Err(e) => refused(e),
    }
}
