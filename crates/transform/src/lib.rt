// The whole transform, from bytes to bytes: a page and options in, templates and the page out. Everything is checked here; no caller is
// trusted to have looked first. The answer and every byte lent are those of `outcome`. `jsx_precompile` hands it to hosts.
#![tactic(auto)]

ghost use Rattle.std.specs.Prelude.{◌≡◌, length};
ghost use Rattle.refusal.specs.Refusal.{Fine};
ghost use Rattle.spec.specs.Answer.{outcome, refused, check_inputs, scratch_left};
ghost use Rattle.transform.specs.Run.{Answers, due_verdict, verdict_of};

mod given;
mod module;
mod options;

use given::write_given;
use page::whole::{check_options, check_page};
use page::{MAX_OPTIONS, MAX_PAGE, MIN_SCRATCH};
use refusal::{Refusal, refuse_unless};
use strings::due::Due;
use walk::state::Walk;

// As C reads it: 0, or the number of a refusal (its `From`), and what else it has beside it, since C has no Result.
#[repr(C)]
#[derive(Clone, Copy)]
pub struct Answer {
    pub number: u32,
    pub templates_bytes: usize,
    pub page_bytes: usize,
    pub templates: usize,
}

// 1 to 8.
#[tactic(auto, unfolding(spec::specs::Answer::check_inputs, refusal::specs::Refusal::after))]
fn check_inputs(page: &[u8], options: &[u8], scratch: usize) -> Result<(), Refusal>
    ensures { result ≡ check_inputs page.now options.now scratch }
{
    refuse_unless(MIN_SCRATCH <= scratch, Refusal::ScratchTooSmall)?;
    refuse_unless(page.len() <= MAX_PAGE, Refusal::InputTooLong)?;
    refuse_unless(options.len() <= MAX_OPTIONS, Refusal::InputTooLong)?;
    check_options(options)?;
    check_page(page)
}

// 10, 16, 19 and 11.
fn check_due(due: Due) -> Result<(), Refusal>
    ensures { result ≡ due_verdict due }
{
    match due {
        Due::Nothing => Ok(()),
        Due::Long => Err(Refusal::OutputTooLong),
        Due::Mixed => Err(Refusal::MixedCaseVoid),
        Due::Repeated => Err(Refusal::RepeatedAttribute),
        Due::Left => Err(Refusal::TagLeft),
    }
}

// What is due, then 12 and 13.
#[tactic(auto, unfolding(refusal::specs::Refusal::after))]
fn check_outputs(w: Walk, templates_room: usize, page_room: usize) -> Result<(), Refusal>
    ensures { result ≡ verdict_of w templates_room page_room }
{
    check_due(w.seen.due)?;
    refuse_unless(w.templates <= templates_room, Refusal::TemplatesTooSmall)?;
    refuse_unless(w.page <= page_room, Refusal::PageTooSmall)
}

// Scratch is cleared but for 1.
fn clear_scratch(r: Refusal, scratch: &mut [u8])
    ensures { scratch.new ≡ scratch_left (refused r) scratch.old }
{
    if r != Refusal::ScratchTooSmall {
        scratch.fill(0);
    }
}

// A refusal: its number, and zeros. Called where the inputs are refused and where the outputs are: one function for both would answer a Result
// that speaks of every lent byte at `Err`.
fn refuse(r: Refusal, scratch: &mut [u8], templates: &mut [u8], page: &mut [u8]) -> Answer
    ensures { Answers (refused r) scratch.old templates.old page.old result scratch.new templates.new page.new }
{
    clear_scratch(r, scratch);
    templates.fill(0);
    page.fill(0);
    Answer {
        number: u32::from(r),
        templates_bytes: 0,
        page_bytes: 0,
        templates: 0,
    }
}

// Inputs that are fine, as one fact about them says; what the walks ask of them is one record, `Ready`. The five slices that C lends go on one by
// one: of slices in a struct a caller knows no length any more behind a call.
fn transform_checked(
    input: &[u8],
    options: &[u8],
    scratch: &mut [u8],
    templates: &mut [u8],
    page: &mut [u8],
) -> Answer
    requires { check_inputs input.now options.now (length scratch.old) ≡ Fine }
    ensures { Answers (outcome input.now options.now (length scratch.old) (length templates.old) (length page.old)) scratch.old templates.old page.old result scratch.new templates.new page.new }
{
    let w = write_given(input, options, scratch, templates, page);
    match check_outputs(w, templates.len(), page.len()) {
        Err(r) => refuse(r, scratch, templates, page),
        Ok(()) => {
            scratch.fill(0);
            Answer {
                number: 0,
                templates_bytes: w.templates,
                page_bytes: w.page,
                templates: w.later - 1,
            }
        }
    }
}

pub fn transform(
    page: &[u8],
    options: &[u8],
    scratch: &mut [u8],
    templates_out: &mut [u8],
    page_out: &mut [u8],
) -> Answer
    ensures { Answers (outcome page.now options.now (length scratch.old) (length templates_out.old) (length page_out.old)) scratch.old templates_out.old page_out.old result scratch.new templates_out.new page_out.new }
{
    match check_inputs(page, options, scratch.len()) {
        Err(r) => refuse(r, scratch, templates_out, page_out),
        Ok(()) => transform_checked(page, options, scratch, templates_out, page_out),
    }
}
