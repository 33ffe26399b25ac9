// A whole page and whole options. Items, texts and options are walked by a loop each: a walk over a check that is passed would ask, in a clause of its
// own, how that check makes the row's, which is longer than a loop of one line.
ghost use Rattle.std.specs.Prelude.{◌≡◌};
ghost use Rattle.field.specs.Row.{read};
ghost use Rattle.page.specs.Check.{check_module_items, check_page, check_texts, check_options};
ghost use Rattle.page.specs.CheckField.{check_module_item, check_option};

use crate::element::check_pieces;
use crate::leaf::{check_empty, check_source, check_text};
use crate::name::check_nothing_after;
use field::reader::{Field, Fields};
use field::tags::{
    ELEMENTS_NOT_SERIALIZED, EMPTY_STATEMENT, EXPORT, IMPORT_SOURCE, PAGE, SOURCE, STATEMENT, SUMS,
};
use refusal::{Refusal, refuse_unless};

#[tactic(auto, unfolding(crate::specs::CheckField::check_module_item, crate::specs::Check::check_header, refusal::specs::Refusal::after, crate::specs::Tree::choose))]
fn check_module_item(field: Field<'_>) -> Result<(), Refusal>
    ensures { result ≡ check_module_item field.entry.tag field.entry.body.now }
{
    match field.tag {
        EXPORT..=STATEMENT => check_pieces(field.body, 3),
        EMPTY_STATEMENT => check_empty(field.body),
        _ => Err(Refusal::Misplaced),
    }
}

fn check_module_items(s: &[u8]) -> Result<(), Refusal>
    ensures { result ≡ check_module_items (read s.now) }
{
    let mut fields = Fields(s);
    while let Some(field) = fields.next() {
        check_module_item(field)?;
    }
    check_nothing_after(fields.0)
}

// The refusals 3 to 8 of a page.
pub fn check_page(s: &[u8]) -> Result<(), Refusal>
    ensures { result ≡ check_page (read s.now) }
{
    let mut fields = Fields(s);
    match fields.next() {
        Some(Field { tag: PAGE, body }) => {
            check_module_items(body)?;
            check_nothing_after(fields.0)
        }
        Some(_) => Err(Refusal::Misplaced),
        None => Err(Refusal::Truncated),
    }
}

// A series of source texts.
fn check_texts(s: &[u8]) -> Result<(), Refusal>
    ensures { result ≡ check_texts (read s.now) }
{
    let mut fields = Fields(s);
    while let Some(field) = fields.next() {
        refuse_unless(field.tag == SOURCE, Refusal::Misplaced)?;
        check_text(field.body)?;
    }
    check_nothing_after(fields.0)
}

// One option; from is the least tag that may still come.
#[tactic(auto, unfolding(crate::specs::CheckField::check_option, crate::specs::Check::check_header, refusal::specs::Refusal::after, crate::specs::Tree::choose))]
fn check_option(from: u8, field: Field<'_>) -> Result<(), Refusal>
    ensures { result ≡ check_option «from» field.entry.tag field.entry.body.now }
{
    refuse_unless((from..=SUMS).contains(&field.tag), Refusal::Misplaced)?;
    match field.tag {
        IMPORT_SOURCE => check_source(field.body),
        SUMS => check_empty(field.body),
        _ => check_texts(field.body),
    }
}

// The refusals 3 to 8 of options.
pub fn check_options(s: &[u8]) -> Result<(), Refusal>
    ensures { result ≡ check_options (read s.now) }
{
    let mut fields = Fields(s);
    let mut from = ELEMENTS_NOT_SERIALIZED;
    while let Some(field) = fields.next() {
        check_option(from, field)?;
        from = field.tag + 1;
    }
    check_nothing_after(fields.0)
}
