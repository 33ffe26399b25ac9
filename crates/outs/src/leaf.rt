// The fields of a page out that hold no field of it: texts, numbers, names, the import. What is wrong in them is found by their bytes alone.
ghost use Rattle.std.specs.Prelude.{◌≡◌};
ghost use Rattle.field.specs.Row.{next_of};
ghost use Rattle.outs.specs.PageOut.{check_sum, check_import, check_leaf};

use field::reader::{Field, Fields};
use field::tags::{
    BOOLEAN, DECIMAL, IDENT, IMPORT, MEMBER, MINUS, MINUS_DECIMAL, NUMBER, OTHER_LITERAL, SOURCE,
    STATIC_STRING, STRING,
};
use page::leaf::{check_boolean, check_empty, check_text};
use page::name::{check_missing, check_name_by};
use page::number::check_number;
use refusal::{Refusal, refuse_unless};

// The byte behind the 81 of an 82: a sum of helpers.
#[tactic(auto, unfolding(crate::specs::PageOut::check_sum))]
fn check_sum(s: &[u8]) -> Result<(), Refusal>
    ensures { result ≡ check_sum s.now }
{
    refuse_unless(matches!(s, [1..=15]), Refusal::Misplaced)
}

// The body of an 82.
fn check_import(s: &[u8]) -> Result<(), Refusal>
    ensures { result ≡ check_import (next_of s.now) }
{
    let mut fields = Fields(s);
    match fields.next() {
        Some(
            Field {
                tag: STATIC_STRING,
                body,
            },
        ) => {
            check_text(body)?;
            check_sum(fields.0)
        }
        Some(_) => Err(Refusal::Misplaced),
        None => check_missing(s),
    }
}

// A body by its tag.
#[tactic(auto, unfolding(crate::specs::PageOut::check_leaf, page::specs::Tree::choose))]
pub fn check_leaf(tag: u8, s: &[u8]) -> Result<(), Refusal>
    ensures { result ≡ check_leaf tag s.now }
{
    match tag {
        SOURCE | STRING | OTHER_LITERAL | STATIC_STRING => check_text(s),
        NUMBER | MINUS | DECIMAL | MINUS_DECIMAL => check_number(tag, s),
        BOOLEAN => check_boolean(s),
        IDENT | MEMBER => check_name_by(tag, s, 1),
        IMPORT => check_import(s),
        _ => check_empty(s),
    }
}
