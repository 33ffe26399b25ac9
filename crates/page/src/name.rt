// Names: identifiers, members and namespaced names; and what stands where no field does.
ghost use Rattle.std.specs.Prelude.{◌≡◌, ◌&&◌, OnOk};
ghost use Rattle.std.specs.List.{list_all};
ghost use Rattle.field.specs.Front.{behind_of};
ghost use Rattle.field.specs.Row.{read};
ghost use Rattle.refusal.specs.Refusal.{unless};
ghost use Rattle.refusal.specs.declared.Refusal.TheVariants.{BadName};
ghost use Rattle.page.specs.Check.{name_start, name_part, no_hyphen, is_name, check_name, check_end, check_nothing_after, check_name_by};
ghost use Rattle.page.specs.CheckField.{check_missing, check_counted, check_first, check_namespaced, check_element_name};

use crate::check_depth;
use field::reader::{Field, Fields, field_at};
use field::tags::{IDENT, MEMBER, NAMESPACED_NAME};
use refusal::{Refusal, refuse_unless};

// 01, Name: the bytes of a 40, and the 40s of a 41.
pub const MAX_NAME: usize = 128;

const MIN_MEMBERS: usize = 2;

pub const MAX_MEMBERS: usize = 8;

// The first byte of a name, and each behind it. The small letters come first in both tests, since most names have no others: one matches! of
// all costs 2.8 % on the mean page.
pub fn is_start(c: u8) -> bool
    ensures { result ≡ name_start c }
{
    if b'a' <= c {
        return c <= b'z';
    }
    matches!(c, b'A'..=b'Z' | b'_' | b'$')
}

pub fn is_part(c: u8) -> bool
    ensures { result ≡ name_part c }
{
    if b'a' <= c {
        return c <= b'z';
    }
    matches!(c, b'A'..=b'Z' | b'0'..=b'9' | b'_' | b'-' | b'$')
}

fn are_parts(s: &[u8]) -> bool
    ensures { result ≡ list_all (λ c. name_part c) s.now }
{
    s.iter().all(|c| is_part(*c))
}

fn is_name(s: &[u8]) -> bool
    ensures { result ≡ is_name s.now }
{
    let Some((first, rest)) = s.split_first() else {
        return false;
    };
    s.len() <= MAX_NAME && is_start(*first) && are_parts(rest)
}

// By `contains`, which is a call that LLVM does not inline, a name of a member takes 16 instructions more.
fn has_no_hyphen(s: &[u8]) -> bool
    ensures { result ≡ no_hyphen s.now }
{
    s.iter().all(|c| *c != b'-')
}

#[tactic(auto, unfolding(crate::specs::Check::check_name))]
fn check_name(s: &[u8]) -> Result<(), Refusal>
    ensures { result ≡ check_name s.now }
{
    refuse_unless(is_name(s), Refusal::BadName)
}

fn check_member(s: &[u8]) -> Result<(), Refusal>
    ensures { result ≡ unless (is_name s.now && no_hyphen s.now) BadName }
{
    refuse_unless(is_name(s) && has_no_hyphen(s), Refusal::BadName)
}

// Where no field may follow.
pub fn check_end(s: &[u8]) -> Result<(), Refusal>
    ensures { result ≡ check_end (read s.now) }
{
    match field_at(s) {
        Some(_) => Err(Refusal::Misplaced),
        None => check_nothing_after(s),
    }
}

// Where a series has come to its end, or to bytes that are no field.
pub fn check_nothing_after(s: &[u8]) -> Result<(), Refusal>
    ensures { result ≡ check_nothing_after (read s.now) }
{
    refuse_unless(s.is_empty(), Refusal::Truncated)
}

// Where a field must stand and none does.
pub fn check_missing(s: &[u8]) -> Result<(), Refusal>
    ensures { result ≡ check_missing (read s.now) }
{
    check_nothing_after(s)?;
    Err(Refusal::Misplaced)
}

// The 40s of a member: two to eight, without hyphens.
fn check_members(s: &[u8], depth: usize) -> Result<(), Refusal>
    ensures { result ≡ check_counted 8 2 depth (read s.now) }
{
    let mut fields = Fields(s);
    for n in 0..MAX_MEMBERS {
        match fields.next() {
            Some(Field { tag: IDENT, body }) => {
                check_depth(depth)?;
                check_member(body)?;
            }
            Some(_) => return Err(Refusal::Misplaced),
            None if n < MIN_MEMBERS => return check_missing(fields.0),
            None => return check_nothing_after(fields.0),
        }
    }
    check_end(fields.0)
}

// The 40 in front of what is left.
fn check_first(fields: &mut Fields<'_>, depth: usize) -> Result<(), Refusal>
    ensures gives { result ≡ check_first depth (read fields.old.0.now) }
    ensures leaves { OnOk result (fields.new.0.now ≡ behind_of fields.old.0.now) }
{
    match fields.next() {
        Some(Field { tag: IDENT, body }) => {
            check_depth(depth)?;
            check_name(body)
        }
        Some(_) => Err(Refusal::Misplaced),
        None => check_missing(fields.0),
    }
}

// Two 40s.
fn check_namespaced(s: &[u8], depth: usize) -> Result<(), Refusal>
    ensures { result ≡ check_namespaced depth (read s.now) }
{
    let mut fields = Fields(s);
    check_first(&mut fields, depth)?;
    check_first(&mut fields, depth)?;
    check_end(fields.0)
}

// A name's body by its tag.
#[tactic(auto, unfolding(crate::specs::Check::check_name_by, crate::specs::CheckField::check_counted, crate::specs::CheckField::check_namespaced, crate::specs::Tree::choose))]
pub fn check_name_by(tag: u8, b: &[u8], depth: usize) -> Result<(), Refusal>
    ensures { result ≡ check_name_by tag depth b.now (read b.now) }
{
    match tag {
        MEMBER => check_members(b, depth),
        NAMESPACED_NAME => check_namespaced(b, depth),
        _ => check_name(b),
    }
}

// The name in front of an element's fields.
pub fn check_element_name(s: &[u8], depth: usize) -> Result<(), Refusal>
    ensures { result ≡ check_element_name depth (read s.now) }
{
    match field_at(s) {
        Some(
            Field {
                tag: tag @ IDENT..=NAMESPACED_NAME,
                body,
            },
        ) => {
            check_depth(depth)?;
            check_name_by(tag, body, depth + 1)
        }
        Some(_) => Err(Refusal::Misplaced),
        None => check_missing(s),
    }
}
