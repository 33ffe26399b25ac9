// Elements and fragments, attributes, children, expressions and pieces. The functions call each other as the fields nest, and the bytes
// that are left fall at each call; siblings are walked in a loop. The number is the depth at which the fields stand; it goes beside the bytes:
// the bytes are others at each call but that of check_container, so a struct of the two would be made anew for each.
//
// A tag and a body go side by side: as one Field, passed to check_tag and check_expr_field, they take 8 % more in the check of the mean page.
//
// Each loop holds an arm for each kind of field that may come there, and no two loops have the same arms: one walk over a check that is passed would
// leave each its arms, in another function.
ghost use Rattle.std.specs.Prelude.{◌≡◌};
ghost use Rattle.field.specs.Row.{read};
ghost use Rattle.page.specs.Check.{check_attribute, check_value, check_container, check_expr, check_items, check_pieces};
ghost use Rattle.page.specs.CheckField.{check_nodes, check_tag_field, check_expr_field};

use crate::check_depth;
use crate::leaf::{check_boolean, check_empty, check_text};
use crate::name::{
    check_element_name, check_end, check_missing, check_name_by, check_nothing_after,
};
use crate::number::check_number;
use field::reader::{Field, Fields, behind};
use field::tags::{
    ARRAY, ARRAY_SPREAD, ATTRIBUTE, ATTRIBUTE_STRING, BOOLEAN, CONTAINER, DECIMAL, ELEMENT,
    FRAGMENT, HOLE, IDENT, MINUS, MINUS_DECIMAL, NAMESPACED_NAME, NULL, NUMBER, OTHER_EXPRESSION,
    OTHER_LITERAL, SOURCE, SPREAD, SPREAD_CHILD, STRING, TEXT,
};
use refusal::Refusal;

// An element or a fragment: the name of an element, and then its nodes. What is left behind the name is named by `behind`: a `&mut Fields` that
// check_element_name moves on would need a clause of its own for that, and takes 1.8 % more of elements in elements (a probe of forty).
#[cycle(check)]
fn check_tag(tag: u8, body: &[u8], depth: usize) -> Result<(), Refusal>
    ensures { result ≡ check_tag_field depth tag body.now }
{
    // One call for both tags: a call in each arm takes 4 % more in the check of the mean page, and 18 % of elements in elements. The arms
    // set two variables: of a pair that the match gives, the proof does not learn which bytes its first part is.
    let mut nodes = body;
    let mut attributes = false;
    match tag {
        ELEMENT => {
            check_depth(depth)?;
            check_element_name(body, depth + 1)?;
            nodes = behind(body);
            attributes = true;
        }
        FRAGMENT => check_depth(depth)?,
        _ => return Err(Refusal::Misplaced),
    }
    check_nodes(nodes, attributes, depth + 1)
}

// Attributes, as long as they may come, and children.
#[cycle(check)]
fn check_nodes(s: &[u8], attributes: bool, depth: usize) -> Result<(), Refusal>
    ensures { result ≡ check_nodes attributes depth (read s.now) }
{
    let mut fields = Fields(s);
    let mut first = attributes;
    while let Some(field) = fields.next() {
        match field.tag {
            // Behind a child they are refused with what is neither.
            ATTRIBUTE if first => {
                check_depth(depth)?;
                check_attribute(field.body, depth + 1)?;
            }
            SPREAD if first => {
                check_depth(depth)?;
                check_expr(field.body, depth + 1)?;
            }
            TEXT => {
                check_depth(depth)?;
                check_text(field.body)?;
                first = false;
            }
            CONTAINER => {
                check_depth(depth)?;
                check_container(field.body, depth + 1)?;
                first = false;
            }
            SPREAD_CHILD => {
                check_depth(depth)?;
                check_expr(field.body, depth + 1)?;
                first = false;
            }
            _ => {
                check_tag(field.tag, field.body, depth)?;
                first = false;
            }
        }
    }
    check_nothing_after(fields.0)
}

// A name, then nothing or a value.
#[cycle(check)]
fn check_attribute(s: &[u8], depth: usize) -> Result<(), Refusal>
    ensures { result ≡ check_attribute depth (read s.now) }
{
    let mut fields = Fields(s);
    match fields.next() {
        Some(
            Field {
                tag: tag @ (IDENT | NAMESPACED_NAME),
                body,
            },
        ) => {
            check_depth(depth)?;
            check_name_by(tag, body, depth + 1)?;
            check_value(fields.0, depth)
        }
        Some(_) => Err(Refusal::Misplaced),
        None => check_missing(s),
    }
}

#[cycle(check)]
fn check_value(s: &[u8], depth: usize) -> Result<(), Refusal>
    ensures { result ≡ check_value depth (read s.now) }
{
    let mut fields = Fields(s);
    let Some(field) = fields.next() else {
        return check_nothing_after(s);
    };
    match field.tag {
        ATTRIBUTE_STRING => {
            check_depth(depth)?;
            check_text(field.body)?;
        }
        CONTAINER => {
            check_depth(depth)?;
            check_container(field.body, depth + 1)?;
        }
        _ => check_tag(field.tag, field.body, depth)?,
    }
    check_end(fields.0)
}

// One expression or none.
#[cycle(check)]
fn check_container(s: &[u8], depth: usize) -> Result<(), Refusal>
    ensures { result ≡ check_container depth (read s.now) }
{
    if s.is_empty() {
        Ok(())
    } else {
        check_expr(s, depth)
    }
}

// One expression.
#[cycle(check)]
fn check_expr(s: &[u8], depth: usize) -> Result<(), Refusal>
    ensures { result ≡ check_expr depth (read s.now) }
{
    let mut fields = Fields(s);
    let Some(field) = fields.next() else {
        return check_missing(s);
    };
    check_expr_field(field.tag, field.body, depth)?;
    check_end(fields.0)
}

// The field of an expression.
#[cycle(check)]
fn check_expr_field(tag: u8, body: &[u8], depth: usize) -> Result<(), Refusal>
    ensures { result ≡ check_expr_field depth tag body.now }
{
    match tag {
        STRING | OTHER_LITERAL => {
            check_depth(depth)?;
            check_text(body)
        }
        BOOLEAN => {
            check_depth(depth)?;
            check_boolean(body)
        }
        NULL => {
            check_depth(depth)?;
            check_empty(body)
        }
        ARRAY => {
            check_depth(depth)?;
            check_items(body, depth + 1)
        }
        OTHER_EXPRESSION => {
            check_depth(depth)?;
            check_pieces(body, depth + 1)
        }
        ELEMENT | FRAGMENT => check_tag(tag, body, depth),
        NUMBER | MINUS | DECIMAL | MINUS_DECIMAL => {
            check_depth(depth)?;
            check_number(tag, body)
        }
        _ => Err(Refusal::Misplaced),
    }
}

// Expressions, spreads and holes.
#[cycle(check)]
fn check_items(s: &[u8], depth: usize) -> Result<(), Refusal>
    ensures { result ≡ check_items depth (read s.now) }
{
    let mut fields = Fields(s);
    while let Some(field) = fields.next() {
        match field.tag {
            ARRAY_SPREAD => {
                check_depth(depth)?;
                check_expr(field.body, depth + 1)?;
            }
            HOLE => {
                check_depth(depth)?;
                check_empty(field.body)?;
            }
            _ => check_expr_field(field.tag, field.body, depth)?,
        }
    }
    check_nothing_after(fields.0)
}

// Source texts and tags.
#[cycle(check)]
pub fn check_pieces(s: &[u8], depth: usize) -> Result<(), Refusal>
    ensures { result ≡ check_pieces depth (read s.now) }
{
    let mut fields = Fields(s);
    while let Some(field) = fields.next() {
        match field.tag {
            SOURCE => {
                check_depth(depth)?;
                check_text(field.body)?;
            }
            _ => check_tag(field.tag, field.body, depth)?,
        }
    }
    check_nothing_after(fields.0)
}
