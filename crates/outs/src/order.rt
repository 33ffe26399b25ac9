// Which fields may come in a body of a page out, what may come behind them, and what must not be missing at its end.
ghost use Rattle.std.specs.Prelude.{◌≡◌};
ghost use Rattle.outs.specs.Held.{held};
ghost use Rattle.outs.specs.PageOut.{expression, allowed, among_items, left, closed, within};
ghost use Rattle.outs.specs.Step.{Holding, left_unplaced};
ghost use Rattle.outs.specs.declared.Expect.TheVariants as E;

use crate::Expect;
use field::tags::{
    ARRAY, ARRAY_SPREAD, CHOICE, DECLARATION, EMPTY_STATEMENT, EXPORT, HOLE, IDENT, IMPORT, JSX,
    JSX_ATTR, JSX_TEMPLATE, MEMBER, MINUS_DECIMAL, NULL, OTHER_EXPRESSION, PROP, PROPS, SOURCE,
    SPREAD, STATEMENT, STATIC_STRING, STRING, TEMPLATES_HERE,
};
use refusal::Refusal;

#[inline(always)]
fn is_expression(tag: u8) -> bool
    ensures { result ≡ expression tag }
{
    matches!(tag, STRING..=ARRAY | OTHER_EXPRESSION..=MINUS_DECIMAL | JSX_TEMPLATE..=JSX)
}

// Inlined, since it is asked at each field: called, nested expressions take 19 % more, components 21 %.
#[inline(always)]
pub fn is_allowed(expect: Expect, tag: u8) -> bool
    ensures { result ≡ allowed expect tag }
{
    match expect {
        Expect::Whole => matches!(tag, EXPORT..=EMPTY_STATEMENT | IMPORT | TEMPLATES_HERE),
        Expect::Items | Expect::Declarations => matches!(
            tag,
            EXPORT..=EMPTY_STATEMENT | TEMPLATES_HERE
        ),
        Expect::Placed | Expect::Rest => matches!(tag, EXPORT..=EMPTY_STATEMENT),
        Expect::Statement => matches!(tag, EXPORT | STATEMENT),
        Expect::NoStatement => matches!(tag, DECLARATION | EMPTY_STATEMENT),
        Expect::Pieces => (tag == SOURCE) | is_expression(tag),
        Expect::Exprs | Expect::One | Expect::OneThenName | Expect::Key => is_expression(tag),
        Expect::Elements => is_expression(tag) | matches!(tag, ARRAY_SPREAD | HOLE),
        Expect::NameThenOne | Expect::JustName => tag == STATIC_STRING,
        Expect::Callee => matches!(tag, IDENT | MEMBER | STATIC_STRING),
        Expect::Props => matches!(tag, NULL | PROPS),
        Expect::Properties => matches!(tag, SPREAD | PROP),
        Expect::Nothing => false,
    }
}

// The templates go before the first statement.
fn among_items(expect: Expect, tag: u8) -> Expect
    ensures { result ≡ among_items expect tag }
{
    if matches!(tag, EXPORT | STATEMENT) {
        Expect::Rest
    } else {
        expect
    }
}

// Before the place of the templates: what it becomes, and what an item makes of what is expected.
fn left_unplaced(place: Expect, tag: u8) -> Expect
    ensures { result ≡ left_unplaced place tag }
{
    if tag == TEMPLATES_HERE {
        place
    } else {
        among_items(Expect::Declarations, tag)
    }
}

fn left_whole(tag: u8) -> Expect
    ensures { result ≡ left E.Whole tag }
{
    if tag == IMPORT {
        Expect::Items
    } else {
        left_unplaced(Expect::Placed, tag)
    }
}

pub fn left_of(expect: Expect, tag: u8) -> Expect
    ensures { result ≡ left expect tag }
{
    match expect {
        Expect::Whole => left_whole(tag),
        Expect::Items => left_unplaced(Expect::Placed, tag),
        Expect::Placed => among_items(Expect::NoStatement, tag),
        Expect::Declarations => left_unplaced(Expect::Statement, tag),
        Expect::Statement => Expect::Rest,
        Expect::NameThenOne => Expect::One,
        Expect::OneThenName => Expect::JustName,
        Expect::Callee => Expect::Props,
        Expect::Props => Expect::Key,
        Expect::One | Expect::JustName | Expect::Key | Expect::Nothing => Expect::Nothing,
        Expect::Rest
        | Expect::NoStatement
        | Expect::Pieces
        | Expect::Exprs
        | Expect::Elements
        | Expect::Properties => expect,
    }
}

// At the end of a body.
pub fn close(expect: Expect) -> Result<(), Refusal>
    ensures { result ≡ closed expect }
{
    match expect {
        Expect::Statement
        | Expect::One
        | Expect::NameThenOne
        | Expect::OneThenName
        | Expect::JustName
        | Expect::Callee
        | Expect::Props => Err(Refusal::Misplaced),
        _ => Ok(()),
    }
}

// How many bytes stand in a body before its fields, by its tag and the width of a call's number; none where it holds bytes alone.
#[tactic(auto, unfolding(crate::specs::Held::held))]
pub fn front_of(tag: u8, width: usize) -> Option<usize>
    ensures { Holding (held width tag) result }
{
    match tag {
        JSX_TEMPLATE => Some(width),
        EXPORT..=STATEMENT | SPREAD | ARRAY | ARRAY_SPREAD | OTHER_EXPRESSION | JSX_ATTR..=PROP =>
            Some(0),
        _ => None,
    }
}

// What the fields of such a body are.
#[tactic(auto, unfolding(crate::specs::PageOut::within))]
pub fn inner_of(tag: u8) -> Expect
    ensures { result ≡ within tag }
{
    match tag {
        EXPORT..=STATEMENT | OTHER_EXPRESSION => Expect::Pieces,
        ARRAY => Expect::Elements,
        JSX_TEMPLATE => Expect::Exprs,
        JSX_ATTR | PROP => Expect::NameThenOne,
        CHOICE => Expect::OneThenName,
        JSX => Expect::Callee,
        PROPS => Expect::Properties,
        _ => Expect::One,
    }
}
