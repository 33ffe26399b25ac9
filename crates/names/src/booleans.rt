// The boolean attributes.
ghost use Rattle.std.specs.Prelude.{◌≡◌};
ghost use Rattle.names.specs.Names.{is_boolean_attr, normalize_dom_attr_name};
ghost use Rattle.names.specs.Table.{read_as};

use crate::table::{fits, has_name};

// A form of 01: a small constant table, compared entry by entry.
const NAMES: [u8; 211] = *b"\
    loop open \
    async defer inert ismap muted \
    checked default \
    autoplay controls disabled multiple nomodule readonly required reversed selected \
    autofocus itemscope \
    novalidate \
    playsinline \
    formnovalidate \
    allowfullscreen ";

// Where the names of each length begin.
const STARTS: [u16; 17] = [
    0, 0, 0, 0, 0, 10, 40, 40, 56, 137, 157, 168, 180, 180, 180, 195, 211,
];

// At each length, a bit for each first letter that a name of that length has.
const FIRSTS: [u32; 16] = [
    0, 0, 0, 0, 0x9000, 0x2212, 0, 0x18, 0xc601a, 0x202, 0x4000, 0x10000, 0, 0, 0x40, 0x2,
];

fn is_boolean(name: &[u8], small: bool) -> bool
    ensures { result ≡ is_boolean_attr (read_as small name.now) }
{
    fits(&FIRSTS, name) && has_name(&NAMES, &STARTS, name, small)
}

pub fn is_boolean_attr(name: &[u8]) -> bool
    ensures { result ≡ is_boolean_attr name.now }
{
    is_boolean(name, false)
}

// Of a name as written. Small letters are enough: no name that the attributes' table has becomes a boolean one.
pub fn normalizes_to_boolean(name: &[u8]) -> bool
    ensures { result ≡ is_boolean_attr (normalize_dom_attr_name name.now) }
{
    is_boolean(name, true)
}
