// A field of a row that is checked.
ghost use Rattle.std.specs.Prelude.{◌≡◌, None};
ghost use Rattle.field.specs.Fields.{IsFront};
ghost use Rattle.field.specs.Header.{header_of};

use field::reader::Field;

// The field that stands in front, and what lies behind it. Where it is known that one does, its length is not tested: by Fields, 64 KB of short texts took
// 9 % more instructions.
#[inline(always)]
pub fn front(row: &[u8]) -> (Field<'_>, &[u8])
    requires { header_of row.now ≡ None → ⊥ }
    ensures { IsFront row.now result.0.tag result.0.body.now result.1.now }
{
    let end = 3 + usize::from(u16::from_be_bytes([row[1], row[2]]));
    let field = Field {
        tag: row[0],
        body: &row[3..end],
    };
    (field, &row[end..])
}
