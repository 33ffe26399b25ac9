// The walk over the records, of templates that are checked.
ghost use Rattle.std.specs.Prelude.{◌≡◌, true, ◌≤◌, length};
ghost use Rattle.refusal.specs.Refusal.{Fine};
ghost use Rattle.outs.specs.Templates.{check_templates};
ghost use Rattle.outs.specs.declared.Kind.TheVariants.{New};
ghost use Rattle.find.specs.Find.{rising};
ghost use Rattle.find.specs.Answer.{Walked};

use crate::search::{MOST, place_of, table_of};
use field::reader::Fields;

// No place in any buffer: all bits set. The C interface has no Option.
pub const ABSENT: usize = usize::MAX;

// The answer: 0 or the number of the refusal, how many records were read, and where those asked for begin (01: "an array [absent; 256] of places,
// set before the walk and filled as records are met"). It goes to C by value, so it is numbers side by side, and no Result.
#[repr(C)]
#[derive(Clone, Copy)]
pub struct Places {
    pub number: u32,
    pub records: usize,
    pub places: [usize; MOST],
}

// Record by record, until none waits for its place. A number is searched among those asked for, not each of them among the records.
pub fn walk(templates: &[u8], numbers: &[u32]) -> Places
    requires { (check_templates New templates.now ≡ Fine) × ((rising numbers.now ≡ true) × (length numbers.now ≤ 256)) }
    ensures { Walked templates.now numbers.now result.number result.records result.places }
{
    let table = table_of(numbers);
    let mut places = [ABSENT; MOST];
    let mut waiting = numbers.len();
    let mut records: usize = 0;
    let mut fields = Fields(templates);
    while waiting != 0 {
        let at = templates.len() - fields.0.len();
        let Some(record) = fields.next() else {
            break;
        };
        let b = record.body;
        let number = u32::from_be_bytes([b[0], b[1], b[2], b[3]]);
        // An `if` in another: where one of both in a row fails, the proof does not learn which.
        if let Some(i) = place_of(numbers, &table, number) {
            if places[i] == ABSENT {
                places[i] = at;
                waiting -= 1;
            }
        }
        records += 1;
    }
    Places {
        number: 0,
        records,
        places,
    }
}
