// Children of a call that become a template: merged twice. The runs of the first merge stand in scratch.
ghost use Rattle.std.specs.Prelude.{◌≡◌, ◌≤◌, ◌<◌, ◌^◌, false, [], length, take};
ghost use Rattle.field.specs.Row.{read};
ghost use Rattle.spec.specs.Children.{children_to_string};
ghost use Rattle.spec.specs.Merge.{merge, long_run, short_runs};
ghost use Rattle.decisions.specs.At.{children_at, under};
ghost use Rattle.strings.specs.Due.{long_due};
ghost use Rattle.strings.specs.Carve.{at, carve, flagged, put_again, Low};

use crate::attributes::put_value;
use crate::due::{Due, graver};
use crate::elements::{children_strings, element_strings};
use crate::writer::{Open, cut, put_text};
use decisions::becomes::{AsChild, as_child};
use decisions::options::Options;
use field::MAX_BODY;
use field::reader::Fields;
use field::tags::{CONTAINER, ELEMENT, FRAGMENT, TEXT};
use text::jsx_text::jsx_text_to_str;

// A run of the first merge, merged a second time; one that is too long is not.
fn put_run(out: &mut [u8], st: Open, scratch: &[u8], n: usize) -> Open
    requires in_bounds { 65536 ≤ length scratch.now }
    requires low { Low (put_again n (take n scratch.now) (at out.old st)) }
    ensures { at out.new result ≡ put_again n (take n scratch.now) (at out.old st) }
{
    if MAX_BODY < n {
        return Open {
            due: graver(st.due, Due::Long),
            ..st
        };
    }
    put_text(out, st, &scratch[..n], false)
}

pub fn merged_children_strings(
    options: &Options<'_>,
    s: &[u8],
    scratch: &mut [u8],
    out: &mut [u8],
    st: Open,
) -> Open
    requires in_bounds { (65536 ≤ length scratch.old) × (length s.now < 2 ^ 32) }
    requires low { Low (carve (children_to_string false (short_runs (merge false false [] (under options.now children_at (read s.now))))) (at out.old st)) }
    ensures { at out.new result ≡ flagged (long_due (long_run (merge false false [] (under options.now children_at (read s.now))))) (carve (children_to_string false (short_runs (merge false false [] (under options.now children_at (read s.now))))) (at out.old st)) }
{
    let mut cur = st;
    // How long the run in scratch is. One of no bytes writes nothing, so 0 needs no case of its own; one that is longer than scratch is only
    // counted, so no slice of scratch could stand for both.
    let mut n: usize = 0;
    for field in Fields(s) {
        // Three arms write the run first: one arm for all three would match the tag again.
        match field.tag {
            TEXT => n = jsx_text_to_str(scratch, n, field.body, false, false),
            CONTAINER => match as_child(field.body) {
                AsChild::Text(text) => n = put_value(scratch, n, text),
                AsChild::Gap(_) => {
                    let a = put_run(out, cur, scratch, n);
                    n = 0;
                    cur = cut(out, a);
                }
            },
            ELEMENT => {
                let a = put_run(out, cur, scratch, n);
                n = 0;
                cur = element_strings(options, field.body, out, a);
            }
            FRAGMENT => {
                let a = put_run(out, cur, scratch, n);
                n = 0;
                cur = children_strings(options, field.body, false, out, a);
            }
            _ => {}
        }
    }
    put_run(out, cur, scratch, n)
}
