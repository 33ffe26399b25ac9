// Source text in braces, up to the matching brace.
ghost use Rattle.std.specs.Prelude.{◌≤◌, length};
ghost use Rattle.read_tag.specs.Sources.{Sourced};

use crate::signs::{QuotedSource, is_quote, is_source};
use text::runs::run_end;

// The place of the brace, if it is read up to there. Out of line: merged into the pass each byte sets what the pass would leave without a reading, and
// dense tags take 40.9 instructions a byte for 38.8.
#[inline(never)]
pub fn source_end(text: &[u8], i: usize) -> Option<usize>
    requires { i ≤ length text.now }
    ensures { Sourced text.now i result }
{
    // No iterator: what is in quotes is passed in one step, and where it ends only run_end says.
    let mut k = i;
    let mut depth: usize = 0;
    while k < text.len() {
        let c = text[k];
        match c {
            _ if is_source(c) => {}
            b'{' => depth += 1,
            b'}' if depth == 0 => return Some(k),
            b'}' => depth -= 1,
            _ if is_quote(c) => {
                let e = run_end(&QuotedSource { quote: c }, text, k + 1);
                if *text.get(e)? != c {
                    return None;
                }
                k = e;
            }
            _ => return None,
        }
        k += 1;
    }
    None
}
