// 02, A12: with a 05 the walks go over the page with its sums worked out, which stands in a buffer of its own. Its frame is a function's
// own, so that pages without a 05 do not pay for it.
ghost use Rattle.std.specs.Prelude.{◌≡◌, true, length};
ghost use Rattle.field.specs.Row.{read};
ghost use Rattle.page.specs.Tree.{page_in};
ghost use Rattle.refusal.specs.Refusal.{Fine};
ghost use Rattle.spec.specs.Answer.{check_inputs, worked_if, page_given};
ghost use Rattle.walk.specs.See.{at};
ghost use Rattle.transform.specs.Run.{transformed_page};

use crate::module::write_page;
use crate::options::{room, works_sums};
use page::MAX_PAGE;
use walk::state::Walk;
use worked::work_page;

// A worked page: at most eleven sevenths of the longest page.
const PAGE_ROOM: usize = MAX_PAGE * 11 / 7 + 1;

// The page with its sums worked out. It has a long frame, and is not merged into its caller.
#[inline(never)]
fn write_worked(
    input: &[u8],
    options: &[u8],
    scratch: &mut [u8],
    templates: &mut [u8],
    page: &mut [u8],
) -> Walk
    requires { check_inputs input.now options.now (length scratch.old) ≡ Fine }
    ensures { at templates.new page.new result ≡ transformed_page options.now (worked_if true (page_in (read input.now))) templates.old page.old }
{
    let mut worked = room::<PAGE_ROOM>();
    let n = work_page(input, &mut worked);
    write_page(&worked[..n], options, scratch, templates, page)
}

// The page that is given, written.
pub fn write_given(
    input: &[u8],
    options: &[u8],
    scratch: &mut [u8],
    templates: &mut [u8],
    page: &mut [u8],
) -> Walk
    requires { check_inputs input.now options.now (length scratch.old) ≡ Fine }
    ensures { at templates.new page.new result ≡ transformed_page options.now (page_given input.now options.now) templates.old page.old }
{
    if works_sums(options) {
        write_worked(input, options, scratch, templates, page)
    } else {
        write_page(input, options, scratch, templates, page)
    }
}
