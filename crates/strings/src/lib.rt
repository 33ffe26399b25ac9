// The static strings of a template, written one behind the other as fields 81. An element, a series of children, or the children of a
// call that are merged twice, become what their parts do to the open string: `carve` of specs/Carve.antt. Nothing is buffered but the
// runs of a first merge. Which tags become a template, and the field around the strings, are left to the crates above.
#![tactic(auto)]

mod attributes;
pub mod due;
mod elements;
mod merged;
mod writer;

pub use attributes::put_value;
pub use elements::{children_strings, tag_strings};
pub use merged::merged_children_strings;
pub use writer::{Open, cut};
