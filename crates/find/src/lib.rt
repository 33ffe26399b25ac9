// Templates looked up by number (document 02, A11): up to 256 in one walk over templates out, which is checked first.
#![tactic(auto)]

mod answer;
mod lookup;
mod search;

pub use answer::find;
pub use lookup::{ABSENT, Places};
