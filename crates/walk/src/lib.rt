// The page walk's state, and all that it writes to page out without visiting an expression. Fields are written with their heads last; what
// they do to page out and to the state is `see` of specs/See.antt, or the beginning and the end of such a field.
#![tactic(auto)]

pub mod attribute;
pub mod call;
pub mod state;
