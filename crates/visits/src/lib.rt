// The page walk: both passes of what stands in a page. Element, children, call and expression walk each other as in 000; what each does to
// both outs is `see` of a row of expressions, or `act` of a first pass, of walk's specs/See.antt.
#![tactic(auto)]

mod calls;
mod state;

pub use calls::on_pieces;
