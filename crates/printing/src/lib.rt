// The card's text: what the program `card` prints of both outputs of a page (specs/Card.antt). It is written into a lent buffer, as far
// as it fits, and the place behind it is answered.
#![tactic(auto)]

pub mod expression;
mod front;
pub mod lines;
mod name;
mod quoted;
