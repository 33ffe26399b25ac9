// Templates filled (document 02, A8): HTML from templates out and an order, which names a template and has a filling for each of its gaps. Both
// are checked first. What is written is what specs/Html.antt says; that it is well nested for templates of the transform is in proofs/Nested.antt.
#![tactic(auto)]

mod answer;
mod front;
mod html;
mod index;
mod order;

pub use answer::{Filled, fill};
