// What 000 decides by looking at an element, an attribute or a series of children, as total functions on the bytes that hold them: names,
// values, shapes of expressions, is_serializable, and whether a call's children become a template; and the writers of a number as `expr` has it.
#![tactic(auto)]

pub mod attribute;
pub mod becomes;
pub mod children;
pub mod element;
pub mod expr;
pub mod index;
pub mod options;
pub mod repeats;
