// The rules of a text run: lines, trimming, the text of a JSX child, attribute strings, escapes and decimal digits. Each writer puts what
// its definition says into a lent buffer, as far as it fits, and answers the place behind; nothing is buffered in between.
// Merging children and choosing where which rule applies is left to the crates above.
#![tactic(auto)]

pub mod decimal;
pub mod escape;
pub mod jsx_text;
pub mod lines;
pub mod runs;
pub mod trim;
