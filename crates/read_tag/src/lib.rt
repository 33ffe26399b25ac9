// The leaves of reading tag text (document 02, A3): names, text, strings, what braces hold, and the scans over runs of bytes under them. Each is
// held to the grammar's own words or to its reader, whatever stands around it. The pass over them is crate tag_pass.
#![tactic(auto)]

pub mod entity;
pub mod known;
pub mod name;
pub mod signs;
pub mod source;
pub mod texts;
