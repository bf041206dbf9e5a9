// Spelling: a ping's samples as pairs and as words, written: from a file's bytes to the normal form's, and from lists handed over.
#![tactic(auto)]

pub mod lsb;
pub mod packing;
pub mod words;
pub mod write;
