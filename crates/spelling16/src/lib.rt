// Spelling of samples of two bytes, and of angles: from a file's bytes to the normal form's, and from lists handed over.
#![tactic(auto)]

pub mod lsb;
pub mod packing;
pub mod plain;
mod words;
pub mod write;
