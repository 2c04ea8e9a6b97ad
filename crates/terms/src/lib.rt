// The term layer: entries of blocks as terms, matching and shared instances.

#![tactic(auto)]

pub mod atom;
mod classes;
mod ending;
pub mod entry;
pub mod matching;
mod node;
pub mod sharing;
pub mod tag;
pub mod valid;
