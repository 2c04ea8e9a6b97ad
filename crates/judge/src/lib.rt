// The judging layer: a certificate file gets its verdict.

#![tactic(auto)]

pub mod answer;
mod atoms;
pub mod checking;
mod cover;
mod flag;
mod form;
pub mod judging;
pub mod line;
mod listed;
mod sized;
mod tables;
pub mod verdict;
