// The exports of the library: each call of `fimbrast` under its own name for C and Rust, with its clauses word for word.
#![tactic(auto)]

pub mod apply;
pub mod code;
pub mod feed;
pub mod generator;
pub mod index;
pub mod message;
pub mod obey;
pub mod reader;
pub mod string;
pub mod time;
pub mod track_set;
pub mod version;
pub mod write;
