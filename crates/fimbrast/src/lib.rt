// The library as a desk links it: every call on numbers, lent bytes and records of these. `fimbrast_c` exports each for C and Rust.
#![tactic(auto)]

pub mod apply;
pub mod code;
pub mod feed;
pub mod generator;
pub mod index;
pub mod message;
pub mod obey;
pub mod reader;
pub mod string;
pub mod time;
pub mod track_set;
pub mod version;
pub mod write;
