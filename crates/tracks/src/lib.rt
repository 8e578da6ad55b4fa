// Record-ready tracks (document 02, #104): a set of tracks as RP-013's standard track bitmap has it.
#![tactic(auto)]

mod set;

pub use set::TrackSet;
