// Field 4FH, Track Record Ready, of a Write or a response, as a set of tracks (document 02, #104).
#![tactic(auto)]

mod view;

pub use view::{TRACK_RECORD_READY, field_tracks};
