// An index beside a field string (document 02, #101): where the first field of each one-byte name begins.
#![tactic(auto)]

mod index;

pub use index::{build, fresh, look_up};
