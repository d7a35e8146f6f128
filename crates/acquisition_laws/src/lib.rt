//! What the steps of an acquisition do to entries and frames, and what its gate answers, whatever comes of it. The functions do nothing: their
//! contracts are laws.
#![tactic(auto)]

mod laws;

pub use laws::{an_acquisition_goes_forward, an_acquisition_stops_at_its_first_yes};
