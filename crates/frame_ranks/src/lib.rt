//! What an acquisition that is paused leaves: no frame falls back, and where the gate pauses it, one is further. These functions do nothing: their contracts are laws.
#![tactic(auto)]

mod acquiring;

pub use acquiring::a_paused_acquisition_goes_forward;
