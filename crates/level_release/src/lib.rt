//! Page tables that are released: what their entries hold is given back, and what an earlier turn left unfinished is settled.
#![tactic(auto)]

mod emptying;
mod leaving;
mod parking;
mod releasing;
mod settling;

pub use parking::park;
pub use releasing::release;
pub use settling::settle;
