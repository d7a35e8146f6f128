//! The lines of a trace: words, numbers, and the forms that a line of words may have.
#![tactic(auto)]

mod again;
mod call;
mod fault;
mod form;
mod line;
mod numbers;
mod operation;
mod put;
mod words;

pub use again::is_read_again;
pub use fault::{Cause, LineError, LineFault, What};
pub use form::line_of;
pub use line::Line;
pub use put::{
    put_cell, put_clock, put_domain, put_end, put_frames, put_header, put_limit, put_op, put_own,
    put_priv, put_turn, put_vcpu,
};
pub use words::split_off;
