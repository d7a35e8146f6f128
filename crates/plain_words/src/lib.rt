//! A small machine as plain values: its words, what its vCPUs have in their hands, and what they have found. It
//! is written from the description of the machine, apart from the definitions and for tests alone, so that what
//! the definitions say is said twice.
#![tactic(auto)]

mod findings;
mod hand;
mod knowledge;
mod lists;
mod machine;
mod readings;
mod spelling;

pub use findings::Finding;
pub use hand::{
    Claimed, Ending, Hand, Held, Item, Live, Lock, Looking, Made, Owner, Reached, STEPS, Seen,
    Touching, Unsettled, Walk, Work,
};
pub use knowledge::{is_past, stopped_by};
pub use lists::{append, change, is_bare, newest, pack, push, put, remove, take, times};
pub use machine::{CellWord, FRAMES, Frame, Place, State};
pub use readings::{
    bit_of, demand_at, free_stamp, is_closing, is_dead, is_free, is_marked, is_walked, is_work,
    kind_stamp, left_by, names_frames, owner_of, with_bit, without_bit,
};
pub use spelling::{is_place, is_spelling};
