//! The words of a simulated Xen x86-64 paravirtual machine: how each is spelled, where it stands, and
//! the operations, replies and log lines that speak of them.
#![tactic(auto)]

mod context;
mod entry;
mod item_list;
mod kind;
pub mod laws;
mod layout;
mod ops;
mod place;
mod refs;
mod reply;
mod short_list;

pub use context::{ContextWord, LdtBase};
pub use entry::{Demand, Entry, fix};
pub use item_list::ItemList;
pub use kind::{KindWord, PageType};
pub use layout::{Domains, Layout, Limits, Masks};
pub use ops::{Call, CallList, ExtList, ExtOp, Numbers, Op, Pair, Pairs, Script};
pub use place::Place;
pub use refs::RefWord;
pub use reply::{Log, LogLine, Pause, Refusal, Reply, Stop};
pub use short_list::ShortList;
