//! The audit: whether the words of a machine are sound by themselves, and where they are not, what breaks it.
#![tactic(auto)]

mod contexts;
mod counted;
mod dead;
mod deciding;
mod entries;
mod held;
mod laws;
mod lines;
mod mapped;
mod pages;
mod spelled;
mod stamped;
mod verdict;

pub use deciding::audit;
pub use laws::sound_words_break_nothing;
pub use verdict::Verdict;
