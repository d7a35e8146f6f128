//! A machine with its words, drawn as a text for Graphviz: who owns what, and who maps what.
#![tactic(auto)]

mod frames;
mod image;
mod named;
mod picture;
mod runs;
mod tables;
mod targets;
mod vcpus;
mod whole;

pub use whole::draw;
