//! Tests of what stands at the program's edges: the words of the command line, images and their audit, drawings, counts of references, texts of steps.
//! There is nothing to call.
#![tactic(auto)]

#[cfg(test)]
mod audits;
#[cfg(test)]
mod drawings;
#[cfg(test)]
mod images;
#[cfg(test)]
mod machines;
#[cfg(test)]
mod recounts;
#[cfg(test)]
mod steps;
#[cfg(test)]
mod words;
