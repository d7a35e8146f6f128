//! Runs of steps that the check computes on the definitions themselves, word for word and hand for hand, some of them of mistakes;
//! and small trees of page tables, which are lawful and which not. They stand in `proofs/`; there is nothing to call.
#![tactic(auto)]
