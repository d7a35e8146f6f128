//! What a legal step does to words and to the hand that makes it, found from its kind, its act and its mark. The laws
//! of the rule crates go over these effects, and over no kinds of step. It stands in `proofs/`; there is nothing to call.
#![tactic(auto)]
