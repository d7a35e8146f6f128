//! How a port of a vCPU that is alone stands, between the elements of its operations, to a plain value of the machine; and what leaves it so. Definitions and proofs, with nothing to call.
#![tactic(auto)]
