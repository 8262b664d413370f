// f64 values and the laws of their order and rounding, for every crate that computes with them. Definitions are in specs/,
// laws in proofs/Laws/; there is no code to call.
#![tactic(auto)]
