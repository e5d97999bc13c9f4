//! The rules of one interrupt line, as definitions over the list of its entries, in `specs/`.
//! Worked histories are closed theorems in `proofs/`, beside equations for the definitions that
//! don't compute by themselves: what one more entry makes of them. There is no code here:
//! `plain_next` has the reference program, read off the definitions.
#![tactic(auto)]
