//! Finite maps as values of contracts: what they are, and what is known of them. There is no code here.
#![tactic(auto)]
