//! Tests of `mj_base`.
#![tactic(auto)]

#[cfg(test)]
mod outside;
#[cfg(test)]
mod values;
