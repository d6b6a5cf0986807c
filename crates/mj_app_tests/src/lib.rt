//! Tests of `mj_app`.
#![tactic(auto)]

#[cfg(test)]
mod buffered;
#[cfg(test)]
mod calls;
