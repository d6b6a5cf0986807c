//! Tests of `mj_tree`, `mj_plan`, `mj_chronicle` and `mj_rank`.
#![tactic(auto)]

#[cfg(test)]
mod asking;
#[cfg(test)]
mod chronicle;
#[cfg(test)]
mod damaged;
#[cfg(test)]
mod examples;
#[cfg(test)]
mod limits;
#[cfg(test)]
mod rank;
#[cfg(test)]
mod served;
