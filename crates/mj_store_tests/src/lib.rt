//! Tests of `mj_memstore` and `mj_image`.
#![tactic(auto)]

#[cfg(test)]
mod image;
#[cfg(test)]
mod memstore;
