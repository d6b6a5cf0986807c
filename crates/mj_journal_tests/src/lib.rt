//! Tests of `mj_layout`, `mj_entry`, `mj_cells`, `mj_meta` and `mj_event`, and of `mj_journaler`, `mj_probe` and `mj_replay`.
#![tactic(auto)]

#[cfg(test)]
mod cells;
#[cfg(test)]
mod entry;
#[cfg(test)]
mod event;
#[cfg(test)]
mod journal;
#[cfg(test)]
mod journaler;
#[cfg(test)]
mod layout;
#[cfg(test)]
mod meta;
#[cfg(test)]
mod payload;
#[cfg(test)]
mod probe;
#[cfg(test)]
mod replay;
#[cfg(test)]
mod stored;
