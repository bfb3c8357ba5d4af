//! Tests of `gas_lab`, `gas_snapshot`, `gas_text` and `gas_talk`, through their public calls.
#![tactic(auto)]

#[cfg(test)]
mod commands;
#[cfg(test)]
mod expected;
#[cfg(test)]
mod files;
#[cfg(test)]
mod fixtures;
#[cfg(test)]
mod laboratory;
#[cfg(test)]
mod reading;
#[cfg(test)]
mod sessions;
#[cfg(test)]
mod shelves;
#[cfg(test)]
mod snapshots;
#[cfg(test)]
mod texts;
