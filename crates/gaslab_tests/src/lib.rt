//! Tests of the library `gaslab`, and through it of all crates below. Expected values come from outside the program.
#![tactic(auto)]

#[cfg(test)]
mod command_line;
#[cfg(test)]
mod examples;
#[cfg(test)]
mod expected;
#[cfg(test)]
mod failing;
#[cfg(test)]
mod files;
#[cfg(test)]
mod lines;
#[cfg(test)]
mod loads;
#[cfg(test)]
mod opening;
#[cfg(test)]
mod ports;
#[cfg(test)]
mod refused;
#[cfg(test)]
mod script;
#[cfg(test)]
mod serving;
#[cfg(test)]
mod snapshots;
#[cfg(test)]
mod socket;
#[cfg(test)]
mod workers;
