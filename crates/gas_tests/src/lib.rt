//! Tests of the crates from `gas_terms` up to `gas_ledger`, of `phase_strips`, `single_phase`, `phase_team`, `claim_desk` and
//! `ticket_lock`, through their public calls.
#![tactic(auto)]

#[cfg(test)]
mod actions;
#[cfg(test)]
mod blocks;
#[cfg(test)]
mod borders;
#[cfg(test)]
mod desks;
#[cfg(test)]
mod expected;
#[cfg(test)]
mod gases;
#[cfg(test)]
mod lattices;
#[cfg(test)]
mod ledgers;
#[cfg(test)]
mod locks;
#[cfg(test)]
mod phases;
#[cfg(test)]
mod planes;
#[cfg(test)]
mod steppers;
#[cfg(test)]
mod strips;
#[cfg(test)]
mod teams;
#[cfg(test)]
mod terms;
#[cfg(test)]
mod tile_areas;
#[cfg(test)]
mod tiles;
