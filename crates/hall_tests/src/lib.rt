//! Tests of `gas_seats`, `gas_hall` and `mutex_hall`: sessions over doors, in memory and over sockets.
#![tactic(auto)]

#[cfg(test)]
mod doors;
#[cfg(test)]
mod expected;
#[cfg(test)]
mod faulty;
#[cfg(test)]
mod gates;
#[cfg(test)]
mod hall_serving;
#[cfg(test)]
mod most_seats;
#[cfg(test)]
mod open_and_serve;
#[cfg(test)]
mod refused;
#[cfg(test)]
mod small_labs;
#[cfg(test)]
mod socket;
#[cfg(test)]
mod turn_doors;
#[cfg(test)]
mod turn_hall_serving;
