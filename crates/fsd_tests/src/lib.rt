//! Tests that cross crates: runs over a machine in memory whose sectors wear and over a real file, and the example for
//! programmers. Whole sweeps of stops, damage and failing calls are in `tests/sweeps`.
#![tactic(auto)]

#[cfg(test)]
mod commands;
#[cfg(test)]
mod drills;
#[cfg(test)]
mod dumps;
#[cfg(test)]
mod example;
#[cfg(test)]
mod faults;
#[cfg(test)]
mod files;
#[cfg(test)]
mod full;
#[cfg(test)]
mod growing;
#[cfg(test)]
mod images;
#[cfg(test)]
mod machines;
#[cfg(test)]
mod mounted;
#[cfg(test)]
mod prefixes;
#[cfg(test)]
mod runs;
#[cfg(test)]
mod saving;
#[cfg(test)]
mod scripts;
#[cfg(test)]
mod stops;
