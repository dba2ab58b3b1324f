//! Tests of what a volume stands on, with values worked out by hand: texts, runs and places, records, pages and a table of
//! a few pages, frames, free pages and the allocation map, dumps, the machine in memory and the real file. Tables of many
//! pages, caches, the log and broken tables are in `tests/sweeps`.
#![tactic(auto)]

#[cfg(test)]
mod choices;
#[cfg(test)]
mod dumps;
#[cfg(test)]
mod formats;
#[cfg(test)]
mod frames;
#[cfg(test)]
mod free;
#[cfg(test)]
mod lookups;
#[cfg(test)]
mod machines;
#[cfg(test)]
mod pages;
#[cfg(test)]
mod records;
#[cfg(test)]
mod slots;
#[cfg(test)]
mod wires;
