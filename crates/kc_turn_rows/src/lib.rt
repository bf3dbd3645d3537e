//! Turns by outside cases, which an independent model of the machine computed: which may come, each break alone and two
//! together, and what deliveries and handlers leave.
#![tactic(auto)]

#[cfg(test)]
mod accesses;
#[cfg(test)]
mod left;
#[cfg(test)]
mod modes;
#[cfg(test)]
mod pairs;
#[cfg(test)]
mod returns;
#[cfg(test)]
mod table;
