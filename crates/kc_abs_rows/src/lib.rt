//! What is known in the analysis, as tables of outside cases: an independent model computes them.
#![tactic(auto)]

#[cfg(test)]
mod conditions;
#[cfg(test)]
mod deliveries;
#[cfg(test)]
mod descriptions;
#[cfg(test)]
mod domains;
#[cfg(test)]
mod effects;
#[cfg(test)]
mod events;
#[cfg(test)]
mod returns;
#[cfg(test)]
mod table;
