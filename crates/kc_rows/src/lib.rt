//! Tests of `check`, `find`, `explain`, `gen` and `upgrade` over objects in memory, as tables of cases.
#![tactic(auto)]

#[cfg(test)]
mod check;
#[cfg(test)]
mod conditions;
#[cfg(test)]
mod explained;
#[cfg(test)]
mod files;
#[cfg(test)]
mod first_sample;
#[cfg(test)]
mod forms;
#[cfg(test)]
mod searched;
#[cfg(test)]
mod second_sample;
#[cfg(test)]
mod upgrade;
