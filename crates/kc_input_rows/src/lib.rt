//! Tests of images, regions and descriptions, as tables of cases.
#![tactic(auto)]

#[cfg(test)]
mod config;
#[cfg(test)]
mod images;
#[cfg(test)]
mod regions;
