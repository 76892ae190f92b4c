//! Tests of what scripts over images in files can't show: devices in files and in memory; readers and writers that
//! pass few bytes at a time, are interrupted or fail; builds on devices in memory that are too small or stop.
//! `checks/stops` tests runs over devices that stop or lose power, and the rows of checks/rows test everything
//! else.
#![tactic(auto)]

#[cfg(test)]
mod builds;
#[cfg(test)]
mod files;
#[cfg(test)]
mod memory_devices;
#[cfg(test)]
mod openings;
#[cfg(test)]
mod readers;
pub mod recorded;
#[cfg(test)]
mod worlds;
#[cfg(test)]
mod writers;
