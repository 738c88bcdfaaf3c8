//! The FUSE daemon over a board of files and a board of the window's pages: it answers one chain of a
//! virtio-fs queue at a time.
//!
//! What it does is defined in the crate below, `fuse_device`, whose `specs/Steps.antt` states the step.
//!
//! [`Daemon`] is the device: [`Daemon::serve_chain`] answers the bytes of a chain, and
//! [`Daemon::serve`] a request that was decoded.
//!
//! [`Daemon::serve_chain_data`] serves, over a daemon that stays as it is, the operations on bytes,
//! sizes and mappings alone, and [`Daemon::named_file`] tells which file has to be ready for them. A chain
//! may also be planned once, by [`plan_chain`]: [`Daemon::plan_file`] tells the file, and
//! [`Daemon::serve_plan`] serves the plan.
//!
//! [`load_window`] and [`store_window`], of the crate below, are the guest's accesses to the window that
//! the device maps.
#![tactic(auto)]

mod attributes;
mod daemon;
mod data_chains;
mod handles;
mod listing;
mod mappings;
mod naming;
mod serving;
mod sessions;
mod steps;
mod transfers;
mod turns;

pub use daemon::Daemon;
pub use fuse_device::{Plan, Refused, plan_chain};
pub use window_access::{WindowRefusal, load_window, store_window};

#[cfg(test)]
mod tests;
