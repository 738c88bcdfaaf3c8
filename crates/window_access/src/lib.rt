//! Loads and stores through the window of direct access: the guest's accesses to the bytes that the
//! window shows, over the files of a plain board and the map of the window's pages.
//!
//! The meaning stands in `specs/Access.antt`: why an access is refused, and at which byte; which bytes a
//! load gives; which writes a store consists of, one for each page that it touches.
//!
//! The window is the shared memory region of VIRTIO 1.2 section 5.11; what its pages are mapped to is
//! what FUSE_SETUPMAPPING of Linux uapi `fuse.h`, protocol 7.38, made of them.
#![tactic(auto)]

mod checks;
mod loads;
mod refusals;
mod stores;
#[cfg(test)]
mod tests;

pub use loads::{load_window, load_window_into};
pub use refusals::WindowRefusal;
pub use stores::store_window;
