//! The calls of a guest on its files: `read`, `write`, `size` and `truncate`. Without ranges each is one request. With ranges a read
//! goes through the window, and so does a write that ends at most at the file's size, which a lease keeps; a write that
//! ends above it, `size` and `truncate` are requests. A hold keeps a chunk in its range, and its file from shrinking:
//! `hold` asks for one, `load` and `store` go through it, and `release` gives it back.
#![tactic(auto)]

mod calls;
mod chunks;
mod direct;
mod guest;
mod holds;
mod pins;
mod reads;
mod requests;
mod slots;
mod truncates;
mod writes;

pub use calls::{Done, Held, Refusal};
pub use guest::{Granted, Guest, Holds, MAX_HOLDS};
