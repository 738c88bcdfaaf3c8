//! The window's half of the core: ranges, what they are mapped to, trees with their logs, and pins, as a pure machine.
//!
//! A guest has a file's tree while it changes it, moves a range from one place to another, and pins a range whose bytes it
//! uses. The meaning stands in `specs/`: `Window` (the state; what a guest may do and what that makes of it), `Good` (when
//! it is good), `Machine` (the machine's data as such a state), `Shown` (what a guest is shown of it), `Laws` (what holds
//! whatever guests do). `CoreWindow` does a deed exactly where it is allowed, and changes nothing else.
//!
//! Ranges and trees are those of a DAX inode in Linux `fs/fuse/dax.c`.
#![tactic(auto)]

mod laws;
mod pin_row;
mod side;
mod states;
mod window;

pub use laws::window_core_laws;
pub use states::{Pin, RangeState};
pub use window::CoreWindow;
