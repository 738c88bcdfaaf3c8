pub use plain_file::{MAX_PART, MAX_TRANSFER};

/// The most intervals that one REMOVEMAPPING has.
pub const MAX_REMOVED: u32 = 256;
