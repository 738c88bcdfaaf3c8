ghost use Rattle.std.specs.Prelude.{◌≡◌, ◌≤◌, ◌+◌, ◌^◌, ◌<◌};
ghost use Rattle.vring.specs.Bytes.{max_memory};
ghost use Rattle.vring.specs.Layout.{is_allowed, are_apart};

/// Where the three areas of a ring lie in a memory of `memory` bytes.
#[derive(Clone, Copy, Debug, PartialEq, Eq)]
pub struct Layout {
    /// The queue size: how many descriptors there are, and entries in either ring.
    pub size: u16,
    /// The address of the descriptor area (VIRTIO 1.2 section 2.7.5).
    pub descriptors: usize,
    /// The address of the driver area, which has the available ring (section 2.7.6).
    pub available: usize,
    /// The address of the device area, which has the used ring (section 2.7.8).
    pub used: usize,
    /// The memory's length in bytes.
    pub memory: usize,
}

impl Layout {
    /// Whether a ring may be laid out so.
    #[tactic(auto, unfolding(crate::specs::Layout::is_allowed))]
    pub(crate) fn is_allowed(&self) -> bool
        requires memory { self.now.memory ≤ max_memory }
        requires descriptors { self.now.descriptors ≤ max_memory }
        requires available { self.now.available ≤ max_memory }
        requires used { self.now.used ≤ max_memory }
        ensures { result ≡ is_allowed self.now }
    {
        let size = self.size as usize;
        let (descriptors, available, used) = (16 * size, 6 + 2 * size, 6 + 8 * size);
        self.size.is_power_of_two()
            && self.size <= 1024
            && self.descriptors + descriptors <= self.memory
            && self.available + available <= self.memory
            && self.used + used <= self.memory
            && are_apart(self.descriptors, descriptors, self.available, available)
            && are_apart(self.descriptors, descriptors, self.used, used)
            && are_apart(self.available, available, self.used, used)
            && self.descriptors % 16 == 0
            && self.available % 2 == 0
            && self.used % 4 == 0
    }
}

// Whether two intervals have no byte in common.
fn are_apart(a: usize, a_len: usize, b: usize, b_len: usize) -> bool
    requires a { a + a_len < 2 ^ 64 }
    requires b { b + b_len < 2 ^ 64 }
    ensures { result ≡ are_apart a a_len b b_len }
{
    a + a_len <= b || b + b_len <= a
}
