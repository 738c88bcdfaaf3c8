ghost use Rattle.std.specs.Prelude.{◌≡◌, ◌≤◌, ◌<◌, ◌+◌, ◌*◌, ◌^◌, ℕ, length, sum};
ghost use Rattle.chain_stream.specs.Frames.{reason_number, lengths_at, chain_with, chain_lead, load_lead, store_lead, lead, lead_len, IsBounded};

use fuse_wire::{u16_at, u32_at, u64_at};
use plain_file::{MAX_PART, MAX_TRANSFER};

/// Why a stream is malformed.
#[derive(Clone, Copy, Debug, PartialEq, Eq)]
pub enum Reason {
    /// The header is cut, isn't `DAXWIRE1`, or says more than 131,072 pages.
    Header,
    /// A frame is of no known kind.
    Kind,
    /// A chain has more than 1,024 readable or writable parts or one of both sums is above 1,052,672
    /// bytes, or a load or store is of more than 1,048,576 bytes.
    Bound,
    /// The input ends within a frame.
    Cut,
}

impl Reason {
    /// The reason's number, from 1 to 4 in the order in which the variants stand.
    #[tactic(auto, unfolding(crate::specs::Frames::reason_number))]
    pub fn number(self) -> u8
        ensures { result ≡ reason_number self }
    {
        match self {
            Reason::Header => 1,
            Reason::Kind => 2,
            Reason::Bound => 3,
            Reason::Cut => 4,
        }
    }
}

/// What bytes begin with.
#[derive(Clone, Copy, Debug, PartialEq, Eq)]
pub enum Lead {
    /// A whole chain of descriptors.
    Chain {
        /// How many parts it has, readable and writable ones.
        parts: u32,
        /// The bytes of its readable parts, which stand in the frame behind the lengths.
        readable: u64,
        /// The bytes of its writable parts, of which the frame has none.
        room: u64,
    },
    /// A whole load.
    Load {
        /// Where in the window to load from, in bytes.
        moffset: u64,
        /// How many bytes to load.
        len: u32,
    },
    /// A whole store.
    Store {
        /// Where in the window to store to, in bytes.
        moffset: u64,
        /// How many bytes to store: the last ones of the frame.
        len: u32,
    },
    /// No frame, whatever follows.
    Bad(Reason),
    /// A part of a frame.
    Cut,
    /// There are no bytes.
    Nothing,
}

/// How a stream ends.
#[derive(Clone, Copy, Debug, PartialEq, Eq)]
pub enum End {
    /// After a whole frame, or after the header.
    Ended,
    /// With a malformed frame or header.
    Malformed {
        /// Why.
        reason: Reason,
        /// The offset of its first byte in the input.
        at: u64,
    },
    /// Above 268,435,456 bytes, which have nothing malformed.
    TooLong,
}

#[tactic(auto, using(crate::proofs::Sums::sum_more))]
fn sum_at(bytes: &[u8], first: usize, n: usize) -> u64
    requires within { 5 + 4 * (first + n) ≤ length bytes.now }
    requires few { n ≤ 1024 }
    ensures value { result ≡ sum (lengths_at bytes.now first n) }
{
    let mut total = 0;
    for k in 0..n {
        total += u64::from(u32_at(bytes, 5 + 4 * (first + k)));
    }
    total
}

#[tactic(auto, unfolding(crate::specs::Frames::chain_with, crate::specs::Frames::lead_len, crate::specs::Frames::IsBounded))]
fn chain_with(bytes: &[u8], nr: u16, nw: u16) -> Lead
    requires { 5 ≤ length bytes.now }
    ensures value { result ≡ chain_with bytes.now nr nw }
    ensures whole { lead_len result ≤ length bytes.now }
    ensures bounded { IsBounded result }
{
    if nr > 1024 || nw > 1024 {
        return Lead::Bad(Reason::Bound);
    }
    let from = 5 + 4 * (nr as usize + nw as usize);
    if bytes.len() < from {
        return Lead::Cut;
    }
    let readable = sum_at(bytes, 0, nr as usize);
    let room = sum_at(bytes, nr as usize, nw as usize);
    if readable > MAX_PART as u64 || room > MAX_PART as u64 {
        return Lead::Bad(Reason::Bound);
    }
    if ((bytes.len() - from) as u64) < readable {
        return Lead::Cut;
    }
    Lead::Chain {
        parts: nr as u32 + nw as u32,
        readable,
        room,
    }
}

#[tactic(auto, unfolding(crate::specs::Frames::chain_lead, crate::specs::Frames::lead_len, crate::specs::Frames::IsBounded))]
fn chain_lead(bytes: &[u8]) -> Lead
    ensures value { result ≡ chain_lead bytes.now }
    ensures whole { lead_len result ≤ length bytes.now }
    ensures bounded { IsBounded result }
{
    if bytes.len() < 5 {
        return Lead::Cut;
    }
    chain_with(bytes, u16_at(bytes, 1), u16_at(bytes, 3))
}

#[tactic(auto, unfolding(crate::specs::Frames::load_lead, crate::specs::Frames::lead_len, crate::specs::Frames::IsBounded))]
fn load_lead(bytes: &[u8]) -> Lead
    ensures value { result ≡ load_lead bytes.now }
    ensures whole { lead_len result ≤ length bytes.now }
    ensures bounded { IsBounded result }
{
    if bytes.len() < 13 {
        return Lead::Cut;
    }
    let len = u32_at(bytes, 9);
    if len > MAX_TRANSFER {
        return Lead::Bad(Reason::Bound);
    }
    Lead::Load {
        moffset: u64_at(bytes, 1),
        len,
    }
}

#[tactic(auto, unfolding(crate::specs::Frames::store_lead, crate::specs::Frames::lead_len, crate::specs::Frames::IsBounded))]
fn store_lead(bytes: &[u8]) -> Lead
    ensures value { result ≡ store_lead bytes.now }
    ensures whole { lead_len result ≤ length bytes.now }
    ensures bounded { IsBounded result }
{
    if bytes.len() < 13 {
        return Lead::Cut;
    }
    let len = u32_at(bytes, 9);
    if len > MAX_TRANSFER {
        return Lead::Bad(Reason::Bound);
    }
    if bytes.len() - 13 < len as usize {
        return Lead::Cut;
    }
    Lead::Store {
        moffset: u64_at(bytes, 1),
        len,
    }
}

/// What the bytes begin with.
#[tactic(auto, unfolding(crate::specs::Frames::lead, crate::specs::Frames::lead_len, crate::specs::Frames::IsBounded))]
pub fn begins(bytes: &[u8]) -> Lead
    ensures value { result ≡ lead bytes.now }
    ensures whole { lead_len result ≤ length bytes.now }
    ensures bounded { IsBounded result }
{
    match bytes {
        [] => Lead::Nothing,
        [1, ..] => chain_lead(bytes),
        [2, ..] => load_lead(bytes),
        [3, ..] => store_lead(bytes),
        _ => Lead::Bad(Reason::Kind),
    }
}

impl Lead {
    /// How many bytes the frame has: 0 where there is no whole frame.
    #[tactic(auto, unfolding(crate::specs::Frames::lead_len, crate::specs::Frames::IsBounded))]
    pub fn len(&self) -> usize
        requires { IsBounded self.now }
        ensures { result ≡ lead_len self.now }
    {
        match self {
            Lead::Chain {
                parts,
                readable,
                ..
            } => 5 + 4 * *parts as usize + *readable as usize,
            Lead::Load { .. } => 13,
            Lead::Store { len, .. } => 13 + *len as usize,
            Lead::Bad(_) | Lead::Cut | Lead::Nothing => 0,
        }
    }
}
