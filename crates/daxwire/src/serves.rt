ghost use Rattle.std.specs.Prelude.{◌≡◌, ◌≤◌, ◌<◌, ◌+◌, ◌-◌, ◌^◌, ◌++◌, length, take, drop, OnOk};
ghost use Rattle.std.specs.Int.{w32, to_le_bytes};
ghost use Rattle.plain_file.specs.Limits.{max_part, max_transfer};
ghost use Rattle.fuse_device.specs.Steps.{device_step};
ghost use Rattle.chain_stream.specs.Frames.{lead_len, IsBounded};
ghost use Rattle.daxwire.specs.Serve.{Makes, chain_output, lead_step, load_step, refusal_number, store_step};

use chain_stream::{End, Lead, Responder};
use dax_device::Device;
use plain_file::Memory;
use std::alloc::Global;
use window_access::WindowRefusal;

/// Answers each frame as a device does: a chain by its daemon, a load or a store by its window.
#[derive(Debug, Drop)]
pub struct Serve {
    device: Device,
}

impl Serve {
    // Adds the answer to a chain. Its bytes come to their place at once, and their count before them last.
    #[tactic(auto, using(crate::proofs::ServedChains::chain_in_place))]
    fn put_chain(
        &mut self,
        alloc: Global,
        readable: &[u8],
        room: u32,
        out: &mut Vec<u8>,
    ) -> Result<(), Memory>
        requires { length readable.now ≤ max_part }
        ensures { OnOk result (Makes (chain_output (device_step self.old.device readable.now room)) out.old.items self.new.device out.new.items) }
    {
        let at = out.len();
        out.extend_from_slice(&[1, 0, 0, 0, 0])?;
        self.device.reply_into(alloc, readable, room, out)?;
        put_len(out, at + 1);
        Ok(())
    }

    // Adds the answer to a load. Its bytes come to their place at once.
    #[tactic(auto, unfolding(crate::specs::Serve::load_step, crate::specs::Serve::refusal_number))]
    fn put_load(&mut self, moffset: u64, len: u32, out: &mut Vec<u8>) -> Result<(), Memory>
        requires { len ≤ max_transfer }
        ensures { OnOk result (Makes (load_step self.old.device moffset len) out.old.items self.new.device out.new.items) }
    {
        let at = out.len();
        out.extend_from_slice(&[2, 0])?;
        out.extend_from_slice(&len.to_le_bytes())?;
        match self.device.load_into(moffset, len, out) {
            Ok(()) => Ok(()),
            Err(WindowRefusal::Memory) => Err(Memory),
            Err(refusal) => {
                out.truncate(at);
                out.extend_from_slice(&[2, number_of(refusal), 0, 0, 0, 0])?;
                Ok(())
            }
        }
    }

    // Adds the answer to a store.
    #[tactic(auto, unfolding(crate::specs::Serve::store_step, crate::specs::Serve::refusal_number))]
    fn put_store(
        &mut self,
        alloc: Global,
        moffset: u64,
        bytes: &[u8],
        out: &mut Vec<u8>,
    ) -> Result<(), Memory>
        requires { length bytes.now ≤ max_transfer }
        ensures { OnOk result (Makes (store_step self.old.device moffset bytes.now) out.old.items self.new.device out.new.items) }
    {
        match self.device.store(alloc, moffset, bytes) {
            Ok(()) => {
                out.extend_from_slice(&[3, 0])?;
                Ok(())
            }
            Err(WindowRefusal::Memory) => Err(Memory),
            Err(refusal) => {
                out.extend_from_slice(&[3, number_of(refusal)])?;
                Ok(())
            }
        }
    }

    // Adds the answer to a whole frame.
    #[tactic(auto, unfolding(crate::specs::Serve::lead_step, chain_stream::specs::Frames::lead_len, chain_stream::specs::Frames::IsBounded))]
    fn put_frame(
        &mut self,
        alloc: Global,
        lead: Lead,
        bytes: &[u8],
        out: &mut Vec<u8>,
    ) -> Result<(), Memory>
        requires bounded { IsBounded lead }
        requires whole { lead_len lead ≡ length bytes.now }
        ensures { OnOk result (Makes (lead_step self.old.device lead bytes.now) out.old.items self.new.device out.new.items) }
    {
        match lead {
            Lead::Chain { parts, room, .. } => {
                let readable = bytes.split_at(5 + 4 * parts as usize).1;
                self.put_chain(alloc, readable, room as u32, out)
            }
            Lead::Load { moffset, len } => self.put_load(moffset, len, out),
            Lead::Store { moffset, .. } => self.put_store(
                alloc,
                moffset,
                bytes.split_at(13).1,
                out,
            ),
            Lead::Bad(_) | Lead::Cut | Lead::Nothing => Ok(()),
        }
    }
}

// Writes into four bytes how many bytes stand behind them.
fn put_len(out: &mut Vec<u8>, at: usize)
    requires within { at + 4 ≤ length out.old.items }
    requires small { length out.old.items < at + 4 + 2 ^ 32 }
    ensures { out.new.items ≡ take at out.old.items ++ to_le_bytes w32 (length out.old.items - (at + 4)) ++ drop (at + 4) out.old.items }
{
    let len = (out.len() - (at + 4)) as u32;
    out[at..at + 4].copy_from_slice(&len.to_le_bytes());
}

// The number of a refusal.
#[tactic(auto, unfolding(crate::specs::Serve::refusal_number))]
fn number_of(refusal: WindowRefusal) -> u8
    ensures { result ≡ refusal_number refusal }
{
    match refusal {
        WindowRefusal::Unmapped { .. } => 1,
        WindowRefusal::ReadOnly { .. } => 2,
        WindowRefusal::PastEnd { .. } => 3,
        WindowRefusal::Memory => 0,
    }
}

impl Responder for Serve {
    ghost use Rattle.dax_device.specs.Devices.{first_world};
    ghost use Rattle.daxwire.specs.Serve.{outputs, fault_output};

    ghost says = { λ s. outputs s.device };

    ghost starting = { λ pages. outputs (first_world pages) };

    ghost ending = { fault_output };

    fn start(alloc: Global, pages: u32) -> Result<Serve, Memory> {
        Ok(Serve {
            device: Device::new(alloc, pages)?,
        })
    }

    #[tactic(auto, unfolding(crate::specs::Serve::outputs))]
    fn quiet_at_start() {}

    #[tactic(auto, unfolding(crate::specs::Serve::outputs))]
    fn quiet(&self) {}

    #[tactic(auto, unfolding(crate::specs::Serve::outputs))]
    fn answer(
        &mut self,
        alloc: Global,
        lead: Lead,
        bytes: &[u8],
        out: &mut Vec<u8>,
    ) -> Result<(), Memory> {
        self.put_frame(alloc, lead, bytes, out)
    }

    #[tactic(auto, unfolding(crate::specs::Serve::fault_output))]
    fn end(end: End, out: &mut Vec<u8>) -> Result<(), Memory> {
        if let End::Malformed { reason, at } = end {
            out.extend_from_slice(&[0xff, reason.number()])?;
            out.extend_from_slice(&at.to_le_bytes())?;
        }
        Ok(())
    }
}
