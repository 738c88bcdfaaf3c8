ghost use Rattle.std.specs.Prelude.{◌≡◌, ◌≤◌, ◌++◌, length, IfOk, OnOk, OnErr};
ghost use Rattle.plain_file.specs.Limits.{max_part, max_transfer};
ghost use Rattle.fuse_device.specs.Promises.{world};
ghost use Rattle.fuse_device.specs.Steps.{device_step};
ghost use Rattle.window_access.specs.Access.{Loads, LoadsInto, Stores};
ghost use Rattle.dax_device.specs.Answers.{IsAnswer};
ghost use Rattle.dax_device.specs.Devices.{first_world};

use daemon_core::Daemon;
use page_map::PageMap;
use plain_file::{Blob, First, List, Memory, PlainFiles};
use std::alloc::Global;
use std::marker::Model;
use window_access::{WindowRefusal, load_window, load_window_into, store_window};

/// A device on its own: a daemon whose files are kept in memory, and its window. It begins without a
/// file and without a session, 16 files can be made, and nothing is mapped.
#[derive(Debug, Drop)]
pub struct Device {
    daemon: Daemon,
    files: PlainFiles,
    map: PageMap,
}

impl Model for Device {
    ghost use Rattle.fuse_device.specs.Promises.{world};
    ghost use Rattle.fuse_device.specs.State.{World};
    ghost use Rattle.dax_device.specs.Devices.{IsServing};

    ghost Value = { World };

    ghost view = { λ d. world d.daemon d.files d.map };

    ghost invariant = { λ d. IsServing (world d.daemon d.files d.map) };
}

impl Device {
    /// A device with a window of so many pages. `Memory` comes where an allocation was refused.
    pub fn new(alloc: Global, pages: u32) -> Result<Device, Memory>
        ensures { IfOk result (λ d. d ≡ first_world pages) }
    {
        let firsts = List::from_vec(Vec::from_slice(alloc, &[First { size: 0, fill: 0 }; 16])?);
        Ok(Device {
            daemon: Daemon::new(alloc, pages, &List::new(alloc))?,
            files: PlainFiles::new(alloc, 0, &firsts)?,
            map: PageMap::new(alloc, pages)?,
        })
    }

    /// Serves a chain, of at most 1,052,672 readable bytes and with so much room, and appends to `out`
    /// what goes into its writable part: a reply to the request, or no bytes. After `Memory`, which
    /// comes where an allocation was refused, nothing has changed, the bytes of `out` neither.
    pub fn reply_into(
        &mut self,
        alloc: Global,
        readable: &[u8],
        room: u32,
        out: &mut Vec<u8>,
    ) -> Result<(), Memory>
        requires { length readable.now ≤ max_part }
        ensures reply { OnOk result (out.new.items ≡ out.old.items ++ (device_step self.old readable.now room).1) }
        ensures step { OnOk result (self.new ≡ (device_step self.old readable.now room).0) }
        ensures answer { IsAnswer readable.now (device_step self.old readable.now room).1 }
        ensures fits { length (device_step self.old readable.now room).1 ≤ room }
        ensures memory { OnErr result (self.new ≡ self.old) }
        ensures same { OnErr result (out.new.items ≡ out.old.items) }
    {
        self.daemon
            .serve_chain_into(alloc, readable, room, &mut self.files, &mut self.map, out)
    }

    /// Serves a chain as [`reply_into`](Device::reply_into) does, and gives the bytes in a buffer of
    /// their own. After `Memory`, which comes where an allocation was refused, nothing has changed.
    pub fn reply(&mut self, alloc: Global, readable: &[u8], room: u32) -> Result<Blob, Memory>
        requires { length readable.now ≤ max_part }
        ensures reply { IfOk result (λ b. b ≡ (device_step self.old readable.now room).1) }
        ensures step { OnOk result (self.new ≡ (device_step self.old readable.now room).0) }
        ensures answer { IfOk result (IsAnswer readable.now) }
        ensures fits { IfOk result (λ b. length b ≤ room) }
        ensures memory { OnErr result (self.new ≡ self.old) }
    {
        let mut reply = Vec::new(alloc);
        self.reply_into(alloc, readable, room, &mut reply)?;
        Ok(Blob::from_vec(reply))
    }

    /// Loads at most 1,048,576 bytes from the window, as `load_window` does.
    pub fn load(&mut self, alloc: Global, moffset: u64, len: u32) -> Result<Blob, WindowRefusal>
        requires { len ≤ max_transfer }
        ensures loads { Loads self.old.files self.old.map moffset len result }
        ensures same { self.new ≡ self.old }
    {
        load_window(alloc, &mut self.files, &self.map, moffset, len)
    }

    /// Loads at most 1,048,576 bytes from the window, and adds them at the end of `out`, as
    /// `load_window_into` does. After an error `out` has its old bytes.
    pub fn load_into(
        &mut self,
        moffset: u64,
        len: u32,
        out: &mut Vec<u8>,
    ) -> Result<(), WindowRefusal>
        requires { len ≤ max_transfer }
        ensures loads { LoadsInto self.old.files self.old.map moffset len out.old.items result out.new.items }
        ensures same { self.new ≡ self.old }
    {
        load_window_into(&mut self.files, &self.map, moffset, len, out)
    }

    /// Stores at most 1,048,576 bytes to the window, as `store_window` does.
    pub fn store(&mut self, alloc: Global, moffset: u64, bytes: &[u8]) -> Result<(), WindowRefusal>
        requires { length bytes.now ≤ max_transfer }
        ensures stores { Stores self.old.files self.old.map moffset bytes.now result self.new.files }
        ensures same { self.new ≡ world self.old.state self.new.files self.old.map }
    {
        store_window(alloc, &mut self.files, &self.map, moffset, bytes)
    }
}
