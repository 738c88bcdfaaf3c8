ghost use Rattle.std.specs.Prelude.{ℕ, ◌≡◌, ◌≤◌, ◌+◌, true, Ok, Some, IfOk, OnOk};
ghost use Rattle.plain_file.specs.File.{max_file};
ghost use Rattle.plain_file.specs.Board.{file_at, size_of};
ghost use Rattle.fuse_device.specs.State.{is_made, named, begun, looked_up, with_open};
ghost use Rattle.fuse_device.specs.Checks.{is_known, may_open};
ghost use Rattle.fuse_device.specs.OpenFiles.{HasOpenFile};
ghost use Rattle.guest_wire.specs.Wires.{boards, world_at};
ghost use Rattle.guest_wire.specs.Requests.{next_number};
ghost use Rattle.daxrun.specs.Requests.{IsLive, IsDoneOrMemory};

use guest_wire::{Driver, Wire, WireRefusal};
use page_map::PageMap;
use plain_file::{Memory, Name, PlainFiles};
use std::alloc::Global;
use std::sync::Wait;

// The requests that open a session, each by one call of the client, over an honest wire. They are asked where they
// succeed, so that want of memory alone is in their way; after it a request may have been carried out.

// Begins a session, and asks for direct access or not: INIT.
pub(crate) fn begin<R: Wait, W>(
    rt: &R,
    alloc: Global,
    client: &mut Driver<W>,
    ask_map: bool,
    files: &mut PlainFiles,
    map: &mut PageMap,
) -> Result<(), Memory>
where
    W: Wire<PlainFiles, PageMap>,
    requires live { IsLive (W.wire client.old.wire) (boards files.old map.old) }
    ensures live { IsLive (W.wire client.new.wire) (boards files.new map.new) }
    ensures left { OnOk result (world_at (W.wire client.new.wire) (boards files.new map.new)
        ≡ record (world_at (W.wire client.old.wire) (boards files.old map.old)) { state = begun (W.wire client.old.wire).state }) }
    ensures number { client.new.unique ≡ next_number client.old.unique }
{
    succeed(client.init(rt, alloc, ask_map, files, map))?;
    Ok(())
}

// Looks up the file of a name in the directory, and answers its node: LOOKUP.
pub(crate) fn look_up<R: Wait, W>(
    rt: &R,
    alloc: Global,
    client: &mut Driver<W>,
    name: &Name,
    files: &mut PlainFiles,
    map: &mut PageMap,
) -> Result<u64, Memory>
where
    W: Wire<PlainFiles, PageMap>,
    requires live { IsLive (W.wire client.old.wire) (boards files.old map.old) }
    requires started { (W.wire client.old.wire).state.started ≡ true }
    requires there { (i : ℕ) × (named (W.wire client.old.wire).state name.now ≡ Some i) × (size_of (file_at files.old i) ≤ max_file) }
    ensures live { IsLive (W.wire client.new.wire) (boards files.new map.new) }
    ensures node { IfOk result (λ node. (i : ℕ) → named (W.wire client.old.wire).state name.now ≡ Some i → node ≡ i + 2) }
    ensures left { OnOk result ((i : ℕ) → named (W.wire client.old.wire).state name.now ≡ Some i
        → world_at (W.wire client.new.wire) (boards files.new map.new)
        ≡ record (world_at (W.wire client.old.wire) (boards files.old map.old)) { state = looked_up (W.wire client.old.wire).state i }) }
    ensures number { client.new.unique ≡ next_number client.old.unique }
{
    let entry = succeed(client.lookup(rt, alloc, name, files, map))?;
    Ok(entry.nodeid)
}

// Opens a file, to read and write it, and answers the number of the handle: OPEN.
pub(crate) fn open_file<R: Wait, W>(
    rt: &R,
    alloc: Global,
    client: &mut Driver<W>,
    node: u64,
    files: &mut PlainFiles,
    map: &mut PageMap,
) -> Result<u64, Memory>
where
    W: Wire<PlainFiles, PageMap>,
    requires live { IsLive (W.wire client.old.wire) (boards files.old map.old) }
    requires started { (W.wire client.old.wire).state.started ≡ true }
    requires known { is_known (W.wire client.old.wire).state node ≡ true }
    requires made { is_made (W.wire client.old.wire).state node ≡ true }
    requires may { may_open (W.wire client.old.wire).state ≡ true }
    ensures live { IsLive (W.wire client.new.wire) (boards files.new map.new) }
    ensures handle { IfOk result (λ fh. fh ≡ (W.wire client.old.wire).state.next_fh) }
    ensures opened { IfOk result (HasOpenFile (W.wire client.new.wire).state node) }
    ensures left { OnOk result (world_at (W.wire client.new.wire) (boards files.new map.new)
        ≡ record (world_at (W.wire client.old.wire) (boards files.old map.old)) { state = with_open (W.wire client.old.wire).state node }) }
    ensures number { client.new.unique ≡ next_number client.old.unique }
{
    let fh = succeed(client.open_file(rt, alloc, node, files, map))?;
    Ok(fh)
}

// The answer to a request that succeeds.
fn succeed<T>(answer: Result<T, WireRefusal>) -> Result<T, Memory>
    requires { IsDoneOrMemory answer }
    ensures { IfOk result (λ it. answer ≡ Ok it) }
{
    match answer {
        Ok(it) => Ok(it),
        Err(WireRefusal::Memory) => Err(Memory),
        Err(_) => unreachable!(),
    }
}
