ghost use Rattle.std.specs.Prelude.{◌≡◌, ◌≤◌, ◌+◌, ◌*◌, ◌<◌, true, false, ℕ, length, map, Some, IfOk, OnOk};
ghost use Rattle.std.specs.List.{AllByRecursion, IsDistinct};
ghost use Rattle.std.specs.Str.{bytes_eq};
ghost use Rattle.plain_file.specs.File.{max_file};
ghost use Rattle.plain_file.specs.Limits.{max_files};
ghost use Rattle.plain_file.specs.Plain.{new_board};
ghost use Rattle.page_map.specs.Plain.{range_pages};
ghost use Rattle.fuse_device.specs.State.{new_state, looked_up, with_open};
ghost use Rattle.guest_wire.specs.Wires.{boards};
ghost use Rattle.daxrun.specs.Carried.{names_of, AreFiles, AreRanges};
ghost use Rattle.daxrun.specs.Requests.{IsLive};
ghost use Rattle.daxrun.specs.Session.{IsSession, IsThere, IsOpened, IsOpenAt, AreSmall, empty_firsts, firsts_of, whole_wire, opening_boards};

use crate::requests::{begin, look_up, open_file};
use daemon_core::Daemon;
use dax_host::SoloWire;
use dax_script::{FileLine, Script};
use guest_wire::{Driver, FileRef, Wire};
use page_map::{MapBoard, PAGES_OF_RANGE, PageMap};
use plain_file::{First, List, MAX_FILES, Memory, Name, PlainFiles};
use std::alloc::Global;
use std::sync::Wait;

/// The daemon of a script's files and of a window of its ranges, on which nothing was done.
pub fn daemon_of(alloc: Global, script: &Script) -> Result<Daemon, Memory>
    requires files { AreFiles script.now.files }
    requires ranges { AreRanges script.now.ranges }
    ensures { IfOk result (λ d. d ≡ new_state (range_pages * script.now.ranges) (names_of script.now.files)) }
{
    let names = names_of(alloc, script.files.as_slice())?;
    Daemon::new(alloc, PAGES_OF_RANGE * script.ranges, &names)
}

fn names_of(alloc: Global, files: &[FileLine]) -> Result<List<Name>, Memory>
    ensures { IfOk result (λ names. names ≡ names_of files.now) }
{
    let mut names = List::new(alloc);
    for file in files {
        names.push(file.name.clone()?)?;
    }
    Ok(names)
}

/// A board over which a session is opened and closed: as many empty files as a daemon can have. Of what the
/// client is told of a file then it keeps the node and the handle alone.
pub fn opening_board(alloc: Global) -> Result<PlainFiles, Memory>
    ensures { IfOk result (λ b. b ≡ new_board 0 empty_firsts) }
{
    let firsts = vec![in alloc; First { size: 0, fill: 0 }; MAX_FILES as usize]?;
    PlainFiles::new(alloc, 0, &List::from_vec(firsts))
}

/// What a script's files begin with.
pub fn firsts_of(alloc: Global, files: &[FileLine]) -> Result<List<First>, Memory>
    ensures { IfOk result (λ firsts. firsts ≡ firsts_of files.now) }
{
    let mut firsts = Vec::new(alloc);
    for file in files {
        firsts.push(file.first)?;
    }
    Ok(List::from_vec(firsts))
}

/// Opens a session of a script's files over a virtqueue, and gives the daemon back with a reference to each file:
/// an INIT, and a LOOKUP and an OPEN for each.
pub fn open_session<R: Wait>(
    rt: &R,
    alloc: Global,
    named: &[FileLine],
    ranges: u32,
    daemon: Daemon,
) -> Result<(Daemon, Vec<FileRef>), Memory>
    requires files { AreFiles named.now }
    requires ranges { AreRanges ranges }
    requires new { daemon ≡ new_state (range_pages * ranges) (names_of named.now) }
    ensures count { IfOk result (λ o. length o.1.items ≡ length named.now) }
    ensures opened { IfOk result (λ o. IsOpenAt named.now ranges o.1.items o.0) }
{
    let mut files = opening_board(alloc)?;
    let mut map = PageMap::new(alloc, PAGES_OF_RANGE * ranges)?;
    let client = Driver::new(SoloWire::new(alloc, daemon)?);
    let (client, opened) = start_session(rt, alloc, client, named, &mut files, &mut map)?;
    let Driver { wire, unique: _ } = client;
    Ok((wire.into_daemon(), opened))
}

/// Closes a session that was so opened, over a virtqueue: a RELEASE for each file, and a DESTROY.
pub fn close_session<R: Wait>(
    rt: &R,
    alloc: Global,
    opened: &[FileRef],
    ranges: u32,
    daemon: Daemon,
) -> Result<(), Memory>
    requires ranges { AreRanges ranges }
    requires live { IsLive (whole_wire daemon) (opening_boards ranges) }
{
    let mut files = opening_board(alloc)?;
    let mut map = PageMap::new(alloc, PAGES_OF_RANGE * ranges)?;
    let client = Driver::new(SoloWire::new(alloc, daemon)?);
    let _client = end_session(rt, alloc, client, opened, &mut files, &mut map);
    Ok(())
}

/// Begins a session and opens the files in their order: an INIT, then a LOOKUP and an OPEN for each. Where the
/// window has pages, the INIT asks for direct access. The answer has a handle for each file.
pub fn start_session<R: Wait, W>(
    rt: &R,
    alloc: Global,
    client: Driver<W>,
    named: &[FileLine],
    files: &mut PlainFiles,
    map: &mut PageMap,
) -> Result<(Driver<W>, Vec<FileRef>), Memory>
where
    W: Wire<PlainFiles, PageMap> + Drop,
    requires live { IsLive (W.wire client.wire) (boards files.old map.old) }
    requires new { (W.wire client.wire).state ≡ new_state (length map.old.table) (names_of named.now) }
    requires few { length named.now ≤ max_files }
    requires different { IsDistinct bytes_eq (names_of named.now) }
    requires small { AreSmall files.old }
    ensures count { IfOk result (λ o. length o.1.items ≡ length named.now) }
    ensures opened { IfOk result (λ o. IsOpened (names_of named.now) o.1.items (W.wire o.0.wire) (boards files.new map.new)) }
    ensures files { OnOk result (files.new ≡ files.old) }
    ensures map { OnOk result (map.new ≡ map.old) }
{
    let mut client = client;
    let ask_map = map.pages() > 0;
    begin(rt, alloc, &mut client, ask_map, files, map)?;
    let opened = open_files(rt, alloc, &mut client, named, files, map)?;
    Ok((client, opened))
}

fn open_files<R: Wait, W>(
    rt: &R,
    alloc: Global,
    client: &mut Driver<W>,
    named: &[FileLine],
    files: &mut PlainFiles,
    map: &mut PageMap,
) -> Result<Vec<FileRef>, Memory>
where
    W: Wire<PlainFiles, PageMap>,
    requires live { IsLive (W.wire client.old.wire) (boards files.old map.old) }
    requires begun { IsSession (names_of named.now) 0 (W.wire client.old.wire).state }
    requires few { length named.now ≤ max_files }
    requires different { IsDistinct bytes_eq (names_of named.now) }
    requires small { AreSmall files.old }
    ensures count { IfOk result (λ ats. length ats.items ≡ length named.now) }
    ensures opened { IfOk result (λ ats. IsOpened (names_of named.now) ats.items (W.wire client.new.wire) (boards files.new map.new)) }
    ensures files { OnOk result (files.new ≡ files.old) }
    ensures map { OnOk result (map.new ≡ map.old) }
{
    let mut opened = Vec::new(alloc);
    for file in named {
        let at = open_named(rt, alloc, client, &file.name, files, map)?;
        opened.push(at)?;
    }
    Ok(opened)
}

// Finds the file of a name, and opens it: LOOKUP and OPEN.
fn open_named<R: Wait, W>(
    rt: &R,
    alloc: Global,
    client: &mut Driver<W>,
    name: &Name,
    files: &mut PlainFiles,
    map: &mut PageMap,
) -> Result<FileRef, Memory>
where
    W: Wire<PlainFiles, PageMap>,
    requires live { IsLive (W.wire client.old.wire) (boards files.old map.old) }
    requires there { (file : ℕ) × IsThere name.now file (W.wire client.old.wire).state }
    requires small { AreSmall files.old }
    ensures live { OnOk result (IsLive (W.wire client.new.wire) (boards files.new map.new)) }
    ensures at { IfOk result (λ at. (file : ℕ) → IsThere name.now file (W.wire client.old.wire).state
        → at ≡ record { node = file + 2; fh = (W.wire client.old.wire).state.next_fh }) }
    ensures state { OnOk result ((file : ℕ) → IsThere name.now file (W.wire client.old.wire).state
        → (W.wire client.new.wire).state ≡ with_open (looked_up (W.wire client.old.wire).state file) (file + 2)) }
    ensures files { OnOk result (files.new ≡ files.old) }
    ensures map { OnOk result (map.new ≡ map.old) }
{
    let node = look_up(rt, alloc, client, name, files, map)?;
    let fh = open_file(rt, alloc, client, node, files, map)?;
    Ok(FileRef { node, fh })
}

/// Ends a session: a RELEASE for each open file, then a DESTROY. Whatever these are answered, the client is done
/// with them.
pub fn end_session<R: Wait, W>(
    rt: &R,
    alloc: Global,
    client: Driver<W>,
    opened: &[FileRef],
    files: &mut PlainFiles,
    map: &mut PageMap,
) -> Driver<W>
where
    W: Wire<PlainFiles, PageMap>,
    requires { IsLive (W.wire client.wire) (boards files.old map.old) }
{
    let mut client = client;
    for at in opened {
        close_file(rt, alloc, &mut client, *at, files, map);
    }
    let _answer = client.destroy(rt, alloc, files, map);
    client
}

// Gives back a handle: RELEASE.
fn close_file<R: Wait, W>(
    rt: &R,
    alloc: Global,
    client: &mut Driver<W>,
    at: FileRef,
    files: &mut PlainFiles,
    map: &mut PageMap,
)
where
    W: Wire<PlainFiles, PageMap>,
    requires { IsLive (W.wire client.old.wire) (boards files.old map.old) }
    ensures { IsLive (W.wire client.new.wire) (boards files.new map.new) }
{
    let _answer = client.release(rt, alloc, at, files, map);
}
