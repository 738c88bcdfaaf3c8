//! A device, and a table tried on it.
ghost use Rattle.std.specs.Prelude.{◌≤◌, length, IfOk};
ghost use Rattle.std.specs.List.{IsDistinct};
ghost use Rattle.std.specs.Str.{bytes_eq};
ghost use Rattle.fuse_device.specs.Promises.{IsServable, world};

use crate::tests::cases::{Case, cut, number};
use crate::{Daemon, plan_chain};
use fuse_codec::{Gather, MAX_PART};
use page_map::{MapBoard, Mode, Page, PageMap};
use plain_file::{Blob, First, List, Memory, Name, PlainFiles};
use std::alloc::Global;

/// How the lines of a table are tried.
#[derive(Clone, Copy, Debug)]
pub enum Way {
    /// A chain is served.
    Serve,
    /// A chain is gathered from pieces of one byte, and served.
    Pieces,
    /// A chain is served while the daemon stays.
    Stay,
    /// A chain is served 1,022 times; how many are answered no error stands in place of the error.
    Fill,
    /// The file whose turn a chain needs, counted from 1, or 0, stands in place of the error.
    Turn,
    /// A byte of the window is mapped: `what; where; node; where in the file; mode`, or `what; where`.
    Page,
}

/// The first line of a script's tables that is answered otherwise. The script has a device of its own.
pub fn odd_in(
    alloc: Global,
    script: &[(Way, &'static str)],
) -> Result<Option<&'static str>, Memory> {
    let (mut daemon, mut files, mut map) = device(alloc)?;
    for (way, table) in script {
        let odd = odd_line(alloc, &mut daemon, &mut files, &mut map, *way, table)?;
        if odd.is_some() {
            return Ok(odd);
        }
    }
    Ok(None)
}

// Tries a table's lines one after another, and gives the first that is answered otherwise.
fn odd_line(
    alloc: Global,
    daemon: &mut Daemon,
    files: &mut PlainFiles,
    map: &mut PageMap,
    way: Way,
    table: &'static str,
) -> Result<Option<&'static str>, Memory>
    requires { IsServable (world daemon.old files.old map.old) }
    ensures { IsServable (world daemon.new files.new map.new) }
{
    for line in table.lines() {
        if !line.is_empty() && !is_so(alloc, daemon, files, map, way, line)? {
            return Ok(Some(line));
        }
    }
    Ok(None)
}

fn is_so(
    alloc: Global,
    daemon: &mut Daemon,
    files: &mut PlainFiles,
    map: &mut PageMap,
    way: Way,
    line: &str,
) -> Result<bool, Memory>
    requires { IsServable (world daemon.old files.old map.old) }
    ensures { IsServable (world daemon.new files.new map.new) }
{
    let case = Case::of(alloc, line)?;
    match way {
        Way::Page => Ok(is_mapped(map, line)),
        Way::Turn => has_turn(alloc, daemon, &case),
        Way::Fill => Ok(count_done(alloc, daemon, files, map, &case)? == case.number),
        Way::Pieces => {
            let gather = in_pieces(alloc, &case.readable)?;
            let reply = serve(alloc, daemon, files, map, gather.bytes(), case.room)?;
            Ok(reply.as_slice() == case.due.as_slice())
        }
        Way::Serve => {
            let reply = serve(alloc, daemon, files, map, &case.readable, case.room)?;
            Ok(reply.as_slice() == case.due.as_slice())
        }
        Way::Stay => {
            let reply = stay(alloc, daemon, files, map, &case)?;
            Ok(reply.as_slice() == case.due.as_slice())
        }
    }
}

// One file's name: "a".
#[tactic(auto, using(fuse_device::proofs::Servable::one_distinct, fuse_device::proofs::Servable::none_distinct))]
fn one_name(alloc: Global) -> Result<List<Name>, Memory>
    ensures few { IfOk result (λ names. length names ≤ 16) }
    ensures different { IfOk result (λ names. IsDistinct bytes_eq names) }
{
    let mut names = List::new(alloc);
    if let Some(name) = Name::copy_of(alloc, b"a")? {
        names.push(name)?;
    }
    Ok(names)
}

// A device with file "a" and a window of 2,048 pages.
#[tactic(auto, using(fuse_device::proofs::Servable::servable_at_start))]
fn device(alloc: Global) -> Result<(Daemon, PlainFiles, PageMap), Memory>
    ensures { IfOk result (λ r. IsServable (world r.0 r.1 r.2)) }
{
    let firsts = List::from_vec(Vec::from_slice(alloc, &[First { size: 0, fill: 0 }; 16])?);
    let names = one_name(alloc)?;
    Ok((
        Daemon::new(alloc, 2048, &names)?,
        PlainFiles::new(alloc, 0, &firsts)?,
        PageMap::new(alloc, 2048)?,
    ))
}

// More bytes than a chain has are refused as want of memory, here and below.
fn serve(
    alloc: Global,
    daemon: &mut Daemon,
    files: &mut PlainFiles,
    map: &mut PageMap,
    readable: &[u8],
    room: u32,
) -> Result<Blob, Memory>
    requires { IsServable (world daemon.old files.old map.old) }
    ensures { IsServable (world daemon.new files.new map.new) }
{
    if readable.len() > MAX_PART as usize {
        return Err(Memory);
    }
    daemon.serve_chain(alloc, readable, room, files, map)
}

fn stay(
    alloc: Global,
    daemon: &Daemon,
    files: &mut PlainFiles,
    map: &mut PageMap,
    case: &Case,
) -> Result<Blob, Memory>
    requires { IsServable (world daemon.now files.old map.old) }
    ensures { IsServable (world daemon.now files.new map.new) }
{
    if case.readable.len() > MAX_PART as usize {
        return Err(Memory);
    }
    daemon.serve_chain_data(alloc, &case.readable, case.room, files, map)
}

fn in_pieces(alloc: Global, bytes: &[u8]) -> Result<Gather, Memory> {
    let mut gather = Gather::new(alloc);
    for byte in bytes {
        if gather.bytes().len() < MAX_PART as usize {
            gather.push(&[*byte])?;
        }
    }
    Ok(gather)
}

fn count_done(
    alloc: Global,
    daemon: &mut Daemon,
    files: &mut PlainFiles,
    map: &mut PageMap,
    case: &Case,
) -> Result<u64, Memory>
    requires { IsServable (world daemon.old files.old map.old) }
    ensures { IsServable (world daemon.new files.new map.new) }
{
    let mut count = 0u64;
    for turn in 0..1022 {
        let reply = serve(alloc, daemon, files, map, &case.readable, case.room)?;
        if reply.as_slice().get(4) == Some(&0) {
            count = count.saturating_add(1);
        }
    }
    Ok(count)
}

// Whether the bytes tell this turn, and their plan too.
fn has_turn(alloc: Global, daemon: &Daemon, case: &Case) -> Result<bool, Memory> {
    if case.readable.len() > MAX_PART as usize {
        return Err(Memory);
    }
    let plan = plan_chain(alloc, &case.readable, 16)?;
    let due = u32::try_from(case.number).unwrap_or(0).checked_sub(1);
    Ok(daemon.named_file(&case.readable) == due && daemon.plan_file(&plan) == due)
}

fn is_mapped(map: &PageMap, line: &str) -> bool {
    let (_, rest) = cut(line);
    let (moffset, rest) = cut(rest);
    let (node, rest) = cut(rest);
    let (foffset, mode) = cut(rest);
    let page = Page {
        node: number(node),
        foffset: number(foffset),
        mode: if mode.trim() == "R" { Mode::R } else { Mode::W },
    };
    let due = if page.node == 0 { None } else { Some(page) };
    map.find(number(moffset)) == due
}
