ghost use Rattle.std.specs.Prelude.{◌≡◌, ◌≢◌, ◌<◌, ◌≤◌, ◌-◌, ◌+◌, ◌||◌, length, true, IfOk, IfSome, OnOk, OnErr, map};
ghost use Rattle.std.specs.List.{IsDistinct};
ghost use Rattle.std.specs.Str.{bytes_eq};
ghost use Rattle.fuse_wire.specs.declared.forgets.ForgetOne.{ForgetOne};
ghost use Rattle.fuse_device.specs.State.{new_state, new_file, is_made, made_at, named, is_open, looked_up, unnamed, with_new_file, with_open, without_open, begun, ended};
ghost use Rattle.fuse_device.specs.Checks.{is_known, is_handle, may_open};
ghost use Rattle.fuse_device.specs.Entries.{file_attr, open_out_of};
ghost use Rattle.fuse_device.specs.Requests.{forgotten, all_forgotten};

use fuse_device::{Kind, MadeFile, Opened, attr_with, close_in, has_name, unlook};
use fuse_wire::{AttrRec, ForgetOne, OpenOut};
use plain_file::{List, Memory, Name};
use std::alloc::Global;
use std::marker::Model;

// How many handles are open at most.
const MAX_OPENED: usize = 1024;

/// What the FUSE daemon of a directory of at most 16 files holds between two requests: whether the
/// session is started, the files that were made with their names and their counts of lookups, and
/// the open handles. The files' bytes are on a board of files, and the window of direct access is a
/// board of pages.
///
/// Node 1 is the directory, and file i has node i + 2. A file's number is never used again, nor is
/// the number of a handle.
#[derive(Debug, Drop)]
pub struct Daemon {
    pages: u32,
    started: bool,
    made: Vec<MadeFile>,
    opened: Vec<Opened>,
    next_fh: u64,
}

impl Model for Daemon {
    ghost use Rattle.std.specs.Prelude.{◌≤◌, length};
    ghost use Rattle.fuse_device.specs.State.{State};

    ghost Value = { State };

    ghost view = { λ d. record { pages = d.pages; started = d.started; made = d.made.items; opened = d.opened.items; next_fh = d.next_fh } };

    ghost invariant = { λ d. length d.made.items ≤ 16 };
}

fn named_files(alloc: Global, names: &[Name]) -> Result<Vec<MadeFile>, Memory>
    ensures { IfOk result (λ made. made.items ≡ map new_file names.now) }
{
    let mut made = Vec::with_capacity(alloc, names.len())?;
    for name in names {
        let name = Some(name.clone()?);
        made.push(MadeFile { name, lookups: 0 })?;
    }
    Ok(made)
}

impl Daemon {
    /// A daemon whose session isn't started, with a window of so many pages and files of these names:
    /// file i has the name at place i. There are at most 16, all different. `Memory` comes where an
    /// allocation was refused.
    pub fn new(alloc: Global, pages: u32, names: &List<Name>) -> Result<Daemon, Memory>
        requires few { length names.now ≤ 16 }
        requires different { IsDistinct bytes_eq names.now }
        ensures { IfOk result (λ d. d ≡ new_state pages names.now) }
    {
        let made = named_files(alloc, names.as_slice())?;
        Ok(Daemon {
            pages,
            started: false,
            made,
            opened: Vec::new(alloc),
            next_fh: 1,
        })
    }

    pub(crate) fn pages(&self) -> u32
        ensures { result ≡ self.now.pages }
    {
        self.pages
    }

    pub(crate) fn is_started(&self) -> bool
        ensures { result ≡ self.now.started }
    {
        self.started
    }

    fn is_open(&self, node: u64) -> bool
        ensures { result ≡ is_open self.now node }
    {
        self.opened.iter().any(|o| o.node == node)
    }

    // The directory or a known file.
    #[tactic(auto, unfolding(fuse_device::specs::Checks::is_known, fuse_device::specs::State::is_made))]
    pub(crate) fn is_known(&self, node: u64) -> bool
        ensures { result ≡ is_known self.now node }
    {
        if node == 1 {
            return true;
        }
        if node < 2 || node - 2 >= self.made.len() as u64 {
            return false;
        }
        let file = &self.made[(node - 2) as usize];
        file.name.is_some() || file.lookups > 0 || self.is_open(node)
    }

    // The file of a known node.
    #[tactic(auto, unfolding(fuse_device::specs::Checks::is_known, fuse_device::specs::State::is_made))]
    pub(crate) fn file_of(&self, node: u64) -> u32
        requires known { is_known self.now node ≡ true }
        requires file { node ≢ 1 }
        ensures value { result ≡ node - 2 }
        ensures made { is_made self.now node ≡ true }
        ensures within { node - 2 < length self.now.made }
    {
        let _ = &self.made;
        (node - 2) as u32
    }

    // An open handle of this number and node.
    #[tactic(auto, unfolding(fuse_device::specs::Checks::is_handle))]
    pub(crate) fn is_handle(&self, fh: u64, node: u64) -> bool
        ensures { result ≡ is_handle self.now fh node }
    {
        let kind = if node == 1 { Kind::Dir } else { Kind::File };
        self.opened
            .iter()
            .any(|o| o.fh == fh && o.node == node && o.kind == kind)
    }

    #[tactic(auto, unfolding(fuse_device::specs::Checks::may_open))]
    pub(crate) fn may_open(&self) -> bool
        ensures { result ≡ may_open self.now }
    {
        self.opened.len() < MAX_OPENED && self.next_fh < u64::MAX
    }

    // The number of the file of this name.
    #[tactic(auto, unfolding(fuse_device::specs::State::named))]
    pub(crate) fn named(&self, name: &[u8]) -> Option<usize>
        ensures value { result ≡ named self.now name.now }
        ensures within { IfSome result (λ i. i < length self.now.made) }
    {
        self.made.iter().position(|f| has_name(f, name))
    }

    pub(crate) fn made(&self) -> &[MadeFile]
        ensures value { result.now ≡ self.now.made }
        ensures few { length self.now.made ≤ 16 }
    {
        self.made.as_slice()
    }

    // The number of a made file.
    pub(crate) fn number_of(&self, i: usize) -> u32
        requires { i < length self.now.made }
        ensures { result ≡ i }
    {
        let _ = &self.made;
        i as u32
    }

    // The attributes of a file of this size.
    #[tactic(auto, unfolding(fuse_device::specs::Entries::file_attr, fuse_device::specs::State::is_made))]
    pub(crate) fn file_attr(&self, node: u64, size: u64) -> AttrRec
        requires made { is_made self.now node ≡ true }
        ensures { result ≡ file_attr self.now node size }
    {
        let named = self.made[(node - 2) as usize].name.is_some();
        attr_with(node, size, 0o100644, if named { 1 } else { 0 })
    }

    // A session begins.
    pub(crate) fn begin(&mut self)
        ensures { self.new ≡ begun self.old }
    {
        self.started = true;
    }

    // A session ends.
    pub(crate) fn end(&mut self)
        ensures { self.new ≡ ended self.old }
    {
        unlook(&mut self.made);
        self.opened.clear();
        self.started = false;
    }

    // A new handle of a node.
    #[tactic(auto, unfolding(fuse_device::specs::Checks::may_open))]
    pub(crate) fn open(&mut self, node: u64) -> Result<OpenOut, Memory>
        requires { may_open self.old ≡ true }
        ensures value { IfOk result (λ o. o ≡ open_out_of self.old) }
        ensures ok { OnOk result (self.new ≡ with_open self.old node) }
        ensures err { OnErr result (self.new ≡ self.old) }
    {
        let fh = self.next_fh;
        let kind = if node == 1 { Kind::Dir } else { Kind::File };
        self.opened.push(Opened { fh, node, kind })?;
        self.next_fh += 1;
        Ok(OpenOut { fh, open_flags: 0 })
    }

    // A handle is closed.
    pub(crate) fn close(&mut self, fh: u64)
        ensures { self.new ≡ without_open self.old fh }
    {
        close_in(&mut self.opened, fh);
    }

    // One lookup more of a file.
    pub(crate) fn count_up(&mut self, i: usize)
        requires { i < length self.old.made }
        ensures { self.new ≡ looked_up self.old i }
    {
        let file = &mut self.made[i];
        file.lookups = file.lookups.saturating_add(1);
    }

    // A file's name is taken away.
    pub(crate) fn unname(&mut self, i: usize)
        requires { i < length self.old.made }
        ensures { self.new ≡ unnamed self.old i }
    {
        self.made[i].name = None;
    }

    // A file of that name and a handle of it.
    #[tactic(auto, unfolding(fuse_device::specs::Checks::may_open))]
    pub(crate) fn make(&mut self, name: Name) -> Result<OpenOut, Memory>
        requires few { length self.old.made < 16 }
        requires open { may_open self.old ≡ true }
        ensures value { IfOk result (λ o. o ≡ open_out_of self.old) }
        ensures ok { OnOk result (self.new ≡ with_open (with_new_file self.old name) (length self.old.made + 2)) }
        ensures err { OnErr result (self.new ≡ self.old) }
    {
        self.made.reserve(1)?;
        self.opened.reserve(1)?;
        let fh = self.next_fh;
        let node = self.made.len() as u64 + 2;
        let name = Some(name);
        let kind = Kind::File;
        self.made.push(MadeFile { name, lookups: 0 }).unwrap();
        self.opened.push(Opened { fh, node, kind }).unwrap();
        self.next_fh += 1;
        Ok(OpenOut { fh, open_flags: 0 })
    }

    // Lookups of a node are given back.
    #[tactic(auto, unfolding(fuse_device::specs::Checks::is_known, fuse_device::specs::State::is_made))]
    pub(crate) fn give_back(&mut self, node: u64, lookups: u64)
        ensures { self.new ≡ forgotten self.old node lookups }
    {
        if node != 1 && self.is_known(node) {
            let file = &mut self.made[(node - 2) as usize];
            file.lookups = file.lookups.saturating_sub(lookups);
        }
    }

    // Lookups of nodes are given back, one after another.
    pub(crate) fn give_back_each(&mut self, ones: &[ForgetOne])
        ensures { self.new ≡ all_forgotten self.old ones.now }
    {
        let mut rest = ones;
        while let Some((one, after)) = rest.split_first() {
            self.give_back(one.nodeid, one.nlookup);
            rest = after;
        }
    }
}
