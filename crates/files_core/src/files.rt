ghost use Rattle.std.specs.Prelude.{◌≡◌, ◌<◌, length, IfOk, MatchOption, MatchResult, Some};
ghost use Rattle.files_core.specs.Files.{Barless, Did, DidOne, Turnless, clear_bar, file, give_turn, lease, new_files, note_size, on, set_bar, set_size, take_turn, unlease};
ghost use Rattle.files_core.specs.Good.{IsGuest};

use crate::core_file::CoreFile;
use plain_file::{Entry, First, Memory};
use std::alloc::Global;
use std::marker::Model;

/// The files of the core.
#[derive(Debug, Drop)]
pub struct Files {
    files: Vec<CoreFile>,
}

impl Model for Files {
    ghost use Rattle.std.specs.Prelude.{List};
    ghost use Rattle.files_core.specs.Files.{FileState};

    ghost Value = { List FileState };

    ghost view = { λ s. s.files.items };
}

impl Files {
    /// Files with these first contents, for so many guests. Nothing was done to them yet. `Memory` comes where an
    /// allocation was refused.
    pub fn new(alloc: Global, firsts: &[First], guests: u32) -> Result<Files, Memory>
        ensures { IfOk result (λ s. s ≡ new_files guests firsts.now) }
    {
        let mut files = Vec::new(alloc);
        for first in firsts {
            files.push(CoreFile::new(alloc, *first, guests)?)?;
        }
        Ok(Files { files })
    }

    // The file whose turn the guest has.
    fn turn_of(&self, guest: u32) -> Option<usize>
        ensures { MatchOption result (Turnless self.now guest) (λ f. (file self.now f).turn ≡ Some guest) }
    {
        for at in 0..self.files.len() {
            if self.files[at].has_turn(guest) {
                return Some(at);
            }
        }
        None
    }

    // The file whose bar the guest has.
    fn bar_of(&self, guest: u32) -> Option<usize>
        ensures { MatchOption result (Barless self.now guest) (λ f. (file self.now f).bar ≡ Some guest) }
    {
        for at in 0..self.files.len() {
            if self.files[at].has_bar(guest) {
                return Some(at);
            }
        }
        None
    }

    /// The history of a file.
    pub fn history(&self, at: u32) -> &[Entry]
        requires { at < length self.now }
        ensures { result.now ≡ (file self.now at).history }
    {
        self.files[at as usize].history()
    }

    /// Takes a file's turn: nobody has it, and the guest has none. Its notes of the file end here.
    pub fn take_turn(&mut self, guest: u32, at: u32) -> bool
        requires { IsGuest guest self.old }
        ensures { Did result self.old guest (on at take_turn) self.new }
    {
        if at as usize >= self.files.len() || self.turn_of(guest).is_some() {
            return false;
        }
        self.files[at as usize].take_turn(guest)
    }

    /// Applies an entry in the turn that the guest has, whose size the file gets.
    pub fn set_size(&mut self, guest: u32, entry: &Entry) -> Result<bool, Memory>
        requires { IsGuest guest self.old }
        ensures { MatchResult result (λ b. DidOne b self.old guest (set_size entry.now) self.new) (λ _. self.new ≡ self.old) }
    {
        let Some(at) = self.turn_of(guest) else {
            return Ok(false);
        };
        self.files[at].set_size(guest, entry)
    }

    /// Gives back the turn that the guest has. The history grows by the entry that was applied.
    pub fn give_turn(&mut self, guest: u32) -> Result<bool, Memory>
        requires { IsGuest guest self.old }
        ensures { MatchResult result (λ b. DidOne b self.old guest give_turn self.new) (λ _. self.new ≡ self.old) }
    {
        let Some(at) = self.turn_of(guest) else {
            return Ok(false);
        };
        self.files[at].give_turn(guest)
    }

    /// Leases a file that has no bar; the guest has fewer than 64 leases on it.
    pub fn lease(&mut self, guest: u32, at: u32) -> bool
        requires { IsGuest guest self.old }
        ensures { Did result self.old guest (on at lease) self.new }
    {
        if at as usize >= self.files.len() {
            return false;
        }
        self.files[at as usize].lease(guest)
    }

    /// Notes the size of a file.
    pub fn note_size(&mut self, guest: u32, at: u32) -> Result<bool, Memory>
        requires { IsGuest guest self.old }
        ensures { MatchResult result (λ b. Did b self.old guest (on at note_size) self.new) (λ _. self.new ≡ self.old) }
    {
        if at as usize >= self.files.len() {
            return Ok(false);
        }
        self.files[at as usize].note_size(guest)?;
        Ok(true)
    }

    /// Gives back a lease that the guest has on a file.
    pub fn unlease(&mut self, guest: u32, at: u32) -> bool
        requires { IsGuest guest self.old }
        ensures { Did result self.old guest (on at unlease) self.new }
    {
        if at as usize >= self.files.len() {
            return false;
        }
        self.files[at as usize].unlease(guest)
    }

    /// Takes a file's bar: nobody has it, nobody has a lease on the file, and the guest has no bar.
    pub fn bar(&mut self, guest: u32, at: u32) -> bool
        requires { IsGuest guest self.old }
        ensures { Did result self.old guest (on at set_bar) self.new }
    {
        if at as usize >= self.files.len() || self.bar_of(guest).is_some() {
            return false;
        }
        self.files[at as usize].bar(guest)
    }

    /// Gives back the bar that the guest has on a file.
    pub fn unbar(&mut self, guest: u32, at: u32) -> bool
        requires { IsGuest guest self.old }
        ensures { Did result self.old guest (on at clear_bar) self.new }
    {
        if at as usize >= self.files.len() {
            return false;
        }
        self.files[at as usize].unbar(guest)
    }
}
