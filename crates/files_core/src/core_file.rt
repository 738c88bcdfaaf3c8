ghost use Rattle.std.specs.Prelude.{◌≡◌, ◌≢◌, ◌≤◌, ◌<◌, nat_le, length, replicate, IfOk, OnErr, OnOk, Some, MatchBool, MatchResult};
ghost use Rattle.plain_file.specs.File.{max_file, reach};
ghost use Rattle.files_core.specs.Files.{DidHere, MaySet, blank, clear_bar, give_turn, lease, leases, made, new_file, note_size, reaches, set_bar, set_size, sized, take_turn, unlease};

use crate::rows::GuestRow;
use plain_file::{Entry, First, MAX_FILE, Memory, Op};
use std::alloc::Global;
use std::marker::Model;

// One file: its history, its size, who has its turn and its bar, and the guests' parts.
#[derive(Debug, Drop)]
pub(crate) struct CoreFile {
    first: First,
    turn: Option<u32>,
    applied: Option<Entry>,
    history: Vec<Entry>,
    size: u64,
    bar: Option<u32>,
    rows: Vec<GuestRow>,
}

impl Model for CoreFile {
    ghost use Rattle.files_core.specs.Files.{FileState};

    ghost Value = { FileState };

    ghost view = { λ c. record { first = c.first; turn = c.turn; applied = c.applied; history = c.history.items; size = c.size; bar = c.bar; rows = c.rows.items } };
}

// Whether this guest is the holder.
fn is_his(holder: Option<u32>, guest: u32) -> bool
    ensures { MatchBool result (holder ≡ Some guest) (holder ≢ Some guest) }
{
    match holder {
        Some(other) => other == guest,
        None => false,
    }
}

// Whether a write's end or a truncation's size is one that a file may have.
#[tactic(auto, unfolding(plain_file::specs::File::reach))]
fn fits(op: &Op) -> bool
    ensures { result ≡ nat_le (reach op.now) max_file }
{
    match op {
        Op::Write { off, bytes } => {
            let len = bytes.len() as u64;
            len <= MAX_FILE && *off <= MAX_FILE - len
        }
        Op::Truncate { size } => *size <= MAX_FILE,
        Op::Read { .. } | Op::Size => true,
    }
}

// The size after an operation.
#[tactic(auto, unfolding(plain_file::specs::File::reach, crate::specs::Files::sized))]
fn sized(size: u64, op: &Op) -> u64
    requires { reach op.now ≤ max_file }
    ensures { result ≡ sized size op.now }
{
    match op {
        Op::Write { off, bytes } if !bytes.is_empty() => size.max(*off + bytes.len() as u64),
        Op::Truncate { size } => *size,
        Op::Read { .. } | Op::Write { .. } | Op::Size => size,
    }
}

fn new_rows(alloc: Global, guests: u32) -> Result<Vec<GuestRow>, Memory>
    ensures { IfOk result (λ v. v.items ≡ replicate guests blank) }
{
    let mut rows = Vec::new(alloc);
    for _guest in 0..guests {
        rows.push(GuestRow::new(alloc))?;
    }
    Ok(rows)
}

impl CoreFile {
    pub(crate) fn new(alloc: Global, first: First, guests: u32) -> Result<CoreFile, Memory>
        ensures { IfOk result (λ c. c ≡ new_file guests first) }
    {
        Ok(CoreFile {
            first,
            turn: None,
            applied: None,
            history: Vec::new(alloc),
            size: first.size,
            bar: None,
            rows: new_rows(alloc, guests)?,
        })
    }

    pub(crate) fn history(&self) -> &[Entry]
        ensures { result.now ≡ self.now.history }
    {
        self.history.as_slice()
    }

    pub(crate) fn has_turn(&self, guest: u32) -> bool
        ensures { MatchBool result (self.now.turn ≡ Some guest) (self.now.turn ≢ Some guest) }
    {
        is_his(self.turn, guest)
    }

    pub(crate) fn has_bar(&self, guest: u32) -> bool
        ensures { MatchBool result (self.now.bar ≡ Some guest) (self.now.bar ≢ Some guest) }
    {
        is_his(self.bar, guest)
    }

    fn is_leased(&self) -> bool
        ensures { MatchBool result (leases self.now ≢ 0) (leases self.now ≡ 0) }
    {
        for row in &self.rows {
            if row.leases() > 0 {
                return true;
            }
        }
        false
    }

    pub(crate) fn take_turn(&mut self, guest: u32) -> bool
        requires { guest < length self.old.rows }
        ensures { DidHere result self.old guest take_turn self.new }
    {
        if self.turn.is_some() {
            return false;
        }
        let seen = self.history.len() as u64;
        self.rows[guest as usize].enter(seen);
        self.turn = Some(guest);
        true
    }

    fn may_set(&self, guest: u32, entry: &Entry) -> bool
        ensures { MatchBool result (MaySet self.now guest entry.now) (MaySet self.now guest entry.now → ⊥) }
    {
        if !self.has_turn(guest)
            || self.applied.is_some()
            || entry.guest != guest
            || !fits(&entry.op)
        {
            return false;
        }
        sized(self.size, &entry.op) >= self.size || self.has_bar(guest)
    }

    pub(crate) fn set_size(&mut self, guest: u32, entry: &Entry) -> Result<bool, Memory>
        ensures { MatchResult result (λ b. DidHere b self.old guest (set_size entry.now) self.new) (λ _. self.new ≡ self.old) }
    {
        if !self.may_set(guest, entry) {
            return Ok(false);
        }
        let applied = entry.clone()?;
        self.size = sized(self.size, &applied.op);
        self.applied = Some(applied);
        Ok(true)
    }

    pub(crate) fn give_turn(&mut self, guest: u32) -> Result<bool, Memory>
        requires { guest < length self.old.rows }
        ensures { MatchResult result (λ b. DidHere b self.old guest give_turn self.new) (λ _. self.new ≡ self.old) }
    {
        if !self.has_turn(guest) {
            return Ok(false);
        }
        self.history.reserve(1)?;
        if let Some(entry) = self.applied.take() {
            self.history.push(entry).unwrap();
        }
        self.turn = None;
        let seen = self.history.len() as u64;
        self.rows[guest as usize].see(seen);
        Ok(true)
    }

    pub(crate) fn lease(&mut self, guest: u32) -> bool
        requires { guest < length self.old.rows }
        ensures { DidHere result self.old guest lease self.new }
    {
        if self.bar.is_some() || self.rows[guest as usize].leases() >= 64 {
            return false;
        }
        self.rows[guest as usize].lease();
        true
    }

    // How much of the history the guest has seen, with the entry that it applied in its turn.
    fn reaches(&self, guest: u32) -> u64
        requires { guest < length self.now.rows }
        ensures { result ≡ reaches self.now guest }
    {
        if !self.has_turn(guest) {
            return self.rows[guest as usize].seen();
        }
        let applied = if self.applied.is_some() { 1 } else { 0 };
        self.history.len() as u64 + applied
    }

    pub(crate) fn note_size(&mut self, guest: u32) -> Result<(), Memory>
        requires { guest < length self.old.rows }
        ensures ok { OnOk result (self.new ≡ made self.old guest note_size) }
        ensures err { OnErr result (self.new ≡ self.old) }
    {
        let size = self.size;
        let lower = self.reaches(guest);
        self.rows[guest as usize].note(size, lower)
    }

    pub(crate) fn unlease(&mut self, guest: u32) -> bool
        requires { guest < length self.old.rows }
        ensures { DidHere result self.old guest unlease self.new }
    {
        if self.rows[guest as usize].leases() == 0 {
            return false;
        }
        self.rows[guest as usize].unlease();
        true
    }

    pub(crate) fn bar(&mut self, guest: u32) -> bool
        ensures { DidHere result self.old guest set_bar self.new }
    {
        if self.bar.is_some() || self.is_leased() {
            return false;
        }
        self.bar = Some(guest);
        true
    }

    pub(crate) fn unbar(&mut self, guest: u32) -> bool
        ensures { DidHere result self.old guest clear_bar self.new }
    {
        if !self.has_bar(guest) {
            return false;
        }
        self.bar = None;
        true
    }
}
