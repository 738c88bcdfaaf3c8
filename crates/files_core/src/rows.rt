ghost use Rattle.std.specs.Prelude.{◌≡◌, ◌<◌, ◌+◌, map, OnOk, OnErr};
ghost use Rattle.files_core.specs.Files.{blank, ended_at, entered, leased, noted, seen_to, unleased};

use plain_file::Memory;
use std::alloc::Global;
use std::marker::Model;

/// A size of a file that a guest noted.
#[derive(Clone, Copy, Debug, PartialEq, Eq)]
pub struct Note {
    /// The size, in bytes.
    pub size: u64,
    /// How much of the file's history the guest had seen when it noted the size, with the entry that it
    /// had applied in its turn.
    pub lower: u64,
    /// How long the history was when the guest next had the file's turn.
    pub upper: Option<u64>,
}

// One guest's part of a file.
#[derive(Debug, Drop)]
pub(crate) struct GuestRow {
    seen: u64,
    leases: u32,
    noted: Option<u64>,
    notes: Vec<Note>,
}

impl Model for GuestRow {
    ghost use Rattle.files_core.specs.Files.{Row};

    ghost Value = { Row };

    ghost view = { λ r. record { seen = r.seen; leases = r.leases; noted = r.noted; notes = r.notes.items } };
}

// The note with this upper end, unless it has one.
fn ended_at(seen: u64, note: Note) -> Note
    ensures { result ≡ ended_at seen note }
{
    Note {
        size: note.size,
        lower: note.lower,
        upper: note.upper.or(Some(seen)),
    }
}

// Gives each note without an upper end this one.
fn end_all(notes: &mut Vec<Note>, seen: u64)
    ensures { notes.new.items ≡ map (ended_at seen) notes.old.items }
{
    for i in 0..notes.len() {
        notes[i] = ended_at(seen, notes[i]);
    }
}

impl GuestRow {
    pub(crate) fn new(alloc: Global) -> GuestRow
        ensures { result ≡ blank }
    {
        GuestRow {
            seen: 0,
            leases: 0,
            noted: None,
            notes: Vec::new(alloc),
        }
    }

    pub(crate) fn leases(&self) -> u32
        ensures { result ≡ self.now.leases }
    {
        self.leases
    }

    pub(crate) fn enter(&mut self, seen: u64)
        ensures { self.new ≡ entered seen self.old }
    {
        end_all(&mut self.notes, seen);
        self.seen = seen;
    }

    pub(crate) fn see(&mut self, seen: u64)
        ensures { self.new ≡ seen_to seen self.old }
    {
        self.seen = seen;
    }

    pub(crate) fn lease(&mut self)
        requires { self.old.leases < 64 }
        ensures { self.new ≡ leased self.old }
    {
        self.leases += 1;
    }

    pub(crate) fn unlease(&mut self)
        requires { 0 < self.old.leases }
        ensures { self.new ≡ unleased self.old }
    {
        self.leases -= 1;
        if self.leases == 0 {
            self.noted = None;
        }
    }

    pub(crate) fn seen(&self) -> u64
        ensures { result ≡ self.now.seen }
    {
        self.seen
    }

    pub(crate) fn note(&mut self, size: u64, lower: u64) -> Result<(), Memory>
        ensures ok { OnOk result (self.new ≡ noted size lower self.old) }
        ensures err { OnErr result (self.new ≡ self.old) }
    {
        self.notes.push(Note {
            size,
            lower,
            upper: None,
        })?;
        if self.leases > 0 {
            self.noted = Some(size);
        }
        Ok(())
    }
}
