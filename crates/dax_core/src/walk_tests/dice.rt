//! Events drawn from a fixed seed.

use super::model::{FILES, GUESTS, Model, ModelGuest, RANGES};
use crate::events::Event;
use page_map::{Mode, Target};
use plain_file::{Blob, Entry, Memory, Op, Through, Way};
use std::alloc::Global;

// The kinds of events.
#[derive(Clone, Copy, Debug, PartialEq, Eq)]
pub(super) enum Kind {
    Enter,
    Leave,
    Look,
    Take,
    SetMap,
    SettleMapped,
    SettleFree,
    Pin,
    Unpin,
    Upgrade,
    TakeTurn,
    SetSize,
    GiveTurn,
    Lease,
    NoteSize,
    Unlease,
    Bar,
    Unbar,
}

// Each kind as often as it weighs.
const KINDS: [Kind; 48] = [
    Kind::Enter,
    Kind::Enter,
    Kind::Enter,
    Kind::Leave,
    Kind::Look,
    Kind::Take,
    Kind::Take,
    Kind::Take,
    Kind::Take,
    Kind::Take,
    Kind::SetMap,
    Kind::SetMap,
    Kind::SetMap,
    Kind::SetMap,
    Kind::SetMap,
    Kind::SettleMapped,
    Kind::SettleMapped,
    Kind::SettleMapped,
    Kind::SettleMapped,
    Kind::SettleMapped,
    Kind::SettleMapped,
    Kind::SettleMapped,
    Kind::SettleMapped,
    Kind::SettleFree,
    Kind::Pin,
    Kind::Unpin,
    Kind::Unpin,
    Kind::Unpin,
    Kind::Upgrade,
    Kind::Upgrade,
    Kind::Upgrade,
    Kind::Upgrade,
    Kind::TakeTurn,
    Kind::TakeTurn,
    Kind::SetSize,
    Kind::SetSize,
    Kind::SetSize,
    Kind::SetSize,
    Kind::GiveTurn,
    Kind::Lease,
    Kind::NoteSize,
    Kind::Unlease,
    Kind::Unlease,
    Kind::Unlease,
    Kind::Unlease,
    Kind::Bar,
    Kind::Bar,
    Kind::Unbar,
];

// Chunks, the last of which no file may have.
const CHUNKS: [u32; 8] = [0, 0, 1, 1, 2, 3, 31, 32];

// Bytes past a file's end, near it, and past the longest file.
const PLACES: [u64; 8] = [
    0, 1, 4096, 8192, 2_097_152, 67_108_862, 67_108_864, 67_108_865,
];

// An event that was drawn.
#[derive(Debug, Drop)]
pub(super) struct Drawn {
    pub(super) kind: Kind,
    pub(super) guest: u32,
    pub(super) event: Event,
}

// A generator of numbers: the xorshift of 32 bits by 13, 17, 5.
#[derive(Clone, Copy, Debug)]
pub(super) struct Dice {
    pub(super) state: u32,
}

impl Dice {
    fn next(&mut self) -> u32 {
        let mut state = self.state;
        state ^= state << 13;
        state ^= state >> 17;
        state ^= state << 5;
        self.state = state;
        state >> 8
    }

    // Whether a throw of 1 in 4 succeeds.
    pub(super) fn one_in_four(&mut self) -> bool {
        self.next() % 4 == 0
    }

    // One of so many numbers, counted from 0; once in 32 throws the one after them.
    fn of(&mut self, count: u32) -> u32 {
        if self.next() % 32 == 0 {
            return count;
        }
        self.next() % count.max(1)
    }

    fn kind(&mut self) -> Kind {
        match KINDS.get((self.next() % 48) as usize) {
            Some(kind) => *kind,
            None => Kind::Leave,
        }
    }

    fn chunk(&mut self) -> u32 {
        match CHUNKS.get((self.next() % 8) as usize) {
            Some(chunk) => *chunk,
            None => 0,
        }
    }

    fn place(&mut self) -> u64 {
        match PLACES.get((self.next() % 8) as usize) {
            Some(place) => *place,
            None => 0,
        }
    }

    fn mode(&mut self) -> Mode {
        if self.one_in_four() { Mode::W } else { Mode::R }
    }

    // A target, mostly in the file whose tree the guest has.
    fn target(&mut self, model: &Model, guest: u32) -> Target {
        let file = match model.guests.get(guest as usize) {
            Some(
                ModelGuest {
                    tree: Some(file),
                    ..
                },
            ) if !self.one_in_four() => *file,
            _ => self.of(FILES),
        };
        Target {
            file,
            chunk: self.chunk(),
            mode: self.mode(),
        }
    }

    // A mapping of the range that the guest moves, or of any range: where it is mapped, for writing, or to nothing where it
    // isn't; or anywhere.
    fn set_map(&mut self, model: &Model, guest: u32) -> Event {
        let any = self.of(RANGES);
        match model.moved_by(guest) {
            Some(range) => {
                let to = Some(self.target(model, guest));
                Event::SetMap { range, to }
            }
            None if self.one_in_four() => {
                let to = Some(self.target(model, guest));
                Event::SetMap { range: any, to }
            }
            None => {
                let to = model.writing_at(any);
                Event::SetMap { range: any, to }
            }
        }
    }

    // A settling, mostly at the target of the range that the guest moves.
    fn settle(&mut self, model: &Model, guest: u32) -> Event {
        let to = match model.moved_by(guest) {
            Some(range) => model.range(range).to,
            None => None,
        };
        match to {
            Some(Target { chunk, mode, .. }) if !self.one_in_four() => {
                Event::SettleMapped { chunk, mode }
            }
            _ => Event::SettleMapped {
                chunk: self.chunk(),
                mode: self.mode(),
            },
        }
    }

    fn op(&mut self, alloc: Global) -> Result<Op, Memory> {
        let off = self.place();
        match self.next() % 4 {
            0 => Ok(Op::Truncate { size: off }),
            1 => Ok(Op::Write {
                off,
                bytes: Blob::copy_of(alloc, b"ab")?,
            }),
            2 => Ok(Op::Read { off, len: 2 }),
            _ => Ok(Op::Size),
        }
    }

    fn way(&mut self) -> Way {
        match self.next() % 3 {
            0 => Way::Req,
            1 => Way::ReqSaw(self.place()),
            _ => Way::Via(Through { entry: 0, upto: 1 }, None),
        }
    }

    fn entry(&mut self, alloc: Global, guest: u32) -> Result<Entry, Memory> {
        let other = self.of(GUESTS);
        let own = !self.one_in_four();
        let call = self.next() % 1024;
        let way = self.way();
        Ok(Entry {
            guest: if own { guest } else { other },
            call,
            op: self.op(alloc)?,
            way,
        })
    }

    fn event(
        &mut self,
        alloc: Global,
        model: &Model,
        guest: u32,
        kind: Kind,
    ) -> Result<Event, Memory> {
        let file = self.of(FILES);
        let range = self.of(RANGES);
        Ok(match kind {
            Kind::Enter => Event::Enter { file },
            Kind::Leave => Event::Leave,
            Kind::Look => Event::Look { range },
            Kind::Take => Event::Take { range },
            Kind::SetMap => self.set_map(model, guest),
            Kind::SettleMapped => self.settle(model, guest),
            Kind::SettleFree => Event::SettleFree,
            Kind::Pin => Event::Pin { range },
            Kind::Unpin => Event::Unpin { range },
            Kind::Upgrade => Event::Upgrade { range },
            Kind::TakeTurn => Event::TakeTurn { file },
            Kind::SetSize => Event::SetSize {
                entry: self.entry(alloc, guest)?,
            },
            Kind::GiveTurn => Event::GiveTurn,
            Kind::Lease => Event::Lease { file },
            Kind::NoteSize => Event::NoteSize { file },
            Kind::Unlease => Event::Unlease { file },
            Kind::Bar => Event::Bar { file },
            Kind::Unbar => Event::Unbar { file },
        })
    }

    pub(super) fn draw(&mut self, alloc: Global, model: &Model) -> Result<Drawn, Memory> {
        let kind = self.kind();
        let guest = self.of(GUESTS);
        Ok(Drawn {
            kind,
            guest,
            event: self.event(alloc, model, guest, kind)?,
        })
    }

    // Draws up to eight times, until the model allows the event; once in four times takes the first as it is.
    pub(super) fn draw_useful(&mut self, alloc: Global, model: &Model) -> Result<Drawn, Memory> {
        let tries = if self.one_in_four() { 0 } else { 7 };
        for _try in 0..tries {
            let drawn = self.draw(alloc, model)?;
            if model.allows(drawn.guest, &drawn.event) {
                return Ok(drawn);
            }
        }
        self.draw(alloc, model)
    }
}
