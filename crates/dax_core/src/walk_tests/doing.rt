//! What the model makes of an event that it allows.

use super::model::{Model, ModelGuest, size_after};
use crate::events::Event;
use page_map::{LogEntry, Mode, RangeWord, Target};
use plain_file::{Memory, Op};

impl ModelGuest {
    // So many leases more, modulo 2^32.
    fn add_leases(&mut self, file: u32, more: u32) {
        if let Some(leases) = self.leases.get_mut(file as usize) {
            *leases = leases.wrapping_add(more);
        }
    }

    fn unpin(&mut self, range: u32) {
        if let Some(at) = self.oldest(range) {
            if at < self.pins.len() {
                self.pins.remove(at);
            }
        }
    }

    // What an event makes of the guest's own hands.
    fn make(&mut self, event: &Event) -> Result<(), Memory> {
        match event {
            Event::Enter { file } => self.tree = Some(*file),
            Event::Leave => self.tree = None,
            Event::Pin { range } => self.pins.push(*range)?,
            Event::Unpin { range } => self.unpin(*range),
            Event::TakeTurn { file } => self.turn = Some(*file),
            Event::SetSize { entry } => self.applied = Some(entry.clone()?),
            Event::GiveTurn => self.turn = None,
            Event::Lease { file } => self.add_leases(*file, 1),
            Event::Unlease { file } => self.add_leases(*file, u32::MAX),
            Event::Bar { file } => self.bar = Some(*file),
            Event::Unbar { .. } => self.bar = None,
            _ => {}
        }
        Ok(())
    }
}

impl Model {
    // So many pins more, modulo 2^32.
    fn add_pins(&mut self, range: u32, more: u32) {
        if let Some(there) = self.ranges.get_mut(range as usize) {
            if let RangeWord::Mapped { pins, .. } = &mut there.word {
                *pins = pins.wrapping_add(more);
            }
        }
    }

    fn set_target(&mut self, range: u32, to: Option<Target>) {
        if let Some(there) = self.ranges.get_mut(range as usize) {
            there.to = to;
        }
    }

    fn set_word(&mut self, range: u32, word: RangeWord) {
        if let Some(there) = self.ranges.get_mut(range as usize) {
            there.word = word;
        }
    }

    fn add_to_log(&mut self, file: u32, entry: LogEntry) -> Result<(), Memory> {
        if let Some(there) = self.files.get_mut(file as usize) {
            there.log.push(entry)?;
        }
        Ok(())
    }

    fn take(&mut self, guest: u32, range: u32) -> Result<(), Memory> {
        let word = self.range(range).word;
        self.set_word(range, RangeWord::Moving { guest });
        match word {
            RangeWord::Mapped { file, .. } => self.add_to_log(file, LogEntry::Remove { range }),
            _ => Ok(()),
        }
    }

    // The range becomes what its pages are mapped to.
    fn place(&mut self, range: u32, to: Target) -> Result<(), Memory> {
        let Target { file, chunk, mode } = to;
        let Some(there) = self.files.get_mut(file as usize) else {
            return Ok(());
        };
        let entry = there.log.len() as u64;
        there.log.push(LogEntry::Place { chunk, range, mode })?;
        if let Some(placed) = self.ranges.get_mut(range as usize) {
            placed.entry = entry;
            placed.word = RangeWord::Mapped {
                file,
                chunk,
                mode,
                pins: 0,
            };
        }
        Ok(())
    }

    // Settles the range that the guest moves: it becomes what its pages are mapped to, or free.
    fn settle(&mut self, guest: u32, mapped: bool) -> Result<(), Memory> {
        let Some(range) = self.moved_by(guest) else {
            return Ok(());
        };
        match self.range(range).to {
            Some(to) if mapped => self.place(range, to),
            _ => {
                self.set_word(range, RangeWord::Free);
                Ok(())
            }
        }
    }

    fn upgrade(&mut self, range: u32) -> Result<(), Memory> {
        let word = self.range(range).word;
        let RangeWord::Mapped {
            file,
            chunk,
            pins,
            ..
        } = word
        else {
            return Ok(());
        };
        let mode = Mode::W;
        self.set_word(
            range,
            RangeWord::Mapped {
                file,
                chunk,
                mode,
                pins,
            },
        );
        self.add_to_log(file, LogEntry::Upgrade { range })
    }

    fn set_size(&mut self, guest: u32, op: &Op) {
        let Some(ModelGuest { turn: Some(at), .. }) = self.guests.get(guest as usize) else {
            return;
        };
        if let Some(file) = self.files.get_mut(*at as usize) {
            file.size = size_after(file.size, op);
        }
    }

    fn give_turn(&mut self, guest: u32) -> Result<(), Memory> {
        let Some(me) = self.guests.get_mut(guest as usize) else {
            return Ok(());
        };
        let Some(at) = me.turn else {
            return Ok(());
        };
        if let Some(entry) = me.applied.take() {
            if let Some(file) = self.files.get_mut(at as usize) {
                file.history.push(entry)?;
            }
        }
        Ok(())
    }

    // What an event makes of the ranges and files.
    fn make(&mut self, guest: u32, event: &Event) -> Result<(), Memory> {
        match event {
            Event::Take { range } => self.take(guest, *range)?,
            Event::SetMap { range, to } => self.set_target(*range, *to),
            Event::SettleMapped { .. } => self.settle(guest, true)?,
            Event::SettleFree => self.settle(guest, false)?,
            Event::Pin { range } => self.add_pins(*range, 1),
            Event::Unpin { range } => self.add_pins(*range, u32::MAX),
            Event::Upgrade { range } => self.upgrade(*range)?,
            Event::SetSize { entry } => self.set_size(guest, &entry.op),
            Event::GiveTurn => self.give_turn(guest)?,
            _ => {}
        }
        Ok(())
    }

    // Does an event of a guest where it is allowed, and answers whether it is.
    pub(super) fn step(&mut self, guest: u32, event: &Event) -> Result<bool, Memory> {
        if !self.allows(guest, event) {
            return Ok(false);
        }
        self.make(guest, event)?;
        if let Some(me) = self.guests.get_mut(guest as usize) {
            me.make(event)?;
        }
        Ok(true)
    }
}
