//! A random walk of the core beside a plain model of it.

ghost use Rattle.dax_core.specs.Examples.{IsWalked};

mod dice;
mod doing;
mod model;

use crate::machine::Core;
use dice::{Dice, Drawn, Kind};
use model::Model as Plain;
use page_map::RangeWord;
use plain_file::{First, List, Memory};
use std::alloc::Global;
use std::marker::Model;
use std::process::Abort;
use std::test::Fail;

// How many events the walk has, and from which seed.
const EVENTS: u32 = 10_000;

const SEED: u32 = 2_463_534_242;

// How many bytes each file begins with.
const SIZE: u64 = 4096;

// A core of four ranges and two files.
#[derive(Debug, Drop)]
struct Walked {
    core: Core,
}

impl Model for Walked {
    ghost use Rattle.dax_core.specs.Core.{CoreState};
    ghost use Rattle.dax_core.specs.Examples.{IsWalked};

    ghost Value = { CoreState };

    ghost view = { λ w. w.core };

    ghost invariant = { λ w. IsWalked w.core };
}

impl Walked {
    fn new(alloc: Global) -> Result<Walked, Memory> {
        let mut firsts = List::new(alloc);
        firsts.push(First {
            size: SIZE,
            fill: 0,
        })?;
        firsts.push(First {
            size: SIZE,
            fill: 0,
        })?;
        let core = Core::new(alloc, 4, &firsts, 3)?;
        Ok(Walked { core })
    }

    fn step(&mut self, drawn: &Drawn) -> Result<bool, Memory> {
        self.core.step(drawn.guest, &drawn.event)
    }

    // Whether each range's word is the model's.
    fn has_words(&self, plain: &Plain) -> bool {
        for range in 0..4 {
            if self.core.word(range) != plain.range(range).word {
                return false;
            }
        }
        true
    }

    // Whether each chunk stands in the file's tree where the model has it.
    fn has_chunks(&self, plain: &Plain, file: u32) -> bool {
        if file >= 2 {
            return false;
        }
        let tree = self.core.tree(file);
        for chunk in 0..32 {
            if tree.find(chunk) != plain.find(file, chunk) {
                return false;
            }
        }
        true
    }

    // Whether the file's history and the log of its tree are the model's.
    fn has_lists(&self, plain: &Plain, file: u32) -> bool {
        let Some(want) = plain.files.get(file as usize) else {
            return false;
        };
        file < 2
            && self.core.history(file) == want.history.as_slice()
            && self.core.tree(file).log() == want.log.as_slice()
    }

    fn has_file(&self, plain: &Plain, file: u32) -> bool {
        self.has_lists(plain, file) && self.has_chunks(plain, file)
    }
}

// How many events of a kind were allowed and refused.
#[derive(Clone, Copy, Debug)]
struct Tally {
    allowed: u32,
    refused: u32,
}

// The core, the model, the dice, how many events of each kind were allowed and refused, and how many of all were allowed.
#[derive(Debug, Drop)]
struct Walk {
    core: Walked,
    plain: Plain,
    dice: Dice,
    tallies: [Tally; 18],
    allowed: u32,
}

impl Walk {
    fn new(alloc: Global) -> Result<Walk, Memory> {
        Ok(Walk {
            core: Walked::new(alloc)?,
            plain: Plain::new(alloc, SIZE)?,
            dice: Dice { state: SEED },
            tallies: [Tally {
                allowed: 0,
                refused: 0,
            }; 18],
            allowed: 0,
        })
    }

    fn count(&mut self, kind: Kind, allowed: bool) {
        let Some(tally) = self.tallies.get_mut(kind as usize) else {
            return;
        };
        if allowed {
            self.allowed = self.allowed.wrapping_add(1);
            tally.allowed = tally.allowed.wrapping_add(1);
        } else {
            tally.refused = tally.refused.wrapping_add(1);
        }
    }

    // Draws an event, and tries it on both.
    fn step(&mut self, rt: &impl Abort, alloc: Global) -> Result<(), Memory> {
        let drawn = self.dice.draw_useful(alloc, &self.plain)?;
        let allowed = self.plain.step(drawn.guest, &drawn.event)?;
        assert_eq!(rt; self.core.step(&drawn)?, allowed);
        self.count(drawn.kind, allowed);
        Ok(())
    }

    // Whether events of each kind were allowed, and refused.
    fn had_all(&self) -> bool {
        self.tallies
            .iter()
            .all(|tally| tally.allowed > 0 && tally.refused > 0)
    }
}

#[test]
fn walks_as_the_model(rt: HostRuntime) -> Result<(), Fail> {
    let mut walk = Walk::new(rt.alloc())?;
    for _event in 0..EVENTS {
        walk.step(&rt, rt.alloc())?;
    }
    println!(rt; "{:?}", walk.tallies)?;
    println!(rt; "{} of {} events were allowed", walk.allowed, EVENTS)?;
    assert!(&rt; walk.allowed >= EVENTS / 2 && walk.had_all());
    assert!(&rt; walk.core.has_words(&walk.plain));
    assert!(&rt; walk.core.has_file(&walk.plain, 0) && walk.core.has_file(&walk.plain, 1));
    Ok(())
}
