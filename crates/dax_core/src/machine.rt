ghost use Rattle.std.specs.Prelude.{◌≡◌, ◌≤◌, ◌<◌, All, IfOk, MatchResult, length};
ghost use Rattle.plain_file.specs.File.{max_file};
ghost use Rattle.range_tree.specs.Trees.{max_ranges};
ghost use Rattle.window_core.specs.Good.{max_guests};
ghost use Rattle.files_core.specs.Files.{file};
ghost use Rattle.window_core.specs.Window.{side, word_at};
ghost use Rattle.dax_core.specs.Core.{Good, new_core};
ghost use Rattle.dax_core.specs.Events.{Grows, Ran, RanFront, Stepped};

use crate::events::{Event, GuestEvent};
use crate::steps::{step_files, step_window};
use files_core::Files;
use page_map::RangeWord;
use plain_file::{Entry, First, List, Memory};
use range_tree::Tree;
use std::alloc::Global;
use std::marker::Model;
use window_core::CoreWindow;

/// The core: the state that all guests share. It is good at any time.
#[derive(Debug, Drop)]
pub struct Core {
    guests: u32,
    window: CoreWindow,
    files: Files,
}

impl Model for Core {
    ghost use Rattle.dax_core.specs.Core.{CoreState, Good};
    ghost use Rattle.window_core.specs.Machine.{window_of};

    ghost Value = { CoreState };

    ghost view = { λ c. record { guests = c.guests; window = window_of c.window; files = c.files } };

    ghost invariant = { λ c. Good (record { guests = c.guests; window = window_of c.window; files = c.files }) };
}

impl Core {
    /// A core of so many ranges (at most 256) and guests (at most 34), in whose files (at most 64) with these first
    /// contents nothing was done yet. All ranges are free. `Memory` comes where an allocation was refused.
    pub fn new(
        alloc: Global,
        ranges: u32,
        firsts: &List<First>,
        guests: u32,
    ) -> Result<Core, Memory>
        requires ranges { ranges ≤ max_ranges }
        requires guests { guests ≤ max_guests }
        requires few { length firsts.now ≤ 64 }
        requires small { All (λ first. first.size ≤ max_file) firsts.now }
        ensures { IfOk result (λ c. c ≡ new_core ranges firsts.now guests) }
    {
        let firsts = firsts.as_slice();
        Ok(Core {
            guests,
            window: CoreWindow::new(alloc, ranges, firsts.len() as u32, guests)?,
            files: Files::new(alloc, firsts, guests)?,
        })
    }

    /// Does nothing: tells that the core is good.
    pub fn sound(&self)
        ensures { Good self.now }
    {
        let _ = &self.window;
    }

    // Has each half do the event. A half does none of the other's, so at most one of them does it.
    fn do_event(&mut self, guest: u32, event: &Event) -> Result<bool, Memory>
        ensures { MatchResult result (λ done. Stepped done self.old guest event.now self.new) (λ _. self.new ≡ self.old) }
    {
        if guest >= self.guests {
            return Ok(false);
        }
        if step_window(&mut self.window, guest, event)? {
            return Ok(true);
        }
        step_files(&mut self.files, guest, event)
    }

    /// Does an event of a guest, where it is allowed, and answers whether it is. The core stays good, and histories and
    /// logs grow at most. `Memory` comes where an allocation was refused; nothing has changed then.
    pub fn step(&mut self, guest: u32, event: &Event) -> Result<bool, Memory>
        ensures stepped { MatchResult result (λ done. Stepped done self.old guest event.now self.new) (λ _. self.new ≡ self.old) }
        ensures good { Good self.new }
        ensures grown { Grows self.old self.new }
    {
        self.sound();
        self.do_event(guest, event)
    }

    /// Runs events in their order, each of which is done where it is allowed, and answers how many were. The core stays
    /// good, and histories and logs grow at most. `Memory` comes where an allocation was refused; a front of the events
    /// was run then.
    pub fn run_all(&mut self, events: &List<GuestEvent>) -> Result<u64, Memory>
        ensures ran { MatchResult result (λ n. Ran self.old events.now n self.new) (λ _. RanFront self.old events.now self.new) }
        ensures good { Good self.new }
        ensures grown { Grows self.old self.new }
    {
        self.sound();
        let mut allowed = 0;
        for event in events.as_slice() {
            if self.step(event.guest, &event.event)? {
                allowed += 1;
            }
        }
        Ok(allowed)
    }

    /// The history of a file.
    pub fn history(&self, at: u32) -> &[Entry]
        requires { at < length self.now.files }
        ensures { result.now ≡ (file self.now.files at).history }
    {
        self.files.history(at)
    }

    /// The tree of a file, which contracts see as its log.
    pub fn tree(&self, at: u32) -> &Tree
        requires { at < length self.now.window.sides }
        ensures { result.now ≡ (side self.now.window at).log }
    {
        self.window.tree(at)
    }

    /// What a range is to everybody.
    pub fn word(&self, range: u32) -> RangeWord
        requires { range < length self.now.window.states }
        ensures { result ≡ word_at self.now.window range }
    {
        self.window.word(range)
    }
}
