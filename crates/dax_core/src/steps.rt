ghost use Rattle.std.specs.Prelude.{◌≡◌, MatchResult};
ghost use Rattle.files_core.specs.Good as good_files;
ghost use Rattle.window_core.specs.Good as good_windows;
ghost use Rattle.window_core.specs.Machine.{window_of};
ghost use Rattle.dax_core.specs.Halves.{DidOnFiles, DidOnWindow};

use crate::events::Event;
use files_core::Files;
use plain_file::Memory;
use window_core::CoreWindow;

// Does an event of the window where it is allowed. Events of the files are none.
pub(crate) fn step_window(
    window: &mut CoreWindow,
    guest: u32,
    event: &Event,
) -> Result<bool, Memory>
    requires { good_windows.IsGuest guest (window_of window.old) }
    ensures { MatchResult result (λ b. DidOnWindow b (window_of window.old) guest event.now (window_of window.new)) (λ _. window_of window.new ≡ window_of window.old) }
{
    match event {
        Event::Enter { file } => Ok(window.enter(guest, *file)),
        Event::Leave => Ok(window.leave(guest)),
        Event::Look { range } => Ok(window.has_range(*range)),
        Event::Take { range } => Ok(window.take(guest, *range)),
        Event::SetMap { range, to } => Ok(window.set_map(guest, *range, *to)),
        Event::SettleMapped { chunk, mode } => window.settle_mapped(guest, *chunk, *mode),
        Event::SettleFree => Ok(window.settle_free(guest)),
        Event::Pin { range } => window.pin(guest, *range),
        Event::Unpin { range } => Ok(window.unpin(guest, *range)),
        Event::Upgrade { range } => Ok(window.upgrade(guest, *range)),
        _ => Ok(false),
    }
}

// Does an event of the files where it is allowed. Events of the window are none.
pub(crate) fn step_files(files: &mut Files, guest: u32, event: &Event) -> Result<bool, Memory>
    requires { good_files.IsGuest guest files.old }
    ensures { MatchResult result (λ b. DidOnFiles b files.old guest event.now files.new) (λ _. files.new ≡ files.old) }
{
    match event {
        Event::TakeTurn { file } => Ok(files.take_turn(guest, *file)),
        Event::SetSize { entry } => files.set_size(guest, entry),
        Event::GiveTurn => files.give_turn(guest),
        Event::Lease { file } => Ok(files.lease(guest, *file)),
        Event::NoteSize { file } => files.note_size(guest, *file),
        Event::Unlease { file } => Ok(files.unlease(guest, *file)),
        Event::Bar { file } => Ok(files.bar(guest, *file)),
        Event::Unbar { file } => Ok(files.unbar(guest, *file)),
        _ => Ok(false),
    }
}
