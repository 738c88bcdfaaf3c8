ghost use Rattle.std.specs.Prelude.{◌≡◌, ◌<◌, None, length};
ghost use Rattle.plain_file.specs.Turns.{Bars};

use crate::dax::Dax;
use plain_file::{FileTurns, Leased};
use std::sync::Wait;

impl<W, F: FileTurns, R> Dax<W, F, R> {
    /// Takes the bar on a file, under which its size may fall: from then on nobody gets a lease on it. No
    /// bar is had before. It waits while another guest has the bar. Nothing is sent.
    ///
    /// # Errors
    ///
    /// `Leased` comes exactly where leases were seen on the file at the one step of the call, the guest's own
    /// among them, and tells how many. The board of files counts the refusal then, and keeps what was seen.
    pub fn break_file<T: Wait>(&mut self, rt: &T, file: u32) -> Result<(), Leased>
        requires file { file < length (F.board self.old.files).files }
        requires unbarred { (F.board self.old.files).hands.bar ≡ None }
        ensures bars { Bars (F.board self.old.files) file result (F.board self.new.files) }
        ensures driver { self.new.driver ≡ self.old.driver }
        ensures ranges { self.new.ranges ≡ self.old.ranges }
        ensures refs { self.new.refs ≡ self.old.refs }
    {
        self.files.bar(rt, file)
    }
}
