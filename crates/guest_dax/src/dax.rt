ghost use Rattle.std.specs.Prelude.{◌≡◌};

use guest_wire::{Driver, FileRef};
use plain_file::List;

/// A guest's ranges: its client, its board of files, its board of ranges, and a reference to each file of
/// the boards, in their order.
#[derive(Drop)]
pub struct Dax<W, F, R> {
    /// The client.
    pub driver: Driver<W>,
    /// The files.
    pub files: F,
    /// The ranges.
    pub ranges: R,
    /// The open files.
    pub refs: List<FileRef>,
    // the range at which the next search begins
    pub(crate) cursor: u32,
}

impl<W, F, R> Dax<W, F, R> {
    /// A guest that has reclaimed nothing yet.
    pub fn new(driver: Driver<W>, files: F, ranges: R, refs: List<FileRef>) -> Dax<W, F, R>
        ensures driver { result.driver ≡ driver }
        ensures files { result.files ≡ files }
        ensures ranges { result.ranges ≡ ranges }
        ensures refs { result.refs ≡ refs }
    {
        Dax {
            driver,
            files,
            ranges,
            refs,
            cursor: 0,
        }
    }

    /// Its client and its boards.
    pub fn into_parts(self) -> (Driver<W>, F, R)
        ensures { result ≡ (self.driver, self.files, self.ranges) }
    {
        let Dax {
            driver,
            files,
            ranges,
            refs: _refs,
            cursor: _cursor,
        } = self;
        (driver, files, ranges)
    }
}
