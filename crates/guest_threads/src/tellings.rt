ghost use Rattle.std.specs.Prelude.{◌≡◌, ◌≢◌, ◌<◌, ℕ, IfOk};
ghost use Rattle.seats.specs.Views.{AllIn};
ghost use Rattle.range_share.specs.Steps.{files_of};
ghost use Rattle.guest_threads.specs.Jobs.{AreFirst, AreReread, IsRead, AreRead, history_seen, log_seen};
ghost use Rattle.guest_threads.specs.Ran.{IsFileTold, AreFilesTold};

use file_share::{EntryMark, FilePass, FileTable};
use page_map::LogEntry;
use plain_file::{List, Memory};
use range_share::{RangePass, RangeTable};
use std::alloc::Global;
use std::sync::Wait;

/// What the first passes tell of a file: whose each entry of its history is, and its placement log.
#[derive(Drop)]
pub struct FileTold {
    /// The marks of its history's entries, in order.
    pub marks: List<EntryMark>,
    /// Its placement log.
    pub log: List<LogEntry>,
}

fn tell_file<R: Wait>(
    rt: &R,
    alloc: Global,
    files: &FileTable,
    file_pass: &mut FilePass,
    ranges: &RangeTable,
    range_pass: &mut RangePass,
    file: usize,
) -> Result<FileTold, Memory>
    requires tables { (file_pass.old.table ≡ files.now) × (range_pass.old.table ≡ ranges.now) }
    requires first { AreFirst file_pass.old range_pass.old }
    requires all_in { AllIn file_pass.old.view × AllIn range_pass.old.view }
    requires file { (file < files.now.slots) × (file < ranges.now.slots) }
    ensures reread { AreReread file_pass.old range_pass.old file_pass.new range_pass.new }
    ensures others { (f : ℕ) → f ≢ file → log_seen range_pass.new f ≡ log_seen range_pass.old f }
    ensures read { IfOk result (λ t. IsRead file_pass.new range_pass.new file) }
    ensures told { IfOk result (IsFileTold (history_seen file_pass.new) (log_seen range_pass.new) file) }
{
    let marks = files.marks(rt, alloc, file_pass, file)?.marks;
    let log = ranges.log_of(rt, alloc, range_pass, file)?;
    Ok(FileTold { marks, log })
}

// What is told of all files.
pub(crate) fn tell_files<R: Wait>(
    rt: &R,
    alloc: Global,
    files: &FileTable,
    file_pass: &mut FilePass,
    ranges: &RangeTable,
    range_pass: &mut RangePass,
) -> Result<List<FileTold>, Memory>
    requires tables { (file_pass.old.table ≡ files.now) × (range_pass.old.table ≡ ranges.now) }
    requires first { AreFirst file_pass.old range_pass.old }
    requires all_in { AllIn file_pass.old.view × AllIn range_pass.old.view }
    requires count { files.now.slots ≡ files_of range_pass.old.view }
    ensures reread { AreReread file_pass.old range_pass.old file_pass.new range_pass.new }
    ensures read { IfOk result (λ t. AreRead file_pass.new range_pass.new files.now.slots) }
    ensures told { IfOk result (AreFilesTold (history_seen file_pass.new) (log_seen range_pass.new) files.now.slots) }
{
    range_pass.sound();
    let mut told = List::new(alloc);
    let count = files.count();
    for file in 0..count {
        let one = tell_file(
            rt,
            alloc,
            files,
            file_pass,
            ranges,
            range_pass,
            file as usize,
        )?;
        told.push(one)?;
    }
    Ok(told)
}
