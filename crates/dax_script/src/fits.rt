//! Whether a script keeps the limits of scripts.

ghost use Rattle.std.specs.Prelude.{◌≡◌, ◌+◌, ◌-◌, ◌^◌, ◌≤◌, ◌<◌, ◌==◌, ◌&&◌, ◌||◌, [], ◌++◌, not, min, slice_get, nat_le, nat_lt, take, true, length};
ghost use Rattle.std.specs.List.{list_all, sum_by};
ghost use Rattle.plain_file.specs.Limits.{max_transfer};
ghost use Rattle.dax_script.specs.Totals.{modes_of};
ghost use Rattle.dax_script.specs.ScriptWords.{is_ranges, is_writing};
ghost use Rattle.dax_script.specs.ScriptText.{are_few, has_window, moved, max_background};
ghost use Rattle.dax_script.specs.Fits.{are_bytes, is_within, call_fits, calls_fit, file_fits, files_fit, fits};

use crate::CHUNK;
use crate::readings::{held_mode, moved_by};
use crate::scripts::{Call, FileLine, Script};
use crate::word_reads::{is_script_name, is_taken, is_written};
use page_map::Mode;
use plain_file::{List, MAX_FILE, MAX_FILES, MAX_TRANSFER};

const MAX_HOLDS: usize = 32;

impl Script {
    /// Whether the script keeps the limits of scripts, as exactly those scripts do that some text gives
    /// ([`fits_is_what_texts_give`](crate::fits_is_what_texts_give)). Its printed form then reads as this
    /// script again. It takes no memory.
    #[tactic(auto, unfolding(crate::specs::Fits::fits))]
    pub fn fits(&self) -> bool
        ensures { result ≡ fits self.now }
    {
        let files = self.files.as_slice();
        let guests = self.guests.as_slice();
        heads_fit(self.ranges, self.background)
            && files.len() <= MAX_FILES as usize
            && files_fit(files)
            && guests.len() <= 16
            && guests_fit(files, self.ranges, guests)
            && are_few(guests)
    }
}

fn heads_fit(ranges: u32, background: u32) -> bool
    ensures { result ≡ is_ranges ranges && nat_le background max_background && (not (ranges == 0) || background == 0) }
{
    (ranges == 0 || 2 <= ranges && ranges <= 256)
        && background <= 65_536
        && (ranges != 0 || background == 0)
}

fn file_fits(file: &FileLine) -> bool
    ensures { result ≡ file_fits file.now }
{
    let _fill = file.first.fill;
    is_script_name(file.name.as_slice()) && file.first.size <= MAX_FILE
}

fn files_fit(files: &[FileLine]) -> bool
    ensures { result ≡ files_fit [] files.now }
{
    for (i, file) in files.iter().enumerate() {
        if !file_fits(file) {
            return false;
        }
        if is_taken(files.split_at(i).0, file.name.as_slice()) {
            return false;
        }
    }
    true
}

fn is_within(room: u64, off: u64, len: usize) -> bool
    requires { room < 2 ^ 32 }
    ensures { result ≡ is_within room off len }
{
    1 <= len && len <= MAX_TRANSFER as usize && off <= room && off + len as u64 <= room
}

#[tactic(auto, unfolding(crate::specs::Fits::call_fits))]
fn call_fits(files: &[FileLine], held: &[Mode], call: &Call) -> bool
    ensures { result ≡ call_fits files.now held.now call.now }
{
    match call {
        Call::Read { file, off, len } => {
            (*file as usize) < files.len() && is_within(MAX_FILE, *off, *len as usize)
        }
        Call::Write { file, off, bytes } => {
            (*file as usize) < files.len()
                && is_within(MAX_FILE, *off, bytes.len())
                && are_bytes(bytes.as_slice())
        }
        Call::Fill {
            file,
            off,
            len,
            byte,
        } => {
            let _byte = *byte;
            (*file as usize) < files.len() && is_within(MAX_FILE, *off, *len as usize)
        }
        Call::Size { file } => (*file as usize) < files.len(),
        Call::Truncate { file, size } => (*file as usize) < files.len() && *size <= MAX_FILE,
        Call::Hold { file, chunk, .. } => {
            (*file as usize) < files.len() && *chunk <= 31 && held.len() < MAX_HOLDS
        }
        Call::Load { hold, off, len } => {
            (*hold as usize) < held.len() && is_within(CHUNK, *off, *len as usize)
        }
        Call::Store { hold, off, bytes } => {
            is_writing(held, *hold)
                && is_within(CHUNK, *off, bytes.len())
                && are_bytes(bytes.as_slice())
        }
        Call::Release { hold } => (*hold as usize) < held.len(),
    }
}

// Bytes are below 256, whatever they are.
fn are_bytes(bytes: &[u8]) -> bool
    ensures { result ≡ are_bytes bytes.now }
{
    let _count = bytes.len();
    true
}

fn is_writing(held: &[Mode], hold: u32) -> bool
    ensures { result ≡ is_writing (slice_get held.now hold) }
{
    let place = hold as usize;
    place < held.len() && is_written(held[place])
}

// The calls of a guest, with the modes of those of its holds that stand before each.
fn calls_fit(files: &[FileLine], ranges: u32, calls: &[Call]) -> bool
    ensures { result ≡ calls_fit files.now ranges [] calls.now }
{
    let mut held = [Mode::R; MAX_HOLDS];
    let mut count = 0;
    for call in calls {
        if !may_come(files, ranges, held.split_at(count).0, call) {
            return false;
        }
        count = note_mode(&mut held, count, held_mode(call));
    }
    true
}

fn may_come(files: &[FileLine], ranges: u32, held: &[Mode], call: &Call) -> bool
    ensures { result ≡ call_fits files.now held.now call.now && has_window ranges call.now }
{
    call_fits(files, held, call) && !(call.is_hold() && ranges == 0)
}

// The modes with one more behind the first `count`.
fn note_mode(held: &mut [Mode; MAX_HOLDS], count: usize, mode: Option<Mode>) -> usize
    requires { count + length (modes_of mode) ≤ 32 }
    ensures modes { take result held.new ≡ take count held.old ++ modes_of mode }
    ensures most { result ≤ 32 }
{
    match mode {
        Some(mode) => {
            held[count] = mode;
            count + 1
        }
        None => count,
    }
}

fn guests_fit(files: &[FileLine], ranges: u32, guests: &[List<Call>]) -> bool
    ensures { result ≡ list_all (calls_fit files.now ranges []) guests.now }
{
    for calls in guests {
        if !calls_fit(files, ranges, calls.as_slice()) {
            return false;
        }
    }
    true
}

fn bytes_moved(calls: &[Call]) -> u64
    ensures { result ≡ min (moved calls.now) (2 ^ 64 - 1) }
{
    let mut bytes = 0u64;
    for call in calls {
        bytes = bytes.saturating_add(moved_by(call));
    }
    bytes
}

fn are_few(guests: &[List<Call>]) -> bool
    ensures { result ≡ are_few guests.now }
{
    let mut made = 0u64;
    let mut bytes = 0u64;
    for calls in guests {
        made = made.saturating_add(calls.len() as u64);
        bytes = bytes.saturating_add(bytes_moved(calls.as_slice()));
    }
    made <= 65_536 && bytes <= 67_108_864
}
