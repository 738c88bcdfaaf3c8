ghost use Rattle.std.specs.Prelude.{◌≡◌, ◌<◌, ◌≤◌, ◌+◌, ◌*◌, None, Some, Ok, Err, length, IfSome, min};
ghost use Rattle.page_map.specs.Window.{range_size, max_chunks};
ghost use Rattle.guest_io.specs.Holds.{max_holds, granted_at, start_of, refused_one, granted_one, released_one, FindsHold};

use crate::calls::Refusal;
use crate::guest::{Granted, Holds, MAX_HOLDS};
use page_map::RANGE_SIZE;

// Where a hold on a chunk ends in the file: at the chunk's end, or at the size that was noted.
pub(crate) fn end_of(chunk: u32, noted: u64) -> u64
    requires { chunk < max_chunks }
    ensures { result ≡ min (range_size * (chunk + 1)) noted }
{
    let end = (u64::from(chunk) + 1) * RANGE_SIZE;
    if noted < end { noted } else { end }
}

impl Holds {
    // The hold of this number, where it is granted.
    pub(crate) fn granted(&self, hold: u32) -> Option<Granted>
        requires many { length self.now.slots ≡ max_holds }
        ensures { result ≡ granted_at self.now hold }
    {
        if hold < MAX_HOLDS {
            return self.slots[hold as usize];
        }
        None
    }

    // One more was asked for, and refused.
    pub(crate) fn refuse(&mut self)
        requires few { self.old.asked < max_holds }
        ensures { self.new ≡ refused_one self.old }
    {
        self.asked += 1;
    }

    // One more was asked for, and granted.
    pub(crate) fn grant(&mut self, granted: Granted)
        requires few { self.old.asked < max_holds }
        requires many { length self.old.slots ≡ max_holds }
        ensures { self.new ≡ granted_one self.old granted }
    {
        self.slots[self.asked as usize] = Some(granted);
        self.asked += 1;
    }

    // The hold of this number isn't granted any more.
    pub(crate) fn take_out(&mut self, hold: u32)
        requires few { hold < max_holds }
        requires many { length self.old.slots ≡ max_holds }
        ensures { self.new ≡ released_one self.old hold }
    {
        self.slots[hold as usize] = None;
    }

    // The hold through which so many bytes are reached from this offset in its chunk on.
    pub(crate) fn find(&self, hold: u32, off: u64, len: u64) -> Result<Granted, Refusal>
        requires many { length self.now.slots ≡ max_holds }
        requires small { IfSome (granted_at self.now hold) (λ g. g.chunk < max_chunks) }
        requires within { off + len ≤ range_size }
        ensures { FindsHold self.now hold off len result }
    {
        match self.granted(hold) {
            None => Err(Refusal::NoHold { hold }),
            Some(granted) => {
                let end = granted.start() + off + len;
                if end > granted.end {
                    return Err(Refusal::Past { end: granted.end });
                }
                Ok(granted)
            }
        }
    }
}

impl Granted {
    // The file's byte at which its chunk begins.
    pub(crate) fn start(&self) -> u64
        requires { self.now.chunk < max_chunks }
        ensures { result ≡ start_of self.now }
    {
        u64::from(self.chunk) * RANGE_SIZE
    }
}
