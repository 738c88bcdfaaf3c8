ghost use Rattle.std.specs.Prelude.{◌≡◌, length};
ghost use Rattle.vring.specs.Driver.{driver_layout, IsQueueSize};

use super::*;

// A driver's side of 100 bytes a part, with its memory.
#[derive(Drop)]
struct Offering {
    mem: GuestMem,
    driver: DriverRing,
    ghost fits: { length mem ≡ (driver_layout driver.size driver.part).memory },
    ghost part_is: { driver.part ≡ 100 },
}

impl Offering {
    fn new(alloc: Global, size: u16) -> Result<Offering, Memory>
        requires { IsQueueSize size }
    {
        let (driver, mem) = DriverRing::new(alloc, size, 100)?;
        Ok(Offering { mem, driver })
    }

    fn offer(&mut self, rt: &impl Abort, readable: &[u8], room: u32) {
        assert!(rt; self.driver.room().is_none());
        assert!(rt; readable.len() <= 100 && room <= 100);
        assert!(rt; self.driver.offer(&mut self.mem, readable, room) == 0);
    }
}

impl Offering {
    // The numbers of chains that were offered and taken back, and the room of the one that is offered.
    fn is_at(&self, rt: &impl Abort, offered: u16, taken: u16, room: Option<u32>) {
        assert!(rt; self.driver.offered() == offered && self.driver.taken() == taken);
        assert!(rt; self.driver.room() == room);
    }

    fn takes(&mut self, rt: &impl Abort, wanted: Result<Option<Used>, BadUsed>) {
        assert_eq!(rt; self.driver.take_used(&self.mem), wanted);
    }

    // The device writes three bytes, and hands the chain back.
    fn hand_back(&mut self, rt: &impl Abort) -> Result<(), Fail> {
        self.mem.write(228, b"xyz")?;
        self.mem.write(90, &[1, 0, 0, 0, 0, 0, 3, 0, 0, 0])?;
        self.takes(rt, Ok(Some(Used { head: 0, len: 3 })));
        assert!(rt; self.driver.written(&self.mem, 3) == b"xyz".as_slice());
        assert!(rt; self.driver.written(&self.mem, 0).is_empty());
        Ok(())
    }
}

// At size 4 the available ring is at 64, the used ring at 88, what is read at 128, and the room 100
// bytes behind it: what stands there when "abc" is offered with room for 7 bytes.
const OFFERED: [(usize, &str); 4] = [
    (0, "8000000000000000 03000000 0100 0100"),
    (16, "e400000000000000 07000000 0200 0000"),
    (64, "0000 0100 0000 0000"),
    (128, "616263 00"),
];

// Then nothing is offered without room. Its entries are the next ones, whatever stands there.
const OFFERED_AGAIN: [(usize, &str); 4] = [
    (64, "0909 0200 0909 0000"),
    (8, "00000000 0100 0100"),
    (24, "00000000 0200 0000"),
    (128, "616263 00"),
];

#[test]
fn offers_by_exact_bytes(rt: HostRuntime) -> Result<(), Fail> {
    powers_of_two_are_queue_sizes();
    let alloc = rt.alloc();
    let mut side = Offering::new(alloc, 4)?;
    assert!(rt; side.driver.device() == (0, 64, 88) && side.driver.size() == 4);
    assert!(rt; side.driver.part() == 100);
    assert!(rt; side.mem.len() == 328 && side.mem.as_slice().iter().all(|b| *b == 0));
    side.is_at(&rt, 0, 0, None);
    side.offer(&rt, b"abc", 7);
    has(&rt, alloc, &side.mem, &OFFERED)?;
    side.is_at(&rt, 1, 0, Some(7));
    side.takes(&rt, Ok(None));
    side.hand_back(&rt)?;
    side.is_at(&rt, 1, 1, None);
    side.takes(&rt, Ok(None));
    side.mem.write(64, &[9; 8])?;
    side.offer(&rt, b"", 0);
    has(&rt, alloc, &side.mem, &OFFERED_AGAIN)
}

// With room for seven bytes, the used ring's index and its first entry's `id` and `len`, and what is taken.
type Entry = (u16, u32, u32, Result<Option<Used>, BadUsed>);

const ENTRIES: [Entry; 11] = [
    (0, 0, 7, Ok(None)),
    (0, 5, 8, Ok(None)),
    (1, 0, 0, Ok(Some(Used { head: 0, len: 0 }))),
    (1, 0, 7, Ok(Some(Used { head: 0, len: 7 }))),
    (2, 0, 7, Ok(Some(Used { head: 0, len: 7 }))),
    (65_535, 0, 7, Ok(Some(Used { head: 0, len: 7 }))),
    (1, 0, 8, Err(BadUsed { id: 0, len: 8 })),
    (
        1,
        0,
        u32::MAX,
        Err(BadUsed {
            id: 0,
            len: u32::MAX,
        }),
    ),
    (1, 1, 7, Err(BadUsed { id: 1, len: 7 })),
    (1, 65_536, 7, Err(BadUsed { id: 65_536, len: 7 })),
    (65_535, 1, 8, Err(BadUsed { id: 1, len: 8 })),
];

#[test]
fn takes_its_own_chain_alone(rt: HostRuntime) -> Result<(), Fail> {
    powers_of_two_are_queue_sizes();
    for (index, id, len, wanted) in ENTRIES {
        let mut side = Offering::new(rt.alloc(), 4)?;
        side.offer(&rt, b"", 7);
        side.mem.write(90, &index.to_le_bytes())?;
        side.mem.write(92, &id.to_le_bytes())?;
        side.mem.write(96, &len.to_le_bytes())?;
        side.takes(&rt, wanted);
        if matches!(wanted, Ok(Some(_))) {
            side.is_at(&rt, 1, 1, None);
        } else {
            side.takes(&rt, wanted);
            side.is_at(&rt, 1, 0, Some(7));
        }
    }
    // Nothing is offered, so no entry is right.
    let mut side = Offering::new(rt.alloc(), 4)?;
    side.mem.write(90, &[1, 0])?;
    let bad = BadUsed { id: 0, len: 0 };
    side.takes(&rt, Err(bad));
    side.takes(&rt, Err(bad));
    side.is_at(&rt, 0, 0, None);
    Ok(())
}

// Both sides over one memory.
#[derive(Drop)]
struct Both {
    mem: GuestMem,
    driver: DriverRing,
    ring: Ring,
    ghost driver_fits: { length mem ≡ (driver_layout driver.size driver.part).memory },
    ghost part_is: { driver.part ≡ 100 },
    ghost ring_fits: { length mem ≡ ring.layout.memory },
}

impl Both {
    fn new(rt: &impl Abort, alloc: Global, size: u16) -> Result<Both, Fail>
        requires { IsQueueSize size }
    {
        let (driver, mem) = DriverRing::new(alloc, size, 100)?;
        let (desc, avail, used) = driver.device();
        match Ring::new(size, 0, desc, avail, used, &mem) {
            Some(ring) => Ok(Both { mem, driver, ring }),
            None => panic!(rt; "no ring of size {size}"),
        }
    }

    // Offers a chain, which is answered with the same bytes and one more.
    fn round(&mut self, rt: &impl Abort, alloc: Global, bytes: &[u8]) -> Result<(), Fail> {
        assert!(rt; self.driver.room().is_none() && bytes.len() < 100);
        self.driver.offer(&mut self.mem, bytes, 100);
        let chain = match self.ring.pop(alloc, &self.mem)? {
            Some(chain) => chain,
            None => panic!(rt; "no chain"),
        };
        let mut reply = gather(alloc, &self.mem, &chain)?;
        assert!(rt; reply.as_slice() == bytes);
        reply.push(b'!')?;
        match scatter(&mut self.mem, &chain, reply.as_slice()) {
            Ok(len) => self.ring.push_used(&mut self.mem, chain.head, len),
            Err(NoRoom { room }) => panic!(rt; "room for {room} bytes"),
        }
        let len = reply.len() as u32;
        assert!(rt; self.driver.take_used(&self.mem) == Ok(Some(Used { head: 0, len })));
        assert!(rt; len <= 100 && self.driver.written(&self.mem, len) == reply.as_slice());
        assert!(rt; self.driver.offered() == self.ring.seen());
        assert!(rt; self.driver.taken() == self.ring.used_index());
        Ok(())
    }
}

#[test]
fn both_sides_exchange_chains(rt: HostRuntime) -> Result<(), Fail> {
    for size in [4u16, 8, 16, 32, 64, 128, 256, 512, 1024] {
        assert!(rt; 4 <= size && size <= 1024 && size.is_power_of_two());
        let mut both = Both::new(&rt, rt.alloc(), size)?;
        for bytes in [b"".as_slice(), b"a", b"hello", b"hello, again"] {
            both.round(&rt, rt.alloc(), bytes)?;
        }
        assert!(rt; both.driver.offered() == 4);
    }
    // Through the wrap of the indices.
    powers_of_two_are_queue_sizes();
    let mut both = Both::new(&rt, rt.alloc(), 4)?;
    for count in 0u32..65_540 {
        both.round(&rt, rt.alloc(), &count.to_le_bytes())?;
    }
    assert!(rt; both.driver.offered() == 4 && both.ring.seen() == 4);
    Ok(())
}

#[test]
fn errors_have_texts(rt: HostRuntime) -> Result<(), Fail> {
    let alloc = rt.alloc();
    let outside = Outside { addr: 7, len: 2 };
    let room = NoRoom { room: 3 };
    let bad = BadUsed { id: 1, len: 2 };
    let text = format!(in alloc; "{outside}; {room}; {bad}; {}", PopError::Memory)?;
    let wanted =
        "2 bytes at 7 are outside the memory; the chain has room for 3 bytes; the used entry of 1 with 2 bytes isn't of the chain that was offered; out of memory";
    assert_eq!(rt; text.as_str(), wanted);
    Ok(())
}
