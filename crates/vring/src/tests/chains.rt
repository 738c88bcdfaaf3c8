ghost use Rattle.std.specs.Prelude.{◌≡◌, length};
ghost use Rattle.vring.specs.Chain.{ChainLiesIn};

use super::*;

// Address, length, flags and next of a descriptor.
type Row = (u64, u32, u16, u16);

// The flags of a row, alone and together.
const NEXT: u16 = 1;

const WRITE: u16 = 2;

const BOTH: u16 = 3;

const INDIRECT: u16 = 4;

// A device's side with its memory, and the chain that it popped last.
#[derive(Drop)]
struct Device {
    mem: GuestMem,
    ring: Ring,
    chain: Chain,
    ghost fits: { length mem ≡ ring.layout.memory },
    ghost lies: { ChainLiesIn (length mem) chain },
}

impl Device {
    // A ring from `start` on in a memory of so many bytes, all 0: the table at 0, the available
    // ring behind it, and the used ring 8 bytes behind 20 a descriptor.
    #[tactic(auto, unfolding(crate::specs::Pieces::total))]
    fn new(
        rt: &impl Abort,
        alloc: Global,
        size: u16,
        start: u16,
        len: usize,
    ) -> Result<Device, Fail> {
        assert!(rt; len <= 2_400_000);
        let mem = zeros(alloc, len)?;
        let places = size as u64;
        match Ring::new(size, start, 0, 16 * places, 20 * places + 8, &mem) {
            Some(ring) => Ok(Device {
                mem,
                ring,
                chain: Chain::new(alloc),
            }),
            None => panic!(rt; "no ring of size {size} in {len} bytes"),
        }
    }

    // Writes the descriptor at an index of the table.
    fn row(&mut self, index: u16, row: Row) -> Result<(), Outside> {
        let (addr, len, flags, next) = row;
        let at = 16 * index as u64;
        self.mem.write(at, &addr.to_le_bytes())?;
        self.mem.write(at + 8, &len.to_le_bytes())?;
        self.mem.write(at + 12, &flags.to_le_bytes())?;
        self.mem.write(at + 14, &next.to_le_bytes())
    }

    fn pop_into(&mut self, chain: &mut Chain) -> Result<bool, PopError> {
        self.ring.pop_into(&self.mem, chain)
    }

    // Pops, and says what was: the chain, that there is none, or the fault.
    fn pop(&mut self, alloc: Global) -> Result<String, Fail> {
        match self.ring.pop(alloc, &self.mem) {
            Ok(Some(chain)) => {
                self.chain = chain;
                shown(alloc, &self.chain)
            }
            Ok(None) => Ok(format!(in alloc; "none")?),
            Err(e) => Ok(format!(in alloc; "{e}")?),
        }
    }
}

impl Device {
    fn pops(&mut self, rt: &impl Abort, alloc: Global, wanted: &str) -> Result<(), Fail> {
        assert_eq!(rt; self.pop(alloc)?.as_str(), wanted);
        Ok(())
    }
}

// The head, then the readable pieces and the writable ones, each behind their sum.
fn shown(alloc: Global, chain: &Chain) -> Result<String, Fail> {
    let mut text = format!(in alloc; "{} r{}", chain.head, chain.readable.sum())?;
    put_pieces(alloc, &mut text, chain.readable.as_slice())?;
    text.push_str(format!(in alloc; " w{}", chain.writable.sum())?.as_str())?;
    put_pieces(alloc, &mut text, chain.writable.as_slice())?;
    Ok(text)
}

fn put_pieces(alloc: Global, text: &mut String, pieces: &[Piece]) -> Result<(), Fail> {
    for piece in pieces {
        text.push_str(format!(in alloc; " {}+{}", piece.addr, piece.len)?.as_str())?;
    }
    Ok(())
}

// How long a memory with a ring of size 8 is, the available index, the first head, the descriptors from 0
// on, and what is popped. Both sums are looked at behind the last descriptor alone, the readable one first.
type Case = (usize, u16, u16, &'static [Row], &'static str);

const CASES: [Case; 32] = [
    // one to read, whose next is nothing
    (4096, 1, 0, &[(1000, 4, 0, 8)], "0 r4 1000+4 w0"),
    // one to write, with all flags that have no meaning
    (4096, 1, 0, &[(1000, 4, 0xfffa, 8)], "0 r0 w4 1000+4"),
    // no bytes at the memory's end
    (
        4096,
        1,
        0,
        &[(4096, 0, NEXT, 1), (4096, 0, WRITE, 0)],
        "0 r0 4096+0 w0 4096+0",
    ),
    // the whole memory twice
    (
        4096,
        1,
        0,
        &[(0, 4096, NEXT, 1), (0, 4096, WRITE, 0)],
        "0 r4096 0+4096 w4096 0+4096",
    ),
    // all eight, backwards
    (
        4096,
        1,
        7,
        &[
            (1000, 1, WRITE, 0),
            (1001, 2, BOTH, 0),
            (1002, 3, BOTH, 1),
            (1003, 4, NEXT, 2),
            (1004, 5, NEXT, 3),
            (1005, 6, NEXT, 4),
            (1006, 7, NEXT, 5),
            (1007, 8, NEXT, 6),
        ],
        "7 r30 1007+8 1006+7 1005+6 1004+5 1003+4 w6 1002+3 1001+2 1000+1",
    ),
    // the longest parts
    (
        1052672,
        1,
        0,
        &[
            (0, 1_052_672, NEXT, 1),
            (0, 1_052_671, BOTH, 2),
            (9, 1, WRITE, 0),
        ],
        "0 r1052672 0+1052672 w1052672 0+1052671 9+1",
    ),
    // nine ahead
    (
        4096,
        9,
        0,
        &[(1000, 4, 0, 0)],
        "the available index is 9 ahead",
    ),
    // nine ahead, and no such head
    (4096, 9, 8, &[], "the available index is 9 ahead"),
    // one behind
    (
        4096,
        65535,
        0,
        &[(1000, 4, 0, 0)],
        "the available index is 65535 ahead",
    ),
    // the head is 8
    (4096, 1, 8, &[], "there is no descriptor 8"),
    // the head is 65,535
    (4096, 8, 65535, &[], "there is no descriptor 65535"),
    // next is 8
    (
        4096,
        1,
        0,
        &[(1000, 4, NEXT, 8)],
        "there is no descriptor 8",
    ),
    // indirect
    (
        4096,
        1,
        0,
        &[(1000, 4, INDIRECT, 0)],
        "descriptor 0 is indirect",
    ),
    // indirect, outside, and next is 8
    (
        4096,
        1,
        0,
        &[(1 << 40, 4, INDIRECT | NEXT, 8)],
        "descriptor 0 is indirect",
    ),
    // a readable one behind a writable one
    (
        4096,
        1,
        0,
        &[(1000, 4, BOTH, 1), (1000, 4, 0, 0)],
        "descriptor 1 is readable behind a writable one",
    ),
    // a readable one behind both kinds
    (
        4096,
        1,
        4,
        &[
            (1, 4, 0, 0),
            (1, 4, 0, 0),
            (1, 4, BOTH, 3),
            (1, 4, NEXT, 0),
            (1, 4, NEXT, 2),
        ],
        "descriptor 3 is readable behind a writable one",
    ),
    // an indirect readable one behind a writable one
    (
        4096,
        1,
        0,
        &[(1000, 4, BOTH, 1), (1000, 4, INDIRECT, 0)],
        "descriptor 1 is indirect",
    ),
    // a readable one behind a writable one, and outside
    (
        4096,
        1,
        0,
        &[(1000, 0, BOTH, 1), (4097, 0, 0, 0)],
        "descriptor 1 is readable behind a writable one",
    ),
    // one byte at the memory's end
    (
        4096,
        1,
        0,
        &[(4096, 1, 0, 0)],
        "1 bytes at 4096 are outside the memory",
    ),
    // one byte too long
    (
        4096,
        1,
        0,
        &[(4000, 96, NEXT, 1), (4000, 97, WRITE, 0)],
        "97 bytes at 4000 are outside the memory",
    ),
    // no bytes behind the memory's end
    (
        4096,
        1,
        0,
        &[(4097, 0, 0, 0)],
        "0 bytes at 4097 are outside the memory",
    ),
    // the last address and the longest length
    (
        4096,
        1,
        0,
        &[(u64::MAX, u32::MAX, 0, 0)],
        "4294967295 bytes at 18446744073709551615 are outside the memory",
    ),
    // outside, and next is 8
    (
        4096,
        1,
        0,
        &[(4096, 1, NEXT, 8)],
        "1 bytes at 4096 are outside the memory",
    ),
    // a loop of one
    (4096, 1, 0, &[(1000, 4, NEXT, 0)], "the chain doesn't end"),
    // a loop of two behind another
    (
        4096,
        1,
        2,
        &[(1000, 4, BOTH, 1), (1000, 4, BOTH, 0), (1000, 4, NEXT, 0)],
        "the chain doesn't end",
    ),
    // a fault in a loop
    (
        4096,
        1,
        0,
        &[(1000, 4, NEXT, 1), (1000, 4, NEXT | INDIRECT, 0)],
        "descriptor 1 is indirect",
    ),
    // a loop that comes back to a readable one
    (
        4096,
        1,
        0,
        &[(1000, 4, NEXT, 1), (1000, 4, BOTH, 0)],
        "descriptor 0 is readable behind a writable one",
    ),
    // the same MiB twice
    (
        2097152,
        1,
        0,
        &[(0, 1_048_576, NEXT, 1), (0, 1_048_576, 0, 0)],
        "a part of 2097152 bytes is too long",
    ),
    // one byte too many to read
    (
        2097152,
        1,
        0,
        &[(0, 1_052_673, NEXT, 1), (0, 1_052_674, WRITE, 0)],
        "a part of 1052673 bytes is too long",
    ),
    // one byte too many to write
    (
        2097152,
        1,
        0,
        &[
            (0, 1_052_672, NEXT, 1),
            (0, 1_052_672, BOTH, 2),
            (9, 1, WRITE, 0),
        ],
        "a part of 1052673 bytes is too long",
    ),
    // too long, and next is 8
    (
        2097152,
        1,
        0,
        &[(0, 1_052_673, NEXT, 8)],
        "there is no descriptor 8",
    ),
    // too long, and a loop
    (
        2097152,
        1,
        0,
        &[(0, 1_052_673, NEXT, 0)],
        "the chain doesn't end",
    ),
];

// Asserts what is popped. The call after it finds nothing more, or the same fault, and the memory is as it
// was.
fn check_case(rt: &impl Abort, alloc: Global, case: Case) -> Result<(), Fail> {
    let (len, available, head, rows, wanted) = case;
    let mut device = Device::new(rt, alloc, 8, 0, len)?;
    device.pops(rt, alloc, "none")?;
    let mut index = 0u16;
    for row in rows.iter().copied() {
        device.row(index, row)?;
        index = index.wrapping_add(1);
    }
    device.mem.write(130, &available.to_le_bytes())?;
    device.mem.write(132, &head.to_le_bytes())?;
    let before = Blob::copy_of(alloc, device.mem.as_slice())?;
    device.pops(rt, alloc, wanted)?;
    if device.ring.seen() == 0 {
        device.pops(rt, alloc, wanted)?;
    } else {
        device.pops(rt, alloc, "none")?;
    }
    assert!(rt; device.ring.used_index() == 0 && device.mem.as_slice() == before.as_slice());
    Ok(())
}

#[test]
fn pops_what_stands_in_the_memory(rt: HostRuntime) -> Result<(), Fail> {
    for case in CASES {
        check_case(&rt, rt.alloc(), case)?;
    }
    Ok(())
}

// What is done with a ring of size 8 in a memory of 2,000 bytes.
#[derive(Clone, Copy)]
enum Step {
    // writes bytes at an address
    Put(u64, &'static str),
    // writes a descriptor
    Descriptor(u16, Row),
    // pops this
    Pop(&'static str),
    // gathers these bytes
    Gather(&'static str),
    // scatters so many of these bytes, which is answered so
    Scatter(&'static str, Result<u32, NoRoom>),
    // hands a chain with this head and length back
    Push(u16, u32),
    // the memory has these bytes from a place on
    Has(usize, &'static str),
    // the seen and the used index
    Counts(u16, u16),
}

impl Device {
    fn step(&mut self, rt: &impl Abort, alloc: Global, step: Step) -> Result<(), Fail> {
        match step {
            Step::Put(at, text) => Ok(self.mem.write(at, &bytes_of(alloc, text)?)?),
            Step::Descriptor(index, row) => Ok(self.row(index, row)?),
            Step::Pop(wanted) => self.pops(rt, alloc, wanted),
            Step::Gather(text) => self.gather(rt, alloc, text),
            Step::Scatter(text, wanted) => self.scatter(rt, alloc, text, wanted),
            Step::Push(head, len) => {
                self.ring.push_used(&mut self.mem, head, len);
                Ok(())
            }
            Step::Has(at, text) => has(rt, alloc, &self.mem, &[(at, text)]),
            Step::Counts(seen, used) => {
                assert!(rt; self.ring.seen() == seen && self.ring.used_index() == used);
                Ok(())
            }
        }
    }

    // Asserts which bytes the chain has to read, alone and twice behind others.
    fn gather(&self, rt: &impl Abort, alloc: Global, text: &str) -> Result<(), Fail> {
        let gathered = gather(alloc, &self.mem, &self.chain)?;
        assert!(rt;
            bytes_of(alloc, text)?.as_slice() == gathered.as_slice(),
            "{text}"
        );
        let mut out = Vec::from_slice(alloc, b"xy")?;
        gather_into(&self.mem, &self.chain, &mut out)?;
        gather_into(&self.mem, &self.chain, &mut out)?;
        let wanted = format!(in alloc; "7879 {text} {text}")?;
        assert!(rt; bytes_of(alloc, wanted.as_str())? == out, "{text}");
        Ok(())
    }

    fn scatter(
        &mut self,
        rt: &impl Abort,
        alloc: Global,
        text: &str,
        wanted: Result<u32, NoRoom>,
    ) -> Result<(), Fail> {
        let bytes = bytes_of(alloc, text)?;
        assert!(rt;
            scatter(&mut self.mem, &self.chain, &bytes) == wanted,
            "{text}"
        );
        Ok(())
    }
}

// The bytes "abcdefgh--------" at 1000. Two pieces on the same bytes to read, and one of no bytes; then two
// that have two bytes in common to write.
const IN_ORDER: [Step; 29] = [
    Step::Descriptor(0, (1000, 3, NEXT, 1)),
    Step::Descriptor(1, (2000, 0, NEXT, 2)),
    Step::Descriptor(2, (1000, 3, NEXT, 3)),
    Step::Descriptor(3, (1007, 1, NEXT, 4)),
    Step::Descriptor(4, (1008, 4, BOTH, 5)),
    Step::Descriptor(5, (9, 0, BOTH, 6)),
    Step::Descriptor(6, (1010, 4, WRITE, 0)),
    Step::Put(130, "0100"),
    Step::Put(1000, "6162636465666768 2d2d2d2d2d2d2d2d"),
    Step::Pop("0 r7 1000+3 2000+0 1000+3 1007+1 w8 1008+4 9+0 1010+4"),
    Step::Gather("616263 616263 68"),
    Step::Scatter("", Ok(0)),
    Step::Has(1007, "68 2d2d2d2d2d2d2d2d"),
    Step::Put(1000, "6162636465666768 2d2d2d2d2d2d2d2d"),
    Step::Scatter("31", Ok(1)),
    Step::Has(1007, "68 312d2d2d2d2d2d2d"),
    Step::Put(1000, "6162636465666768 2d2d2d2d2d2d2d2d"),
    Step::Scatter("31323334", Ok(4)),
    Step::Has(1007, "68 313233342d2d2d2d"),
    Step::Put(1000, "6162636465666768 2d2d2d2d2d2d2d2d"),
    Step::Scatter("3132333435", Ok(5)),
    Step::Has(1007, "68 313235342d2d2d2d"),
    Step::Put(1000, "6162636465666768 2d2d2d2d2d2d2d2d"),
    Step::Scatter("3132333435363738", Ok(8)),
    Step::Has(1007, "68 3132353637382d2d"),
    Step::Put(1000, "6162636465666768 2d2d2d2d2d2d2d2d"),
    Step::Scatter("313233343536373839", Err(NoRoom { room: 8 })),
    Step::Has(1007, "68 2d2d2d2d2d2d2d2d"),
    Step::Counts(1, 0),
];

// The available ring's entries begin at 132, the used ring's at 172. The indices begin at 65,535.
const THROUGH_THE_WRAP: [Step; 18] = [
    Step::Put(130, "ffff"),
    Step::Pop("none"),
    Step::Descriptor(5, (1000, 3, 0, 0)),
    Step::Put(146, "0500"),
    Step::Put(130, "0000"),
    Step::Pop("5 r3 1000+3 w0"),
    Step::Counts(0, 65_535),
    Step::Pop("none"),
    Step::Push(5, 258),
    Step::Has(
        168,
        "00000000 0000000000000000 0000000000000000 0000000000000000 0000000000000000 0000000000000000 0000000000000000 0000000000000000",
    ),
    Step::Has(228, "05000000 02010000 00"),
    Step::Put(132, "0500"),
    Step::Put(130, "0100"),
    Step::Pop("5 r3 1000+3 w0"),
    Step::Counts(1, 0),
    Step::Push(0x0102, u32::MAX),
    Step::Has(168, "0000 0100 02010000 ffffffff 00"),
    Step::Has(228, "05000000 02010000 00"),
];

// As many chains as the ring has.
const ALL_EIGHT: [Step; 20] = [
    Step::Put(130, "0800 0300 0100 0400 0100 0500 0000 0200 0600"),
    Step::Pop("3 r0 0+0 w0"),
    Step::Pop("1 r0 0+0 w0"),
    Step::Pop("4 r0 0+0 w0"),
    Step::Pop("1 r0 0+0 w0"),
    Step::Pop("5 r0 0+0 w0"),
    Step::Pop("0 r0 0+0 w0"),
    Step::Pop("2 r0 0+0 w0"),
    Step::Pop("6 r0 0+0 w0"),
    Step::Pop("none"),
    Step::Push(0, 9),
    Step::Push(1, 9),
    Step::Push(2, 9),
    Step::Push(3, 9),
    Step::Push(4, 9),
    Step::Push(5, 9),
    Step::Push(6, 9),
    Step::Push(7, 9),
    Step::Has(168, "0000 0800 00000000 09000000 01000000 09000000"),
    Step::Has(228, "07000000 09000000 0000"),
];

// The device's indices are its own: a chain that writes over the used ring doesn't move them. It writes
// over descriptor 2 too, which then is another one, and another chain over the available index.
const OVER_THE_RINGS: [Step; 17] = [
    Step::Descriptor(0, (168, 16, BOTH, 1)),
    Step::Descriptor(1, (32, 16, WRITE, 0)),
    Step::Descriptor(2, (0, 0, INDIRECT, 0)),
    Step::Put(130, "0200 0000 0200"),
    Step::Pop("0 r0 w32 168+16 32+16"),
    Step::Scatter(
        "eeeeeeeeeeeeeeee eeeeeeeeeeeeeeee f401000000000000 0300000000000909",
        Ok(32),
    ),
    Step::Push(0, 32),
    Step::Has(168, "eeee 0100 00000000 20000000 eeeeeeee 0000"),
    Step::Pop("2 r3 500+3 w0"),
    Step::Push(2, 0),
    Step::Has(168, "eeee 0200"),
    Step::Has(180, "02000000 00000000"),
    Step::Descriptor(0, (130, 2, WRITE, 0)),
    Step::Put(130, "0300 0000 0000 0000"),
    Step::Pop("0 r0 w2 130+2"),
    Step::Scatter("0200", Ok(2)),
    Step::Pop("the available index is 65535 ahead"),
];

fn run(rt: &impl Abort, alloc: Global, start: u16, steps: &[Step]) -> Result<(), Fail> {
    let mut device = Device::new(rt, alloc, 8, start, 2000)?;
    for step in steps.iter().copied() {
        device.step(rt, alloc, step)?;
    }
    Ok(())
}

#[test]
fn hands_chains_over(rt: HostRuntime) -> Result<(), Fail> {
    run(&rt, rt.alloc(), 0, &IN_ORDER)?;
    run(&rt, rt.alloc(), 65_535, &THROUGH_THE_WRAP)?;
    run(&rt, rt.alloc(), 0, &ALL_EIGHT)?;
    run(&rt, rt.alloc(), 0, &OVER_THE_RINGS)
}

impl Device {
    // Piece `index` of so many, of one byte, from address 31,023 downwards.
    fn piece(&mut self, index: u16, count: u16) -> Result<(), Outside> {
        let addr = 31_023u64.wrapping_sub(index as u64);
        let next = index.wrapping_add(1);
        let flags = if next == count { 0 } else { NEXT };
        self.row(index, (addr, 1, flags, next))?;
        self.mem.write(addr, &[(index % 251) as u8])
    }
}

// Up to eight pieces need no memory of their own.
fn check_many(rt: &impl Abort, alloc: Global, count: u16) -> Result<(), Fail> {
    let mut device = Device::new(rt, alloc, 1024, 0, 32_000)?;
    let mut bytes = Vec::new(alloc);
    for index in 0..count {
        device.piece(index, count)?;
        bytes.push((index % 251) as u8)?;
    }
    device.mem.write(16_386, &[1, 0])?;
    device.pop(alloc)?;
    let pieces = &device.chain.readable;
    assert!(rt; pieces.len() == count as usize && pieces.sum() == count as u64);
    let gathered = gather(alloc, &device.mem, &device.chain)?;
    assert!(rt; gathered.as_slice() == bytes.as_slice(), "{count} pieces");
    Ok(())
}

#[test]
fn pops_chains_of_many_pieces(rt: HostRuntime) -> Result<(), Fail> {
    for count in [1, 2, 7, 8, 9, 100, 1023, 1024] {
        check_many(&rt, rt.alloc(), count)?;
    }
    Ok(())
}

#[test]
fn pops_into_one_chain_after_another(rt: HostRuntime) -> Result<(), Fail> {
    let alloc = rt.alloc();
    let mut device = Device::new(&rt, alloc, 1024, 0, 32_000)?;
    for index in 0..9 {
        device.piece(index, 9)?;
    }
    device.row(9, (1000, 7, WRITE, 0))?;
    device.row(10, (1000, 7, INDIRECT, 0))?;
    device.mem.write(16_386, &[3, 0, 0, 0, 9, 0, 10, 0])?;
    let mut chain = Chain::new(alloc);
    assert!(rt; chain.readable.is_empty() && chain.writable.is_empty());
    assert!(rt; device.pop_into(&mut chain) == Ok(true));
    assert!(rt; chain.readable.len() == 9 && chain.readable.sum() == 9);
    assert!(rt; device.pop_into(&mut chain) == Ok(true));
    assert_eq!(rt; shown(alloc, &chain)?.as_str(), "9 r0 w7 1000+7");
    let fault = Err(PopError::Fault(RingFault::Indirect { index: 10 }));
    assert!(rt; device.pop_into(&mut chain) == fault);
    assert!(rt; device.ring.seen() == 2);
    device.mem.write(16_386, &[2, 0])?;
    assert!(rt; device.pop_into(&mut chain) == Ok(false));
    Ok(())
}
