//! A small board of the tests, whose file others use too.
ghost use Rattle.std.specs.Prelude.{◌≡◌, ◌≢◌, ◌≤◌, ◌∷◌, [], ℕ, ◌==◌, ◌&&◌, if◌then◌else◌, true, false, None, Some, All, IfOk, not, IsTrue, length};
ghost use Rattle.plain_file.specs.File.{max_file, reach};
ghost use Rattle.plain_file.specs.Plain.{first_mark};
ghost use Rattle.plain_file.specs.History.{new_past};
ghost use Rattle.dax_host.specs.SharedBoards.{turn_file, turn_hands, turn_board, IsComing, Sees, falls};

use plain_file::{
    Applied, BoardRefusal, Body, Entry, FileBoard, FileTurns, First, Leased, List, Mark, Memory,
    Op, RefusedBar, Way,
};
use std::alloc::Global;
use std::marker::Model;
use std::sync::Wait;

/// A board of one file, on which entries of others come whenever its turn is taken, but while it is
/// leased.
#[derive(Drop)]
pub struct TurnFile {
    alloc: Global,
    guest: u32,
    mark: Mark,
    turn: bool,
    bar: bool,
    leases: u32,
    floor: Option<u64>,
    refusals: u64,
    refused: Option<RefusedBar>,
    body: Body,
    own: Vec<u64>,
    ready: bool,
    coming: Vec<Entry>,
}

impl Model for TurnFile {
    ghost use Rattle.plain_file.specs.Board.{BoardView};
    ghost use Rattle.dax_host.specs.SharedBoards.{turn_file, turn_hands, turn_board, IsTurnFile};

    ghost Value = { BoardView };

    ghost view = { λ t. turn_board t.guest t.mark (turn_hands t.turn t.bar t.leases) (turn_file t.body t.own.items t.ready t.floor t.refusals t.refused) };

    ghost invariant = { λ t. IsTurnFile t.guest t.bar t.leases t.floor t.body t.own.items t.coming.items };
}

impl TurnFile {
    /// The board of a guest, whose file has these first contents of at most `MAX_FILE` bytes.
    pub fn new(alloc: Global, guest: u32, first: First) -> Result<TurnFile, Memory>
        requires { first.size ≤ max_file }
        ensures { IfOk result (λ b. b ≡ turn_board guest first_mark (turn_hands false false 0) (turn_file (new_past first) [] false None 0 None)) }
    {
        Ok(TurnFile {
            alloc,
            guest,
            mark: Mark {
                call: 0,
                way: Way::Req,
            },
            turn: false,
            bar: false,
            leases: 0,
            floor: None,
            refusals: 0,
            refused: None,
            body: Body::new(alloc, first)?,
            own: Vec::new(alloc),
            ready: false,
            coming: Vec::new(alloc),
        })
    }

    /// Another guest's entry, which will come before those that were added earlier.
    pub fn add(&mut self, entry: Entry) -> Result<(), Memory>
        requires others { entry.guest ≢ self.old.guest }
        requires fits { reach entry.op ≤ max_file }
        ensures { self.new ≡ self.old }
    {
        self.coming.push(entry)?;
        Ok(())
    }

    /// The whole history, as far as it was seen.
    pub fn history(&self) -> &List<Entry> {
        self.body.history()
    }
}

// Applies the entry that comes next, if memory is found, and tells whether one was applied.
fn see_next(alloc: Global, guest: u32, body: &mut Body, coming: &mut Vec<Entry>) -> bool
    requires { All (IsComing guest) coming.old.items }
    ensures coming { All (IsComing guest) coming.new.items }
    ensures seen { Sees guest body.old body.new }
{
    match coming.pop() {
        Some(entry) => body.apply(alloc, entry).is_ok(),
        None => false,
    }
}

// Applies the entries that come.
fn see_all(alloc: Global, guest: u32, body: &mut Body, coming: &mut Vec<Entry>)
    requires { All (IsComing guest) coming.old.items }
    ensures coming { All (IsComing guest) coming.new.items }
    ensures seen { Sees guest body.old body.new }
{
    for _ in 0..coming.len() {
        if !see_next(alloc, guest, body, coming) {
            break;
        }
    }
}

// Applies the entries that come, unless the file is leased.
fn see_unless(leased: bool, alloc: Global, guest: u32, body: &mut Body, coming: &mut Vec<Entry>)
    requires { All (IsComing guest) coming.old.items }
    ensures coming { All (IsComing guest) coming.new.items }
    ensures seen { Sees guest body.old body.new }
    ensures leased { leased ≡ true → body.new ≡ body.old }
{
    if !leased {
        see_all(alloc, guest, body, coming);
    }
}

// Whether an operation lowers the file's size.
#[tactic(auto, unfolding(plain_file::specs::File::after), using(crate::proofs::SharedBoards::none_falls))]
fn lowers(body: &Body, op: &Op) -> bool
    requires { reach op.now ≤ max_file }
    ensures { result ≡ falls body.now op.now }
{
    match op {
        Op::Truncate { size } => *size < body.size(),
        Op::Read { .. } | Op::Write { .. } | Op::Size => false,
    }
}

// Whether an operation is refused for want of the bar.
fn refuses(bar: bool, body: &Body, op: &Op) -> bool
    requires { reach op.now ≤ max_file }
    ensures { result ≡ (not bar && falls body.now op.now) }
{
    !bar && lowers(body, op)
}

// The size that leases noted, of which one is given back.
fn kept_floor(leases: u32, floor: Option<u64>) -> Option<u64>
    ensures { result ≡ (if leases == 1 then None else floor) }
{
    if leases == 1 { None } else { floor }
}

impl FileBoard for TurnFile {
    ghost board = { λ b. b };

    fn mark(&mut self, call: u32, way: Way) {
        self.mark = Mark { call, way };
    }

    fn apply(&mut self, alloc: Global, _file: u32, op: Op) -> Result<Applied, BoardRefusal> {
        if refuses(self.bar, &self.body, &op) {
            return Err(BoardRefusal::Unbarred {
                size: self.body.size(),
            });
        }
        let entry = Entry {
            guest: self.guest,
            call: self.mark.call,
            op,
            way: self.mark.way,
        };
        self.own.reserve(1).map_err(|_| BoardRefusal::Memory)?;
        let applied = self.body.apply(alloc, entry)?;
        self.own.push(applied.place).unwrap();
        self.ready = false;
        Ok(applied)
    }

    fn size_now(&mut self, _file: u32) -> u64 {
        self.body.size()
    }

    fn read_into(&self, _file: u32, off: u64, out: &mut [u8]) -> usize {
        self.body.read_into(off, out)
    }

    fn count(&self) -> u32 {
        let _ = &self.body;
        1
    }

    fn own_last(&self, _file: u32) -> Option<u64> {
        self.own.last().copied()
    }

    fn sound(&self, _file: u32) {
        self.body.size();
    }
}

impl FileTurns for TurnFile {
    fn enter<R: Wait>(&mut self, _rt: &R, _file: u32) {
        see_unless(
            self.leases > 0,
            self.alloc,
            self.guest,
            &mut self.body,
            &mut self.coming,
        );
        self.turn = true;
        self.ready = true;
    }

    fn leave(&mut self, _file: u32) {
        self.turn = false;
        self.ready = false;
    }

    fn lease<R: Wait>(&mut self, _rt: &R, _file: u32) -> u64 {
        let size = self.body.size();
        self.floor = Some(size);
        self.leases += 1;
        size
    }

    fn unlease(&mut self, _file: u32) {
        self.floor = kept_floor(self.leases, self.floor);
        self.leases -= 1;
    }

    fn bar<R: Wait>(&mut self, _rt: &R, _file: u32) -> Result<(), Leased> {
        let own = self.leases;
        if own > 0 {
            self.refusals = self.refusals.saturating_add(1);
            self.refused = Some(RefusedBar { count: own, own });
            return Err(Leased { count: own });
        }
        self.bar = true;
        Ok(())
    }

    fn unbar(&mut self, _file: u32) {
        self.bar = false;
    }
}
