ghost use Rattle.std.specs.Prelude.{◌≡◌, length};
ghost use Rattle.file_share.specs.Boards.{board_of, Floored};

use crate::table::{FilePass, FileTable};
use plain_file::{Applied, BoardRefusal, FileBoard, FileTurns, Leased, Op, Way};
use std::alloc::Global;
use std::sync::Wait;

/// A pass on a table, as a board of files. Its calls wait where the pass's do.
#[derive(Drop)]
pub struct SharedFiles<'a> {
    /// The table.
    pub table: &'a FileTable,
    /// A pass of that table.
    pub pass: FilePass,
    /// The pass is the table's.
    pub ghost own: { pass.table ≡ table.now },
    /// It has a part for each file.
    pub ghost wide: { length pass.view.mine.files ≡ table.now.slots },
    /// The size that a lease of the pass noted isn't above its noted end.
    pub ghost floored: { Floored pass.view },
}

impl<'a> SharedFiles<'a> {
    /// A board over a table, by a pass of that table.
    pub fn new(table: &'a FileTable, pass: FilePass) -> SharedFiles<'a>
        requires own { pass.table ≡ table.now }
        requires floored { Floored pass.view }
        ensures table { result.table.now ≡ table.now }
        ensures pass { result.pass ≡ pass }
    {
        pass.sound();
        SharedFiles { table, pass }
    }
}

impl<'a> FileBoard for SharedFiles<'a> {
    ghost board = { λ b. board_of b.pass };

    fn mark(&mut self, call: u32, way: Way) {
        self.pass.mark(call, way);
    }

    fn apply(&mut self, alloc: Global, file: u32, op: Op) -> Result<Applied, BoardRefusal> {
        self.pass.apply(alloc, self.table, file as usize, op)
    }

    fn size_now(&mut self, file: u32) -> u64 {
        self.pass.size_now(self.table, file as usize)
    }

    fn read_into(&self, file: u32, off: u64, out: &mut [u8]) -> usize {
        self.pass.body(file as usize).read_into(off, out)
    }

    fn count(&self) -> u32 {
        self.table.count()
    }

    fn own_last(&self, file: u32) -> Option<u64> {
        self.pass.own_last(file as usize)
    }

    fn sound(&self, _file: u32) {
        self.pass.sound();
    }
}

impl<'a> FileTurns for SharedFiles<'a> {
    fn enter<R: Wait>(&mut self, rt: &R, file: u32) {
        self.pass.enter(rt, self.table, file as usize);
    }

    fn leave(&mut self, file: u32) {
        self.pass.leave(self.table, file as usize);
    }

    fn lease<R: Wait>(&mut self, rt: &R, file: u32) -> u64 {
        self.pass.lease(rt, self.table, file as usize)
    }

    fn unlease(&mut self, file: u32) {
        self.pass.unlease(self.table, file as usize);
    }

    fn bar<R: Wait>(&mut self, rt: &R, file: u32) -> Result<(), Leased> {
        self.pass.bar(rt, self.table, file as usize)
    }

    fn unbar(&mut self, file: u32) {
        self.pass.unbar(self.table, file as usize);
    }
}
