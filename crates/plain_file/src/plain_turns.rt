use crate::plain::PlainFiles;
use crate::refusals::{Leased, RefusedBar};
use crate::turns::FileTurns;
use std::sync::Wait;

impl FileTurns for PlainFiles {
    fn enter<R: Wait>(&mut self, _rt: &R, file: u32) {
        self.files[file as usize].enter();
        self.turn = Some(file);
    }

    fn leave(&mut self, file: u32) {
        self.files[file as usize].leave();
        self.turn = None;
    }

    fn lease<R: Wait>(&mut self, _rt: &R, file: u32) -> u64 {
        let size = self.files[file as usize].size();
        self.files[file as usize].set_floor(Some(size));
        self.leases[file as usize] += 1;
        size
    }

    fn unlease(&mut self, file: u32) {
        let leases = self.leases[file as usize];
        let kept = if leases == 1 {
            None
        } else {
            self.files[file as usize].floor()
        };
        self.files[file as usize].set_floor(kept);
        self.leases[file as usize] = leases - 1;
    }

    fn bar<R: Wait>(&mut self, _rt: &R, file: u32) -> Result<(), Leased> {
        let own = self.leases[file as usize];
        if own > 0 {
            self.files[file as usize].refuse(RefusedBar { count: own, own });
            return Err(Leased { count: own });
        }
        self.bar = Some(file);
        Ok(())
    }

    fn unbar(&mut self, _file: u32) {
        self.bar = None;
    }
}
