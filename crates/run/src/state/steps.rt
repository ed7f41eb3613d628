// The steps of the calls of a run, for any room.
ghost use Rattle.std.specs.Prelude.{◌≡◌, ◌<◌, false, length, slice_index_or, OnOk};
ghost use Rattle.run.specs.Memory.{MayBegin, MayEnd, Tested, GoneIn, GoneOut, Fitting, Admits};

use crate::fault::RunFault;
use crate::state::Run;
use rooms::entry::Entry;
use rooms::waiting::Room;

impl<R: Room> Run<R> {
    // What stops a begin before fitting is asked: an unknown operation, a rank above 9, or too many begins.
    pub(crate) fn may_begin(&self, operation: u8, rank: u8) -> Result<(), RunFault>
        ensures says { MayBegin self.now operation rank result }
        ensures within { OnOk result (operation < 64) }
    {
        if usize::from(operation) >= self.operations {
            return Err(RunFault::UnknownOperation);
        }
        if rank > 9 {
            return Err(RunFault::RankTooHigh);
        }
        if self.accepted >= 1_000_000 {
            return Err(RunFault::TicketsSpent);
        }
        Ok(())
    }

    // What stops an end: an unknown operation, one that does not run, or a list with fewer places than entries wait.
    pub(crate) fn may_end(&self, operation: u8, places: usize) -> Result<(), RunFault>
        ensures says { MayEnd self.now operation places result }
        ensures within { OnOk result (operation < 64) }
    {
        let a = usize::from(operation);
        if a >= self.operations {
            return Err(RunFault::UnknownOperation);
        }
        if self.running[a] == 0 {
            return Err(RunFault::NotRunning);
        }
        if places < self.room.count() {
            return Err(RunFault::ListTooShort);
        }
        Ok(())
    }

    // Whether the operation could join.
    pub(crate) fn could_join(&self, operation: u8) -> bool
        ensures { Tested self.now operation result }
    {
        self.doors.fits(operation)
    }

    // The operation goes in, by all its left doors.
    pub(crate) fn go_in(&mut self, operation: u8)
        requires { operation < 64 }
        ensures { GoneIn self.old self.new operation }
    {
        self.doors.enter(operation);
        let a = usize::from(operation);
        self.running[a] = self.running[a].saturating_add(1);
        self.let_in = self.let_in.saturating_add(1);
    }

    // The operation leaves, by all its right doors.
    pub(crate) fn go_out(&mut self, operation: u8)
        requires { operation < 64 }
        ensures { GoneOut self.old self.new operation }
    {
        self.doors.leave(operation);
        let a = usize::from(operation);
        self.running[a] = self.running[a].saturating_sub(1);
        self.ended = self.ended.saturating_add(1);
    }

    // Which operations of the text could join.
    fn fitting(&self) -> [bool; 64]
        ensures says { Fitting self.now (λ a. slice_index_or result a false) }
        ensures long { length result ≡ 64 }
    {
        let mut table = [false; 64];
        for (a, may) in table[..self.operations].iter_mut().enumerate() {
            *may = self.could_join(a as u8);
        }
        table
    }

    // Lets the room's choice among those that could join go in, if one of those who wait could.
    pub(crate) fn admit(&mut self) -> Option<Entry>
        ensures { Admits R.rule self.old self.new result }
    {
        if self.room.count() == 0 {
            return None;
        }
        let table = self.fitting();
        let entry = self.room.take(&table)?;
        self.go_in(entry.operation);
        Some(entry)
    }
}
