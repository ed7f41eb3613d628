// The calls of a run, for any room.
ghost use Rattle.std.specs.Prelude.{◌≡◌, ◌≤◌, length, take, drop};
ghost use Rattle.std.specs.Result.{result_unwrap_or};
ghost use Rattle.run.specs.Memory.{Carries, Keeps};
ghost use Rattle.run.specs.Records.{begin, end, withdraw};

use crate::answer::{Begun, LetIn};
use crate::fault::RunFault;
use crate::state::Run;
use rooms::entry::Entry;
use rooms::waiting::Room;

impl<R: Room> Run<R> {
    // Begins an operation: it is let in, or told to wait in the room.
    pub fn begin(&mut self, operation: u8, rank: u8) -> Result<Begun, RunFault>
        ensures says { Carries R.places R.rule self.old self.new (begin operation rank result) }
        ensures keeps { Keeps result self.old self.new }
    {
        self.may_begin(operation, rank)?;
        let ticket = self.accepted.saturating_add(1);
        if self.could_join(operation) {
            self.go_in(operation);
            self.accepted = ticket;
            return Ok(Begun::In(ticket));
        }
        self.room.put(Entry {
            ticket,
            operation,
            rank,
        })?;
        self.accepted = ticket;
        Ok(Begun::Waits(ticket))
    }

    // Ends an operation, and lets in those who wait as long as one of them could join: the room's choice each time.
    pub fn end(&mut self, operation: u8, list: &mut [LetIn]) -> Result<usize, RunFault>
        ensures says { Carries R.places R.rule self.old self.new (end operation (length list.old) (take (result_unwrap_or result 0) list.new) result) }
        ensures within { result_unwrap_or result 0 ≤ length list.old }
        ensures rest { drop (result_unwrap_or result 0) list.new ≡ drop (result_unwrap_or result 0) list.old }
        ensures keeps { Keeps result self.old self.new }
    {
        self.may_end(operation, list.len())?;
        self.go_out(operation);
        for (n, place) in list.iter_mut().enumerate() {
            let Some(entry) = self.admit() else {
                return Ok(n);
            };
            let Entry {
                ticket,
                operation,
                rank: _,
            } = entry;
            *place = LetIn { ticket, operation };
        }
        Ok(list.len())
    }

    // Withdraws a ticket from the room.
    pub fn withdraw(&mut self, ticket: u32) -> Result<u8, RunFault>
        ensures says { Carries R.places R.rule self.old self.new (withdraw ticket result) }
        ensures keeps { Keeps result self.old self.new }
    {
        let operation = self.room.drop_ticket(ticket).ok_or(RunFault::NotWaiting)?;
        self.withdrawn = self.withdrawn.saturating_add(1);
        Ok(operation)
    }
}
