// The memory of a run.
use doors::Doors;
use rooms::waiting::Room;
use std::marker::Model;

mod calls;
mod ends;
mod steps;

// Its room, its copy of the doors, how many of each operation run, how many operations the text has, and what was counted.
pub struct Run<R: Room> {
    room: R,
    doors: Doors,
    running: [u32; 64],
    operations: usize,
    accepted: u32,
    let_in: u32,
    ended: u32,
    withdrawn: u32,
}

impl<R: Room> Model for Run<R> {
    ghost use Rattle.std.specs.Prelude.{◌≤◌};
    ghost use Rattle.run.specs.Memory.{View};

    ghost Value = { View R };

    ghost view = { λ s. record {
      room = s.room;
      entries = R.entries s.room;
      memory = R.memory s.room;
      doors = s.doors;
      running = s.running;
      operations = s.operations;
      accepted = s.accepted;
      let_in = s.let_in;
      ended = s.ended;
      withdrawn = s.withdrawn;
    } };

    ghost invariant = { λ s. s.operations ≤ 64 };
}
