ghost use Rattle.std.specs.Prelude.{◌≡◌, ◌+◌, ◌-◌, ◌^◌, ◌≤◌, Decides};
ghost use Rattle.paths.specs.Doors.{Open, lowered, raised, gone_in, left_by, semaphore_of};
ghost use Rattle.doors.specs.Told.{door_of};
ghost use Rattle.doors.specs.Memory.{level, standing_of, AtMost, nothing_open, with_open};

use super::{Door, Levels};

// Raises one number by one, as far as the numbers reach.
fn raise(numbers: &mut [u32; 256], at: u8)
    ensures raised { level numbers.old at ≤ 2 ^ 32 - 2 → level numbers.new ≡ raised at (level numbers.old) }
{
    let number = &mut numbers[usize::from(at)];
    *number = number.saturating_add(1);
}

// Lowers one number by one, and tells what is left; 0 stays.
fn lower(numbers: &mut [u32; 256], at: u8) -> u32
    ensures lowered { level numbers.new ≡ lowered at (level numbers.old) }
    ensures left { result ≡ level numbers.old at - 1 }
{
    let number = &mut numbers[usize::from(at)];
    *number = number.saturating_sub(1);
    *number
}

impl Levels {
    // Everything stands at 0.
    pub(crate) fn new() -> Levels
        ensures zero { standing_of result ≡ nothing_open }
    {
        Levels {
            semaphores: [0; 256],
            counters: [0; 256],
        }
    }

    // Opens a path: its semaphore, that of its first left door, stands at 1.
    pub(crate) fn open_path(&mut self, door: Door)
        ensures opened { standing_of self.new ≡ with_open (semaphore_of (door_of door)) (standing_of self.old) }
    {
        self.semaphores[usize::from(door.semaphore)] = 1;
    }

    // Whether a left door is open.
    pub(crate) fn is_open(&self, door: Door) -> bool
        ensures decides { Decides result (Open (door_of door) (standing_of self.now)) }
    {
        self.semaphores[usize::from(door.semaphore)] >= 1
            || door
                .counter
                .is_some_and(|counter| self.counters[usize::from(counter)] >= 1)
    }

    // Goes in by a left door.
    pub(crate) fn go_in(&mut self, door: Door)
        ensures passed { AtMost (2 ^ 32 - 2) (standing_of self.old) → standing_of self.new ≡ gone_in (door_of door) (standing_of self.old) }
    {
        match door.counter {
            None => {
                lower(&mut self.semaphores, door.semaphore);
            }
            Some(counter) => {
                if self.counters[usize::from(counter)] == 0 {
                    lower(&mut self.semaphores, door.semaphore);
                }
                raise(&mut self.counters, counter);
            }
        }
    }

    // Leaves by a right door.
    pub(crate) fn leave_by(&mut self, door: Door)
        ensures passed { AtMost (2 ^ 32 - 2) (standing_of self.old) → standing_of self.new ≡ left_by (door_of door) (standing_of self.old) }
    {
        match door.counter {
            None => raise(&mut self.semaphores, door.semaphore),
            Some(counter) => {
                if lower(&mut self.counters, counter) == 0 {
                    raise(&mut self.semaphores, door.semaphore);
                }
            }
        }
    }
}
