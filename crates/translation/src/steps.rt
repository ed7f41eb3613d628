ghost use Rattle.std.specs.Prelude.{◌≡◌, ◌+◌, ◌<◌, ◌≤◌, [], ◌∷◌};
ghost use Rattle.table.specs.Contents.{RestKept};
ghost use Rattle.paths.specs.Doors.{with_counter, plain as plain_door};
ghost use Rattle.doors.specs.Told.{door_of, told};
ghost use Rattle.translation.specs.Rows.{Added, later};

use doors::{Door, Occurrence};
use table::Table;

// Where the translation stands: the next token, and the next free numbers of semaphores and counters.
#[derive(Clone, Copy, Default)]
pub struct Place {
    pub token: usize,
    pub semaphore: u16,
    pub counter: u16,
}

// The number of a path, and the doors that a part of it is passed.
#[derive(Clone, Copy)]
pub struct Between {
    path: u8,
    left: Door,
    right: Door,
}

// The number after n; 256 says that all numbers are taken.
pub fn after(n: u16) -> u16
    ensures next { result ≡ later n }
{
    n.saturating_add(1).min(256)
}

// A number that is not taken yet, as a byte.
fn byte(n: u16) -> u8
    ensures same { n < 256 → result ≡ n }
{
    u8::try_from(n).unwrap_or(u8::MAX)
}

// A semaphore without a counter.
fn plain(semaphore: u16) -> Door
    ensures door { semaphore < 256 → door_of result ≡ plain_door semaphore }
{
    Door {
        semaphore: byte(semaphore),
        counter: None,
    }
}

// The same semaphore, now with a counter.
fn counted(door: Door, counter: u8) -> Door
    ensures door { door_of result ≡ with_counter counter (door_of door) }
{
    Door {
        counter: Some(counter),
        ..door
    }
}

impl Place {
    // A semaphore is taken here.
    pub fn semaphore_taken(self) -> Place
        ensures token { result.token ≡ self.token }
        ensures semaphore { result.semaphore ≡ later self.semaphore }
        ensures counter { result.counter ≡ self.counter }
    {
        Place {
            semaphore: after(self.semaphore),
            ..self
        }
    }

    // A counter is taken here.
    pub fn counter_taken(self) -> Place
        ensures token { result.token ≡ self.token }
        ensures semaphore { result.semaphore ≡ self.semaphore }
        ensures counter { result.counter ≡ later self.counter }
    {
        Place {
            counter: after(self.counter),
            ..self
        }
    }
}

impl Between {
    // A path's semaphore is its left door and its right door.
    pub fn of_path(path: u16, semaphore: u16) -> Between
        ensures path { path < 256 → result.path ≡ path }
        ensures left { semaphore < 256 → door_of result.left ≡ plain_door semaphore }
        ensures right { semaphore < 256 → door_of result.right ≡ plain_door semaphore }
    {
        Between {
            path: byte(path),
            left: plain(semaphore),
            right: plain(semaphore),
        }
    }

    // The part before a `;` has the semaphore of the `;` as its right door.
    pub fn before(self, semaphore: u16) -> Between
        ensures path { result.path ≡ self.path }
        ensures left { result.left ≡ self.left }
        ensures right { semaphore < 256 → door_of result.right ≡ plain_door semaphore }
    {
        Between {
            right: plain(semaphore),
            ..self
        }
    }

    // The part behind a `;` has the semaphore of the `;` as its left door.
    pub fn behind(self, semaphore: u16) -> Between
        ensures path { result.path ≡ self.path }
        ensures left { semaphore < 256 → door_of result.left ≡ plain_door semaphore }
        ensures right { result.right ≡ self.right }
    {
        Between {
            left: plain(semaphore),
            ..self
        }
    }

    // The part inside braces has their counter at both doors.
    pub fn inside_braces(self, counter: u16) -> Between
        ensures path { result.path ≡ self.path }
        ensures left { counter < 256 → door_of result.left ≡ with_counter counter (door_of self.left) }
        ensures right { counter < 256 → door_of result.right ≡ with_counter counter (door_of self.right) }
    {
        let counter = byte(counter);
        Between {
            left: counted(self.left, counter),
            right: counted(self.right, counter),
            ..self
        }
    }

    // A name keeps the two doors that it is passed.
    pub fn occurrence(self, operation: u8) -> Occurrence
        ensures path { result.path ≡ self.path }
        ensures operation { result.operation ≡ operation }
        ensures left { result.left ≡ self.left }
        ensures right { result.right ≡ self.right }
    {
        Occurrence {
            path: self.path,
            operation,
            left: self.left,
            right: self.right,
        }
    }
}

// Adds an occurrence if there is a place left.
pub fn note(out: &mut Table<Occurrence>, item: Occurrence)
    ensures kept { RestKept out.old out.new }
    ensures added { Added out.old (told item ∷ []) out.new }
{
    let _ = out.add(item);
}
