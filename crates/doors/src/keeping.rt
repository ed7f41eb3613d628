ghost use Rattle.std.specs.Prelude.{◌≡◌, ℕ, ◌≤◌, [], ◌∷◌, ◌++◌, length, take, if◌then◌else◌, nat_eq};
ghost use Rattle.doors.specs.Memory.{row, room};

use super::{Occurrence, Rows};

impl Rows {
    // No occurrence of any operation.
    pub(crate) fn new() -> Rows
        ensures empty { (a : ℕ) → row result a ≡ [] }
    {
        Rows {
            by_operation: Default::default(),
        }
    }

    // The occurrences of an operation.
    pub(crate) fn of(&self, operation: u8) -> &[Occurrence]
        ensures row { result.now ≡ row self.now operation }
        ensures few { length result.now ≤ 32 }
        ensures unknown { 64 ≤ operation → result.now ≡ [] }
    {
        match self.by_operation.get(usize::from(operation)) {
            Some(row) => row.as_slice(),
            None => &[],
        }
    }

    // Adds an occurrence behind those of its operation, as far as its row reaches.
    pub(crate) fn add(&mut self, occurrence: Occurrence)
        ensures added { (a : ℕ) → row self.new a ≡ (if nat_eq a occurrence.operation then take (room a) (row self.old a ++ occurrence ∷ []) else row self.old a) }
    {
        let operation = usize::from(occurrence.operation);
        if operation < self.by_operation.len() {
            let _ = self.by_operation[operation].try_push(occurrence);
        }
    }
}
