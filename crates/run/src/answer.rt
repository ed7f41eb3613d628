// What the calls of a run answer.

// A begin that is accepted, with its ticket: let in, or told to wait.
#[derive(Clone, Copy)]
pub enum Begun {
    In(u32),
    Waits(u32),
}

// One that an end let in: the ticket and its operation.
#[derive(Clone, Copy, Default)]
pub struct LetIn {
    pub ticket: u32,
    pub operation: u8,
}

// What a closed run counted.
#[derive(Clone, Copy)]
pub struct Totals {
    pub accepted: u32,
    pub running: u32,
    pub waiting: usize,
    pub ended: u32,
    pub withdrawn: u32,
}

// What is left of a run: its totals, and its room with those who still wait.
#[derive(Drop)]
pub struct Closed<R> {
    pub totals: Totals,
    pub room: R,
}
