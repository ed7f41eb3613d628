// What the call of a log line is answered, if it is not refused.
use run::answer::Begun;

#[derive(Clone, Copy)]
pub enum Answer {
    // a begin of the operation
    Begun(u8, Begun),
    // an end of the operation, which let so many in
    Ended(u8, usize),
    // the operation that waited with the ticket
    Withdrawn(u8, u32),
}
