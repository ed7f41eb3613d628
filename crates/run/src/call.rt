// The calls of a run as values, and what they answer.
use crate::answer::Begun;
use crate::fault::RunFault;

// A begin with operation and rank, an end with operation, a withdrawal with ticket.
#[derive(Clone, Copy)]
pub enum Call {
    Begin(u8, u8),
    End(u8),
    Withdraw(u32),
}

// The answer to each kind of call.
#[derive(Clone, Copy)]
pub enum Answer {
    Begin(Result<Begun, RunFault>),
    End(Result<usize, RunFault>),
    Withdraw(Result<u8, RunFault>),
}
