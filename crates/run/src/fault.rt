// Why a call of a run says no.
mod numbers;

#[derive(Clone, Copy)]
pub enum RunFault {
    // the text has no operation of this number
    UnknownOperation = 13,
    // the rank is above 9
    RankTooHigh,
    // 1,000,000 begins were accepted
    TicketsSpent,
    // the begin does not fit, and all places of the room are taken
    RoomFull,
    // none of this operation runs
    NotRunning,
    // no entry waits with this ticket
    NotWaiting,
    // the list has fewer places than entries wait
    ListTooShort,
}
