// Why a log line is refused.
use run::fault::RunFault;

mod numbers;

#[derive(Clone, Copy)]
pub enum LogFault {
    // the line has no lawful form, and goes wrong at this place
    Unlawful(usize),
    // its name is not in the text
    UnknownName,
    // the run refuses the call
    Run(RunFault),
}
