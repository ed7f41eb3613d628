ghost use Rattle.std.specs.Prelude.{◌≡◌};
ghost use Rattle.order_log.specs.declared.fault.LogFault.TheVariants.{Unlawful as NoForm, Run as InRun};
ghost use Rattle.order_log.specs.Faults.{fault_stage, fault_number, fault_place};

use super::LogFault;
use lines::LineFault;
use reading::Stage;
use run::fault::RunFault;

impl From<LineFault> for LogFault {
    ghost from_gives = { λ l f. f ≡ NoForm l.place };

    fn from(fault: LineFault) -> LogFault {
        LogFault::Unlawful(fault.place)
    }
}

impl From<RunFault> for LogFault {
    ghost from_gives = { λ r f. f ≡ InRun r };

    fn from(fault: RunFault) -> LogFault {
        LogFault::Run(fault)
    }
}

impl LogFault {
    // The number of the refusal.
    pub fn number(self) -> u8
        ensures number { result ≡ fault_number self }
    {
        match self {
            LogFault::Unlawful(_) => 20,
            LogFault::UnknownName => 21,
            LogFault::Run(fault) => fault.number(),
        }
    }

    // The stage that tells the refusal.
    pub fn stage(self) -> Stage
        ensures stage { result ≡ fault_stage self }
    {
        match self {
            LogFault::Unlawful(_) | LogFault::UnknownName => Stage::Log,
            LogFault::Run(fault) => fault.stage(),
        }
    }

    // The place of the refusal in its line; one by the run has none.
    pub fn place(self) -> Option<usize>
        ensures place { result ≡ fault_place self }
    {
        match self {
            LogFault::Unlawful(place) => Some(place),
            LogFault::UnknownName => Some(2),
            LogFault::Run(_) => None,
        }
    }
}
