ghost use Rattle.std.specs.Prelude.{◌≡◌};
ghost use Rattle.run.specs.declared.fault.RunFault.TheVariants.{RoomFull};
ghost use Rattle.run.specs.Faults.{fault_number, fault_stage};

use crate::fault::RunFault;
use reading::Stage;
use rooms::entry::PutFault;

// A begin that the room does not take finds no place: its ticket is new.
impl From<PutFault> for RunFault {
    ghost from_gives = { λ p f. f ≡ RoomFull };

    fn from(_fault: PutFault) -> RunFault {
        RunFault::RoomFull
    }
}

impl RunFault {
    // The fault's number.
    pub fn number(self) -> u8
        ensures number { result ≡ fault_number self }
    {
        self as u8
    }

    // The stage that tells the fault.
    pub fn stage(self) -> Stage
        ensures stage { result ≡ fault_stage self }
    {
        Stage::Run
    }
}
