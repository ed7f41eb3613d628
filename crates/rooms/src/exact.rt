// What the contract of a waiting room says of when it gives each answer.
ghost use Rattle.std.specs.Prelude.{ℕ};
ghost use Rattle.rooms.specs.Exact.{PutExact, TakeExact, DropExact};

use crate::waiting::Room;

// Every room answers known, full, added and none exactly when it should.
pub fn answers_are_exact<R: Room>()
    ensures put { PutExact R.places }
    ensures take { (m : ℕ) → TakeExact (R.rule.chooses m) }
    ensures drop { DropExact }
{}
