// What is printed for an input is settled by the input alone.
#![tactic(auto)]

ghost use Rattle.laws.specs.Outputs.{OnePrint, OneOutput};

use rooms::RankRoom;
use rooms::waiting::Room;

// Over every room an input has one output.
pub fn every_room_gives_one_output<R: Room>()
    ensures theorem { OnePrint R.places R.rule }
{}

// An input has one output of the program, whose room is by rank.
pub fn an_input_has_one_output()
    ensures theorem { OneOutput }
{
    every_room_gives_one_output::<RankRoom>()
}
