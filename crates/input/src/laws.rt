ghost use Rattle.input.specs.Input.{OneCut, OneList};

// Every row of bytes has its lines, and no others.
pub fn one_list()
    ensures law { OneList }
{}

// Every input has its text and its log, and no others.
pub fn one_cut()
    ensures law { OneCut }
{}
