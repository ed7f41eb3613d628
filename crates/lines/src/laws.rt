ghost use Rattle.lines.specs.Lines.{OneMeaning, OneVerdict};

// No line is lawful in two ways.
#[tactic(auto, using(crate::proofs::Lawfuls::one_meaning))]
pub fn one_meaning()
    ensures law { OneMeaning }
{}

// Every line is lawful or faulty, none is both, and none is faulty at two places.
#[tactic(auto, using(crate::proofs::Lawfuls::one_verdict))]
pub fn one_verdict()
    ensures law { OneVerdict }
{}
