// Paths, their words and their doors: each function carries one theorem, which its contract states. No function computes anything.
#![tactic(auto)]

ghost use Rattle.paths.specs.Grammar.{Unambiguous};
ghost use Rattle.paths.specs.Doors.{DoorsAreRight, BeginningsFit};
ghost use Rattle.paths.specs.Texts.{AllDoorsAreRight, AllBeginningsFit, DoorsLetThroughWhatFits};
ghost use Rattle.paths.specs.Runs.{LettingInFreesNobody, StandingIsSmall, OnceAPath, OpeningIsTold};
ghost use Rattle.paths.specs.Sizes.{DoorsAreFew};
ghost use Rattle.paths.specs.Judged.{Judged, DoorsShown};

// No row of terminals has two derivations.
pub fn grammar_is_unambiguous()
    ensures { Unambiguous }
{}

// After a history that fits a path, the path's doors let in exactly the operations that may come next, and exactly what runs may end.
pub fn doors_are_right()
    ensures { DoorsAreRight }
{}

// The beginning of a history that fits a path fits it.
pub fn beginnings_fit()
    ensures { BeginningsFit }
{}

// After a history that fits every path of a text, the doors of all paths together let in exactly the operations with which it goes on fitting.
pub fn all_doors_are_right()
    ensures { AllDoorsAreRight }
{}

// The beginning of a history that fits every path of a text fits every path of it.
pub fn all_beginnings_fit()
    ensures { AllBeginningsFit }
{}

// What the doors of a text let through, event by event, is exactly what fits every path.
pub fn doors_let_through_what_fits()
    ensures { DoorsLetThroughWhatFits }
{}

// What fits after one more was let in, fitted before.
pub fn letting_in_frees_nobody()
    ensures { LettingInFreesNobody }
{}

// After a history that fits, no semaphore and no counter stands high: machine numbers suffice.
pub fn standing_is_small()
    ensures { StandingIsSmall }
{}

// In a text of proper paths an operation has at most one occurrence in each path.
pub fn once_a_path()
    ensures { OnceAPath }
{}

// One pass over the occurrences of a text finds the semaphores that open at 1.
pub fn opening_is_told()
    ensures { OpeningIsTold }
{}

// A text takes no more semaphores than it has names, and no more counters than it has brackets; its doors' numbers stay below them.
pub fn doors_are_few()
    ensures { DoorsAreFew }
{}

// Five histories of two paths, judged from the definitions.
pub fn histories_judged()
    ensures { Judged }
{}

// The doors of two texts, as the translation numbers them.
pub fn doors_shown()
    ensures { DoorsShown }
{}
