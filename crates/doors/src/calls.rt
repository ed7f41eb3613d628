ghost use Rattle.std.specs.Prelude.{◌≡◌, ℕ, ◌≤◌, true, List, [], ◌∷◌, ◌++◌, take, if◌then◌else◌, Decides, nat_eq};
ghost use Rattle.paths.specs.Grammar.{Text};
ghost use Rattle.paths.specs.Words.{History, Event, ⊕, ⊖, operation as operation_of};
ghost use Rattle.paths.specs.Doors.{Occurrence as TheOccurrence, Standing, next, OpenTo, semaphore_of};
ghost use Rattle.paths.specs.Texts.{EachProper, FitsAll, text_doors};
ghost use Rattle.paths.specs.Runs.{let_in_by};
ghost use Rattle.doors.specs.Told.{door_of, all_told};
ghost use Rattle.doors.specs.Memory.{standing_of, row, room, begins, with_open, Holds, Low, PassesBy, Passed, Tells, Limited};

use super::{Doors, Levels, Occurrence, Rows};

impl Doors {
    // The doors of a text before anything happened.
    pub fn new(occurrences: &[Occurrence]) -> Doors
        ensures opened { (t : Text) → Limited t → all_told occurrences.now ≡ text_doors t 0 0 0 → Tells result t [] }
    {
        let mut doors = Doors {
            rows: Rows::new(),
            levels: Levels::new(),
        };
        let mut before = None;
        for occurrence in occurrences {
            doors.add(*occurrence, before);
            before = Some(occurrence.path);
        }
        doors
    }

    // Adds an occurrence behind one of the path `before`; the first of a path opens its semaphore.
    fn add(&mut self, occurrence: Occurrence, before: Option<u8>)
        ensures rows { (a : ℕ) → row self.new.rows a ≡ (if nat_eq a occurrence.operation then take (room a) (row self.old.rows a ++ occurrence ∷ []) else row self.old.rows a) }
        ensures levels { standing_of self.new.levels ≡ (if begins before occurrence.path then with_open (semaphore_of (door_of occurrence.left)) (standing_of self.old.levels) else standing_of self.old.levels) }
    {
        self.rows.add(occurrence);
        if before != Some(occurrence.path) {
            self.levels.open_path(occurrence.left);
        }
    }

    // Whether all left doors of an operation are open; an operation without doors finds none shut.
    pub fn fits(&self, operation: u8) -> bool
        ensures doors { (os : List TheOccurrence) (σ : Standing) → Holds self.now os σ → Decides result (OpenTo operation os σ) }
        ensures text { (t : Text) (h : History) → EachProper t → FitsAll t h → Tells self.now t h → Decides result (FitsAll t (h ++ (⊕ operation ∷ []))) }
        ensures unknown { 64 ≤ operation → result ≡ true }
    {
        self.rows
            .of(operation)
            .iter()
            .all(|occurrence| self.levels.is_open(occurrence.left))
    }

    // Goes in by all left doors of an operation.
    pub fn enter(&mut self, operation: u8)
        ensures doors { (os : List TheOccurrence) (σ : Standing) → Holds self.old os σ → Low σ → Holds self.new os (next os (⊕ operation) σ) }
        ensures text { (t : Text) (h : History) → EachProper t → FitsAll t h → let_in_by h ≤ 1000000 → Tells self.old t h → Tells self.new t (h ++ (⊕ operation ∷ [])) }
        ensures unknown { 64 ≤ operation → self.new ≡ self.old }
    {
        self.pass(operation, |levels, name| levels.go_in(name.left));
    }

    // Leaves by all right doors of an operation.
    pub fn leave(&mut self, operation: u8)
        ensures doors { (os : List TheOccurrence) (σ : Standing) → Holds self.old os σ → Low σ → Holds self.new os (next os (⊖ operation) σ) }
        ensures text { (t : Text) (h : History) → EachProper t → FitsAll t h → let_in_by h ≤ 1000000 → Tells self.old t h → Tells self.new t (h ++ (⊖ operation ∷ [])) }
        ensures unknown { 64 ≤ operation → self.new ≡ self.old }
    {
        self.pass(operation, |levels, name| levels.leave_by(name.right));
    }

    // Passes the doors of an operation, one occurrence after another.
    fn pass<F: Fn(&mut Levels, Occurrence)>(&mut self, operation: u8, by: F)
        requires { F.IsAlwaysCallable by }
        ensures passed { (e : Event) → operation_of e ≡ operation → PassesBy e (λ o before after. F.post by before o tt after) → Passed e self.old self.new }
        ensures unknown { 64 ≤ operation → self.new ≡ self.old }
    {
        for occurrence in self.rows.of(operation) {
            by(&mut self.levels, *occurrence);
        }
    }
}
