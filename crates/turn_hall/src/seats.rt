//! How passes are split and joined, and how one tells another what it has seen.
ghost use Rattle.std.specs.Prelude.{◌≡◌, ◌≢◌, ℕ, ◌⊎◌, ◌↔◌, [], ◌++◌};
ghost use Rattle.turn_hall.specs.Prefixes.{IsPrefix, longer};
ghost use Rattle.turn_hall.specs.Moves.{cut, given};
ghost use Rattle.turn_hall.specs.Passes.{IsPassOf, IsSamePass, seen_by, held_by, Holds, HoldsNumber, Rests, IsNoteOf, told_by};

use crate::hall::{HISTORY, Hall, Note, Pass};
use crate::stands::Stands;
use crate::steps::{Both, Chosen, Copying, Cut, Learn};
use std::marker::Brand;

impl<T: Stands> Hall<T> {
    fn split_chosen<N: Chosen>(&self, pass: &mut Pass<T>, number: u64) -> Pass<T>
        requires hall { IsPassOf self.now pass.old }
        requires chosen { number ≡ N.number }
        requires rests { Rests pass.old }
        requires number { HoldsNumber pass.old number }
        requires another { (m : ℕ) × HoldsNumber pass.old m × (m ≢ number) }
        ensures same { IsSamePass pass.old pass.new × IsPassOf self.now result }
        ensures left { pass.new.me ≡ (cut number pass.old.me.0, []) }
        ensures right { result.me ≡ (given number pass.old.me.0, []) }
    {
        self.row.shared.split_seat::<Cut<N>>(pass)
    }

    /// A pass that holds this number alone, and has seen what the other has.
    pub fn split(&self, pass: &mut Pass<T>, number: u64) -> Pass<T>
        requires hall { IsPassOf self.now pass.old }
        requires rests { Rests pass.old }
        requires number { HoldsNumber pass.old number }
        requires another { (m : ℕ) × HoldsNumber pass.old m × (m ≢ number) }
        ensures same { IsSamePass pass.old pass.new × Rests pass.new × (seen_by pass.new ≡ seen_by pass.old) }
        ensures left { (n : ℕ) (q : T.Part) → Holds pass.new n q ↔ (Holds pass.old n q × (n ≢ number)) }
        ensures new { IsPassOf self.now result × Rests result × (seen_by result ≡ seen_by pass.old) }
        ensures right { (n : ℕ) (q : T.Part) → Holds result n q ↔ (Holds pass.old n q × (n ≡ number)) }
    {
        self.split_chosen::<Brand>(pass, number)
    }

    /// What the pass has seen.
    pub fn note(&self, pass: &mut Pass<T>) -> Note<T>
        requires hall { IsPassOf self.now pass.old }
        requires rests { Rests pass.old }
        ensures same { IsSamePass pass.old pass.new × Rests pass.new }
        ensures seen { seen_by pass.new ≡ seen_by pass.old }
        ensures held { held_by pass.new ≡ held_by pass.old }
        ensures note { IsNoteOf self.now result × (told_by result ≡ seen_by pass.old) }
    {
        Note {
            seat: self.row.shared.split_seat::<Copying>(pass),
        }
    }

    // Joins a pass into another, and looks at the history: so one of the lists begins the other.
    fn gather(&self, pass: &mut Pass<T>, other: Pass<T>)
        requires hall { IsPassOf self.now pass.old × IsPassOf self.now other }
        requires rests { Rests pass.old × Rests other }
        ensures same { IsSamePass pass.old pass.new × Rests pass.new }
        ensures seen { seen_by pass.new ≡ longer (seen_by pass.old) (seen_by other) }
        ensures begins { IsPrefix (seen_by pass.old) (seen_by pass.new) × IsPrefix (seen_by other) (seen_by pass.new) }
        ensures held { held_by pass.new ≡ held_by pass.old ++ held_by other }
    {
        self.row.shared.join_seat::<Both>(pass, other);
        self.row.shared.load::<Learn>(pass, HISTORY);
    }

    /// The pass has seen what the note has, too.
    pub fn hear(&self, pass: &mut Pass<T>, note: Note<T>)
        requires hall { IsPassOf self.now pass.old × IsNoteOf self.now note }
        requires rests { Rests pass.old }
        ensures same { IsSamePass pass.old pass.new × Rests pass.new }
        ensures seen { seen_by pass.new ≡ longer (seen_by pass.old) (told_by note) }
        ensures begins { IsPrefix (seen_by pass.old) (seen_by pass.new) × IsPrefix (told_by note) (seen_by pass.new) }
        ensures held { held_by pass.new ≡ held_by pass.old }
    {
        let Note { seat } = note;
        self.gather(pass, seat);
    }

    /// The pass takes the other's numbers, and has seen what the other has, too.
    pub fn join(&self, pass: &mut Pass<T>, other: Pass<T>)
        requires hall { IsPassOf self.now pass.old × IsPassOf self.now other }
        requires rests { Rests pass.old × Rests other }
        ensures same { IsSamePass pass.old pass.new × Rests pass.new }
        ensures seen { seen_by pass.new ≡ longer (seen_by pass.old) (seen_by other) }
        ensures begins { IsPrefix (seen_by pass.old) (seen_by pass.new) × IsPrefix (seen_by other) (seen_by pass.new) }
        ensures held { (n : ℕ) (q : T.Part) → Holds pass.new n q ↔ (Holds pass.old n q ⊎ Holds other n q) }
    {
        self.gather(pass, other);
    }
}
