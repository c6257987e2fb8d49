//! Taking turns.
ghost use Rattle.std.specs.Prelude.{◌≡◌, ◌≢◌, ℕ, ◌+◌, ◌^◌, ◌<◌, ◌≤◌, ◌↔◌, [], ◌∷◌, length, Some, MatchBool};
ghost use Rattle.turn_hall.specs.declared.view.Stage.TheVariants.{Idle, Out};
ghost use Rattle.turn_hall.specs.Prefixes.{IsPrefix};
ghost use Rattle.turn_hall.specs.Numbers.{AreParts};
ghost use Rattle.turn_hall.specs.Rule.{first_open};
ghost use Rattle.turn_hall.specs.Moves.{HasTaken, rested};
ghost use Rattle.turn_hall.specs.Passes.{IsPassOf, IsSamePass, seen_by, held_by, Holds, HoldsNumber, HoldsSome, Rests, IsOut, KeepsOthers, first_of, numbers_of};

use crate::hall::{ASKED, AWAITED, DOOR, HISTORY, Hall, LEFT, OPEN, Pass, SHUT};
use crate::stands::Stands;
use crate::steps::{Add, Hand, Mark, Take};
use std::hint::spin_loop;
use std::sync::Wait;

// How often a thread looks at a shut door before it sleeps.
const LOOKS: u32 = 100;

// How often a thread sleeps before it asks that the door be left to those who have slept.
const SLEEPS: u64 = 2;

impl<T: Stands> Hall<T> {
    // Takes the slot and shuts the door, where the door is still open as it was found.
    fn take(&self, pass: &mut Pass<T>, found: u64, shut: u64) -> bool
        requires hall { IsPassOf self.now pass.old }
        requires rests { Rests pass.old × HoldsSome pass.old }
        requires free { first_open ≤ found }
        requires shut { shut < first_open }
        ensures same { IsSamePass pass.old pass.new }
        ensures taken { MatchBool result (HasTaken T.history T.part_of pass.old.me pass.new.me) (pass.new.me ≡ pass.old.me) }
    {
        let door = self
            .row
            .shared
            .compare_exchange::<Take>(pass, DOOR, found, shut);
        door == found
    }

    // The door, which is looked at for a while as long as it is shut and no thread sleeps before it.
    fn look(&self) -> u64 {
        for _ in 0..LOOKS {
            let door = self.row.shared.peek(DOOR);
            if door != SHUT {
                return door;
            }
            spin_loop();
        }
        SHUT
    }

    // Waits until the door is open, and takes the slot.
    fn wait_turn<R: Wait>(&self, rt: &R, pass: &mut Pass<T>)
        requires hall { IsPassOf self.now pass.old }
        requires rests { Rests pass.old × HoldsSome pass.old }
        ensures same { IsSamePass pass.old pass.new }
        ensures taken { HasTaken T.history T.part_of pass.old.me pass.new.me }
    {
        if self.take(pass, OPEN, SHUT) {
            return;
        }
        let mut slept = 0u64;
        'wait: for _ in rt.forever() {
            let door = self.look();
            if door == OPEN || (door == LEFT && slept != 0) {
                // Where it has slept, others may sleep too. ASKED here could leave a door that no thread takes.
                let shut = if slept == 0 { SHUT } else { AWAITED };
                if self.take(pass, door, shut) {
                    return;
                }
                continue;
            }
            let wanted = if slept < SLEEPS { AWAITED } else { ASKED };
            if door < wanted && !self.mark(pass, door, wanted) {
                continue;
            }
            let seen = door.max(wanted);
            self.row.shared.park(rt, DOOR, (seen & 0xffff_ffff) as u32);
            slept = slept.saturating_add(1);
        }
        unreachable!()
    }

    // Marks a shut door, where it is still as it was found.
    fn mark(&self, pass: &mut Pass<T>, found: u64, wanted: u64) -> bool
        requires hall { IsPassOf self.now pass.old }
        requires shut { (found < first_open) × (wanted < first_open) }
        ensures same { IsSamePass pass.old pass.new × (pass.new.me ≡ pass.old.me) }
    {
        self.row
            .shared
            .compare_exchange::<Mark>(pass, DOOR, found, wanted)
            == found
    }

    /// Waits until the value is at home, and takes it out.
    pub fn enter<R: Wait>(&self, rt: &R, pass: &mut Pass<T>) -> T
        requires hall { IsPassOf self.now pass.old }
        requires rests { Rests pass.old × HoldsSome pass.old }
        ensures same { IsSamePass pass.old pass.new }
        ensures out { IsOut T.history pass.new result }
        ensures seen { (seen_by pass.new ≡ T.history result) × IsPrefix (seen_by pass.old) (T.history result) }
        ensures held { held_by pass.new ≡ held_by pass.old }
        ensures parts { AreParts (T.part_of result) (held_by pass.old) }
    {
        self.wait_turn(rt, pass);
        self.row.shared.exchange(pass, 0, None).unwrap()
    }

    /// Puts the value back, and wakes a thread that waits for it. The value's list may have grown and its parts of the pass's
    /// numbers may have changed, for at most four more of its work.
    pub fn leave(&self, pass: &mut Pass<T>, value: T)
        requires hall { IsPassOf self.now pass.old }
        requires out { (x : T) × IsOut T.history pass.old x × IsPrefix (T.history x) (T.history value)
            × KeepsOthers T.part_of (numbers_of T.numbers self.now) pass.old x value × (T.work value ≤ T.work x + 4) }
        requires room { first_of self.now + length (T.history value) < 2 ^ 64 }
        ensures same { IsSamePass pass.old pass.new }
        ensures rests { Rests pass.new }
        ensures seen { seen_by pass.new ≡ T.history value }
        ensures held { (n : ℕ) (q : T.Part) → Holds pass.new n q ↔ (HoldsNumber pass.old n × (q ≡ T.part_of value n)) }
    {
        let entries = value.entries();
        match self.row.shared.exchange(pass, 0, Some(value)) {
            None => {}
            Some(_) => unreachable!(),
        }
        self.row
            .shared
            .store::<Add>(pass, HISTORY, self.first + entries);
        self.give_back(pass);
    }

    // Gives the slot back and opens the door, and wakes one thread where some may sleep.
    fn give_back(&self, pass: &mut Pass<T>)
        requires hall { IsPassOf self.now pass.old }
        requires out { (x : T) × (y : T) × (pass.old.me.0.stage ≡ Out x) × (pass.old.me.1 ≡ (0, Some y) ∷ [])
            × (seen_by pass.old ≡ T.history y) × KeepsOthers T.part_of (numbers_of T.numbers self.now) pass.old x y }
        ensures same { IsSamePass pass.old pass.new }
        ensures handed { (y : T) × (pass.old.me.1 ≡ (0, Some y) ∷ []) × (pass.new.me ≡ (rested T.history T.part_of y pass.old.me.0, [])) }
    {
        let door = if self.row.shared.peek(DOOR) == ASKED {
            LEFT
        } else {
            OPEN
        };
        let found = self.row.shared.swap::<Hand>(pass, DOOR, door);
        if found != SHUT {
            self.row.shared.wake_one(DOOR);
        }
    }
}
