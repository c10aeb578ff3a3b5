//! Whether a letter meets a guard.

ghost use Rattle.std.specs.Prelude.{◌≡◌, ◌<◌, ◌≤◌, ℕ, Bool, length};
ghost use Rattle.aut_base.specs.Label.{holds_at};
ghost use Rattle.label_guards.specs.Guards.{truth_in};
ghost use Rattle.label_guards.specs.Store.{Has, HasPlace, outcome};

use crate::guard::Guard;
use crate::guards::Guards;
use aut_base::{Letter, Names};

impl Guards {
    /// Whether the guard is true at the letter, where propositions go by their place in the list of names.
    /// Each proposition is asked for once at most.
    pub fn holds(&self, names: &Names, g: Guard, letter: &Letter) -> bool
        requires has { Has self.now g }
        requires names { length names.now ≡ self.now.names }
        ensures { result ≡ truth_in self.now g (holds_at names.now letter.now) }
    {
        self.reduced();
        let mut place = g.place;
        'walk: while 2 <= place {
            place = self.step(names, place, letter);
        }
        place == 1
    }

    /// Where the letter goes on from a place.
    fn step(&self, names: &Names, place: usize, letter: &Letter) -> usize
        requires inner { 2 ≤ place }
        requires has { HasPlace self.now place }
        requires names { length names.now ≡ self.now.names }
        ensures smaller { result < place }
        ensures truth { outcome self.now.nodes (holds_at names.now letter.now) result ≡ outcome self.now.nodes (holds_at names.now letter.now) place }
    {
        let node = self.node_at(place);
        if letter.has(names.at(node.prop as usize)) {
            node.high
        } else {
            node.low
        }
    }
}
