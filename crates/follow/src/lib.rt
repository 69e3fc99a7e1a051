// One command from one set: whether it is sendable, and its image. The following sets are read straight from the sheet's bytes, by the head
// that the reader gave.
#![tactic(auto)]

ghost use Rattle.std.specs.Prelude.{◌≡◌};
ghost use Rattle.meaning.specs.Walk as walk;
ghost use Rattle.sets.specs.Words.{set_of, set_for};
ghost use Rattle.follow.specs.Following.{domain_of};

use sets::Set;
use sheet::Head;

// A scanner as an accepted sheet describes it: the sheet's head, and its bytes, from which the following sets are read.
#[derive(Clone, Copy)]
pub struct Scanner<'a> {
    pub head: Head,
    pub sheet: &'a [u8],
}

impl<'a> Scanner<'a> {
    // Whether each state of `set` can take `command`. It stops at the first that cannot.
    pub fn sendable(self, command: usize, set: Set) -> bool
        ensures { result ≡ walk.sendable ((domain_of self.entry).follow command) (set_of set) self.entry.head.states }
    {
        let states = self.head.states;
        for state in 0..states {
            if set.has(state) {
                if shown::set_at(self.sheet, states, command, state).is_empty() {
                    return false;
                }
            }
        }
        true
    }

    // The union of what follows each state of `set` by `command`.
    pub fn image(self, command: usize, set: Set) -> Set
        ensures { result ≡ set_for (walk.image ((domain_of self.entry).follow command) (set_of set) self.entry.head.states) }
    {
        let states = self.head.states;
        let mut all = Set::empty();
        for state in 0..states {
            if set.has(state) {
                all = all.union(shown::set_at(self.sheet, states, command, state));
            }
        }
        all
    }
}
