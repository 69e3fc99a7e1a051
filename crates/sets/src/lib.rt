// Sets of states. A set is one 64-bit word, whose bit s stands for state s: this is the only place with masks and shifts on sets, and every question that
// is asked of a set is asked here, since no other crate sees the word but by the two conversions. Each contract is in the words of `meaning`.
#![tactic(auto)]

ghost use Rattle.std.specs.Prelude.{◌≡◌, cond, ◌<◌, ◌^◌, ltb};
ghost use Rattle.std.specs.Int.Count.{count_trailing_zeros};
ghost use Rattle.meaning.specs.Sets.{◌∈◌, ◌⊆◌, size, Tells};
ghost use Rattle.meaning.specs.Sets as sets;
ghost use Rattle.sets.specs.Words.{most, set_of, set_for};

// A set of states. C sees its word.
#[repr(C)]
#[derive(Clone, Copy, Debug, PartialEq, Eq)]
pub struct Set {
    word: u64,
}

// The states of a set, which are those below it.
const MOST: usize = 64;

// The set that a word stands for.
impl From<u64> for Set {
    ghost from_gives = { λ word set. set ≡ set_for word };

    #[tactic(auto, unfolding(crate::specs::Words::set_for))]
    fn from(word: u64) -> Set {
        Set { word }
    }
}

// The word of a set.
impl From<Set> for u64 {
    ghost from_gives = { λ set word. word ≡ set_of set };

    #[tactic(auto, unfolding(crate::specs::Words::set_of))]
    fn from(set: Set) -> u64 {
        set.word
    }
}

impl Set {
    // The set with no state.
    #[tactic(auto, unfolding(crate::specs::Words::set_for))]
    pub fn empty() -> Set
        ensures { result ≡ set_for sets.empty }
    {
        Set { word: 0 }
    }

    // The set with the one state `s`, and with none where there is no such state.
    pub fn single(s: usize) -> Set
        ensures { result ≡ set_for (cond (ltb s most) (2 ^ s) sets.empty) }
    {
        let word = if s < MOST { 1 << s } else { 0 };
        Set { word }
    }

    // The states that are in this set or in `y`.
    pub fn union(self, y: Set) -> Set
        ensures { result ≡ set_for (sets.union (set_of self) (set_of y)) }
    {
        Set {
            word: self.word | y.word,
        }
    }

    // The states of this set but for `s`.
    pub fn without(self, s: usize) -> Set
        ensures { result ≡ set_for (sets.without (set_of self) s) }
    {
        if !self.has(s) {
            return self;
        }
        Set {
            word: self.word - (1 << s),
        }
    }

    // Whether this set and `y` have the same states.
    pub fn same(self, y: Set) -> bool
        ensures { Tells result (set_of self ≡ set_of y) }
    {
        self.word == y.word
    }

    // Whether this set has no state.
    pub fn is_empty(self) -> bool
        ensures { Tells result (set_of self ≡ sets.empty) }
    {
        self.word == 0
    }

    // Whether each state of this set is in `y`.
    pub fn inside(self, y: Set) -> bool
        ensures { Tells result (set_of self ⊆ set_of y) }
    {
        self.word & y.word == self.word
    }

    // Whether state `s` is in this set. There is no state 64 or above.
    pub fn has(self, s: usize) -> bool
        ensures { Tells result (s ∈ set_of self) }
    {
        if s < MOST {
            (self.word >> s) & 1 == 1
        } else {
            false
        }
    }

    // Whether this set names no state at or above `states`.
    pub fn within(self, states: usize) -> bool
        ensures { Tells result (set_of self < 2 ^ states) }
    {
        if states < MOST {
            self.word >> states == 0
        } else {
            true
        }
    }

    // How many states this set has.
    #[tactic(auto, unfolding(crate::specs::Words::set_of))]
    pub fn ones(self) -> u32
        ensures { result ≡ size (set_of self) }
    {
        self.word.count_ones()
    }

    // The lowest state of this set, and 64 where it has none: kept as a number, since the clause is the language's own count of trailing zeros.
    #[tactic(auto, unfolding(crate::specs::Words::set_of))]
    pub fn lowest(self) -> usize
        ensures { result ≡ count_trailing_zeros most (set_of self) }
    {
        self.word.trailing_zeros() as usize
    }
}
