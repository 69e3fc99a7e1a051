// The exploration of a search, over a store that the caller lends. Places are expanded in order, each by the commands in order, so the store fills up
// with the listing; the goal test is made when a set is stored.
#![tactic(auto)]

ghost use Rattle.std.specs.Prelude.{◌≡◌, ◌+◌, ◌≤◌, ◌<◌, length};
ghost use Rattle.meaning.specs.Answers.{room as room_for};
ghost use Rattle.sets.specs.Words.{set_of};
ghost use Rattle.follow.specs.Following.{domain_of};
ghost use Rattle.store.specs.Nodes.{set_at};
ghost use Rattle.explore.specs.Ready.{Ready};
ghost use Rattle.explore.specs.Turns.{Tested, NextAt, Going, Turned, Explored};

use follow::Scanner;
use sets::Set;
use std::ops::ControlFlow;
use store::{Node, node_at, place_of, put};

// At most so many places of a store count.
const MOST_PLACES: usize = 65536;

// The room of a store.
fn room_of(places: usize) -> usize
    ensures { result ≡ room_for places }
{
    places.min(MOST_PLACES)
}

// How an exploration ends: a set inside the goal is stored, or every place is expanded and no set is inside it, or a new set has no place.
#[derive(Clone, Copy, Debug, PartialEq, Eq)]
pub enum Ending {
    Plan,
    NoPlan,
    NoRoom,
}

// How an exploration ended, and how many places are then stored.
#[derive(Clone, Copy)]
pub struct End {
    pub ending: Ending,
    pub count: usize,
}

// An exploration of a scanner: the goal that it looks for, and how many places of the store it may fill.
#[derive(Clone, Copy)]
struct Exploration<'a> {
    scanner: Scanner<'a>,
    goal: Set,
    room: usize,
}

impl<'a> Exploration<'a> {
    // Whether to go on after a set was stored as the last of `count`.
    fn stored(self, set: Set, count: usize) -> ControlFlow<End, usize>
        ensures { Tested (set_of set) (set_of self.entry.goal) count result }
    {
        if set.inside(self.goal) {
            return ControlFlow::Break(End {
                ending: Ending::Plan,
                count,
            });
        }
        ControlFlow::Continue(count)
    }

    // The set that a command gives at place `i`, if it gives one that none of the first `count` places holds.
    fn next_at(self, store: &[Node], count: usize, i: usize, command: usize) -> Option<Set>
        requires i_lt_count { i < count }
        requires count_in_bounds { count ≤ length store.now }
        ensures { NextAt (domain_of self.entry.scanner) store.now count i command result }
    {
        let n = node_at(store, i);
        if !self.scanner.sendable(command, n.set) {
            return None;
        }
        let set = self.scanner.image(command, n.set);
        match place_of(&store[..count], set) {
            None => Some(set),
            Some(_) => None,
        }
    }

    // Tries one command at place `i`. What holds of the store between two calls (`Going`) is kept in the clauses: a struct that held the lent store would say it through
    // one more field.
    fn try_at(
        self,
        store: &mut [Node],
        count: usize,
        i: usize,
        command: usize,
    ) -> ControlFlow<End, usize>
        requires going { Going (domain_of self.scanner) (set_at store.old 0) (set_of self.goal) self.room i command count store.old }
        requires i_lt_count { i < count }
        requires command_lt_commands { command < self.scanner.head.commands }
        ensures { Turned (domain_of self.entry.scanner) (set_at store.old 0) (set_of self.entry.goal) self.entry.room i (command + 1) count store.old store.new result }
    {
        let Some(set) = self.next_at(store, count, i, command) else {
            return ControlFlow::Continue(count);
        };
        if count == self.room {
            return ControlFlow::Break(End {
                ending: Ending::NoRoom,
                count,
            });
        }
        let node = Node {
            set,
            parent: i as u32,
            command: command as u8,
        };
        put(store, count, node);
        self.stored(set, count + 1)
    }

    // Tries all commands at place `i`, with `first` places stored before.
    fn expand(self, store: &mut [Node], first: usize, i: usize) -> ControlFlow<End, usize>
        requires going { Going (domain_of self.scanner) (set_at store.old 0) (set_of self.goal) self.room i 0 first store.old }
        requires i_lt_first { i < first }
        ensures { Turned (domain_of self.entry.scanner) (set_at store.old 0) (set_of self.entry.goal) self.entry.room (i + 1) 0 first store.old store.new result }
    {
        let mut count = first;
        for command in 0..self.scanner.head.commands {
            count = self.try_at(store, count, i, command)?;
        }
        ControlFlow::Continue(count)
    }

    // Expands every place, from the initial set at place 0 on.
    fn run(self, store: &mut [Node]) -> End
        requires { Going (domain_of self.scanner) (set_at store.old 0) (set_of self.goal) self.room 0 0 1 store.old }
        ensures { Explored (domain_of self.entry.scanner) (set_at store.old 0) (set_of self.entry.goal) self.entry.room 1 store.old store.new result }
    {
        let mut count: usize = 1;
        let mut i: usize = 0;
        // Kept as an index loop: `count` grows while it runs.
        while i < count {
            match self.expand(store, count, i) {
                ControlFlow::Continue(now) => count = now,
                ControlFlow::Break(end) => return end,
            }
            i += 1;
        }
        End {
            ending: Ending::NoPlan,
            count,
        }
    }
}

// Stores the start at place 0, which has parent 0 and command 255, and runs on from there.
pub fn explore(scanner: Scanner, start: Set, goal: Set, store: &mut [Node]) -> End
    requires { Ready (domain_of scanner) (set_of start) }
    ensures { Explored (domain_of scanner.entry) (set_of start) (set_of goal) (room_for (length store.old)) 0 store.old store.new result }
{
    let room = room_of(store.len());
    if room == 0 {
        return End {
            ending: Ending::NoRoom,
            count: 0,
        };
    }
    let first = Node {
        set: start,
        parent: 0,
        command: 255,
    };
    put(store, 0, first);
    let exploration = Exploration {
        scanner,
        goal,
        room,
    };
    match exploration.stored(start, 1) {
        ControlFlow::Continue(_) => exploration.run(store),
        ControlFlow::Break(end) => end,
    }
}
