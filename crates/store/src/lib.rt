// The store of a search: a lent slice of records of set, parent and command. `node_at` and `put` read and store one record; the others look a set up
// and read a plan back.
#![tactic(auto)]

ghost use Rattle.std.specs.Prelude.{◌≡◌, ◌<◌, ◌≤◌, length, set as put_at, get_or};
ghost use Rattle.sets.specs.Words.{set_of};
ghost use Rattle.store.specs.Nodes.{nothing, Found};
ghost use Rattle.store.specs.Paths.{HasPath, LengthOf, WrittenBack, ReadBack};

use sets::Set;

// One place of the store, laid out as C lays it out: a function of the plugin takes a slice of them. Kept as places that name one another by number, with a number
// of those in use beside the slice: the memory is lent and fixed. Place 0 has parent 0 and command 255, and no `Option`: C sees the records, and the scope names both.
#[repr(C)]
#[derive(Clone, Copy)]
pub struct Node {
    pub set: Set,
    pub parent: u32,
    pub command: u8,
}

// What a place holds before anything is stored there, in a store that is made here and not lent.
pub fn blank() -> Node
    ensures { result ≡ nothing }
{
    Node {
        set: Set::empty(),
        parent: 0,
        command: 0,
    }
}

// The record at place `i`.
pub fn node_at(store: &[Node], i: usize) -> Node
    requires { i < length store.now }
    ensures { result ≡ get_or store.now i nothing }
{
    store[i]
}

// Stores a record at place `i`.
pub fn put(store: &mut [Node], i: usize, node: Node)
    requires { i < length store.old }
    ensures { store.new ≡ put_at store.old i node }
{
    store[i] = node;
}

// A place among these that holds the set, if one does.
pub fn place_of(places: &[Node], set: Set) -> Option<usize>
    ensures { Found places.now (length places.now) (set_of set) result }
{
    places.iter().position(|n| n.set.same(set))
}

// The length of the plan of place `at`: how many parents there are on the way back to place 0. Kept as a `while`: it goes over no range, but from place to parent.
fn plan_length(store: &[Node], at: usize) -> usize
    requires { HasPath store.now at }
    ensures { LengthOf store.now at result }
{
    let mut i = at;
    let mut total: usize = 0;
    while i != 0 {
        let n = node_at(store, i);
        i = n.parent as usize;
        total += 1;
    }
    total
}

// Writes the plan of place `at`, which has that length, into the start of the plan buffer, its last command first.
fn write_plan(store: &[Node], at: usize, plan: &mut [u8], total: usize)
    requires length_of { LengthOf store.now at total }
    requires total_in_bounds { total ≤ length plan.old }
    ensures { WrittenBack store.now at plan.old plan.new }
{
    let mut i = at;
    for left in (0..total).rev() {
        let n = node_at(store, i);
        plan[left] = n.command;
        i = n.parent as usize;
    }
}

// The plan of place `at`, into the start of the plan buffer if it fits there; its length.
pub fn read_back(store: &[Node], at: usize, plan: &mut [u8]) -> usize
    requires { HasPath store.now at }
    ensures { ReadBack store.now at plan.old plan.new result }
{
    let total = plan_length(store, at);
    if total <= plan.len() {
        write_plan(store, at, plan, total);
    }
    total
}
