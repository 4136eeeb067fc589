// A binary heap of pairs, the least at the root, in which a pair can be marked as plucked.
ghost use Rattle.std.specs.Prelude.{◌≡◌, ◌+◌, ◌-◌, ◌*◌, ◌<◌, ◌≤◌, ◌∷◌, length, IsPermutation};
ghost use Rattle.std.specs.Prelude.{IfOk, OnOk, OnErr, MatchOption, MatchBool};
ghost use Rattle.calls.specs.Bags.{copies, take_out};
ghost use Rattle.collections.specs.Holders.{bag_of, pair_of, is_before, marks_of, live, IsHeap};
ghost use Rattle.collections.specs.Holders.{IsLiveAt, RisesAt, SinksAt, IsLeastChild, IsCopyAt};
ghost use Rattle.collections.specs.Holders.{HasNoCopy, IsWithoutRoot, HasMarkedRoot, AreKept};
ghost use Rattle.collections.specs.Holders.{live_pairs};

use std::alloc::{AllocError, Global};

// A pair in the heap. One that is marked was plucked, and stays until it is removed.
#[derive(Clone, Copy, PartialEq)]
pub(crate) struct Holder {
    priority: u64,
    tag: u64,
    marked: bool,
}

impl Holder {
    // The pair.
    pub(crate) fn pair(&self) -> (u64, u64)
        ensures { result ≡ pair_of self.now }
    {
        (self.priority, self.tag)
    }

    // Whether the pair is less than that of the other.
    fn is_before(&self, other: &Holder) -> bool
        ensures { result ≡ is_before self.now other.now }
    {
        self.pair() < other.pair()
    }
}

// Adds the pair, not marked. NoMemory leaves the holders as before. Its cost is logarithmic, but
// where the room is used up.
pub(crate) fn push(holders: &mut Vec<Holder>, priority: u64, tag: u64) -> Result<(), AllocError>
    requires { IsHeap holders.old.items }
    ensures order { IsHeap holders.new.items }
    ensures added { OnOk result
        (IsPermutation (live priority tag ∷ holders.old.items) holders.new.items) }
    ensures root { IsLiveAt holders.old.items 0 → IsLiveAt holders.new.items 0 }
    ensures err { OnErr result (holders.new.items ≡ holders.old.items) }
{
    holders.push(Holder {
        priority,
        tag,
        marked: false,
    })?;
    rise(holders);
    Ok(())
}

// Moves the last holder up, past each greater one above it.
fn rise(holders: &mut [Holder])
    requires some { 0 < length holders.old }
    requires last { RisesAt holders.old (length holders.old - 1) }
    requires live { IsLiveAt holders.old (length holders.old - 1) }
    ensures same { IsPermutation holders.old holders.new }
    ensures order { IsHeap holders.new }
    ensures root { IsLiveAt holders.old 0 → IsLiveAt holders.new 0 }
{
    let mut at = holders.len() - 1;
    while at > 0 {
        let above = (at - 1) / 2;
        if !holders[at].is_before(&holders[above]) {
            return;
        }
        holders.swap(at, above);
        at = above;
    }
}

// Takes the root out. Its cost is logarithmic.
pub(crate) fn remove_root(holders: &mut Vec<Holder>)
    requires some { 0 < length holders.old.items }
    requires order { IsHeap holders.old.items }
    ensures others { IsWithoutRoot holders.old.items holders.new.items }
    ensures order { IsHeap holders.new.items }
{
    holders.swap_remove(0);
    sink(holders);
}

// Moves the first holder down, past each lesser one below it.
fn sink(holders: &mut [Holder])
    requires { SinksAt holders.old 0 }
    ensures same { IsPermutation holders.old holders.new }
    ensures order { IsHeap holders.new }
{
    let mut at = 0;
    while at < holders.len() / 2 {
        let child = least_child(holders, at);
        if !holders[child].is_before(&holders[at]) {
            return;
        }
        holders.swap(at, child);
        at = child;
    }
}

// The lesser of the holders below this one.
fn least_child(holders: &[Holder], at: usize) -> usize
    requires { at * 2 + 1 < length holders.now }
    ensures bound { (at * 2 + 1 ≤ result) × (result ≤ at * 2 + 2) × (result < length holders.now) }
    ensures least { IsLeastChild holders.now at result }
{
    let left = at * 2 + 1;
    let right = left + 1;
    if right < holders.len() && holders[right].is_before(&holders[left]) {
        right
    } else {
        left
    }
}

// The pairs that are not marked, in no order.
pub(crate) fn live_pairs(holders: &[Holder], alloc: Global) -> Result<Vec<(u64, u64)>, AllocError>
    ensures { IfOk result (λ pairs. pairs.items ≡ live_pairs holders.now) }
{
    holders
        .iter()
        .filter(|holder| !holder.marked)
        .map(|holder| holder.pair())
        .collect(alloc)
}

// Where a copy of the pair stands that is not marked. It looks at each holder.
pub(crate) fn find(holders: &[Holder], priority: u64, tag: u64) -> Option<usize>
    ensures { MatchOption result (HasNoCopy holders.now priority tag)
        (λ at. IsCopyAt holders.now at priority tag) }
{
    let wanted = Holder {
        priority,
        tag,
        marked: false,
    };
    holders.iter().position(|holder| *holder == wanted)
}

// Marks one copy of the pair, which stays where it is. It takes no memory.
pub(crate) fn mark(holders: &mut [Holder], priority: u64, tag: u64)
    requires some { 0 < copies (bag_of holders.old) (priority, tag) }
    requires order { IsHeap holders.old }
    ensures bag { bag_of holders.new ≡ take_out (bag_of holders.old) (priority, tag) }
    ensures order { IsHeap holders.new }
    ensures marks { marks_of holders.new ≡ marks_of holders.old + 1 }
{
    match find(holders, priority, tag) {
        Some(at) => holders[at].marked = true,
        None => unreachable!(),
    }
}

// Removes holders that are marked, of which there are this many, so that the root is none of them
// and they are no more than the others, and answers how many are left. It takes no memory. Over
// many calls its cost is logarithmic for each holder that was marked.
pub(crate) fn sift(holders: &mut Vec<Holder>, marked: usize) -> usize
    requires order { IsHeap holders.old.items }
    requires marks { marked ≡ marks_of holders.old.items }
    ensures kept { AreKept holders.new.items result }
    ensures bag { bag_of holders.new.items ≡ bag_of holders.old.items }
{
    if marked > holders.len() - marked {
        drop_marked(holders);
        return 0;
    }
    drop_marked_roots(holders, marked)
}

// Removes all that are marked, and sorts the others in place: a list in order is a heap.
fn drop_marked(holders: &mut Vec<Holder>)
    ensures kept { AreKept holders.new.items 0 }
    ensures bag { bag_of holders.new.items ≡ bag_of holders.old.items }
{
    holders.retain(|holder| !holder.marked);
    holders.sort_unstable_by_key(|holder| holder.pair());
}

// Removes the root while it is marked.
fn drop_marked_roots(holders: &mut Vec<Holder>, mut marked: usize) -> usize
    requires order { IsHeap holders.old.items }
    requires marks { marked ≡ marks_of holders.old.items }
    requires fewer { marked * 2 ≤ length holders.old.items }
    ensures kept { AreKept holders.new.items result }
    ensures bag { bag_of holders.new.items ≡ bag_of holders.old.items }
{
    while has_marked_root(holders) {
        remove_root(holders);
        marked -= 1;
    }
    marked
}

// Whether there is a root, and it is marked.
fn has_marked_root(holders: &[Holder]) -> bool
    ensures { MatchBool result (HasMarkedRoot holders.now) (IsLiveAt holders.now 0) }
{
    match holders {
        [root, ..] => root.marked,
        [] => false,
    }
}
