// A collection of any kind: what it answers, its items, and how it is filled.
ghost use Rattle.std.specs.Prelude.{◌≡◌, ◌⊎◌, ◌↔◌, IsTrue, IsOk, IfOk, OnOk, OnErr, IsOkUnless, []};
ghost use Rattle.std.specs.Prelude.{◌∷◌, map};
ghost use Rattle.calls.specs.declared.reply.Reply.{Reply};
ghost use Rattle.calls.specs.Contents.{Answers, after, empty, kind_of_content, items_of, InMap};
ghost use Rattle.calls.specs.Contents.{InQueue, InQuotas, IsItemOf};
ghost use Rattle.calls.specs.Rules.{Askable, TakesNoMemory, AsksForValue};
ghost use Rattle.boosted.specs.Kinds.{IsOf};
ghost use Rattle.boosted.specs.Meaning.{IsRoomy};
ghost use Rattle.catalog.specs.Places.{Reaches};
ghost use Rattle.catalog.specs.Holdings.{content_of, ListsContent, pair_item, AreItems, Precedes};
ghost use Rattle.catalog.specs.Holdings.{Rise, AreInOrder, Follows, with_item, filled, HasItems};
ghost use Rattle.calls.specs.declared.item.Item.{Item};

use boosted::Boosted;
use calls::{Call, Item, Kind, Refusal, Reply};
use collections::{CounterCol, MapCol, PoolCol, QueueCol, QuotasCol, SetCol, StockCol};
use std::alloc::{AllocError, Global};
use std::collections::btree_set::Iter;

/// A collection of any kind.
#[derive(Drop)]
pub enum Holding {
    Set(SetCol),
    Map(MapCol),
    Queue(QueueCol),
    Counter(CounterCol),
    Pool(PoolCol),
    Stock(StockCol),
    Quotas(QuotasCol),
}

impl Holding {
    // An empty collection of the kind. It takes no memory.
    pub(crate) fn new(kind: Kind, alloc: Global) -> Self
        ensures { content_of result ≡ empty kind }
    {
        match kind {
            Kind::Set => Holding::Set(SetCol::new(alloc)),
            Kind::Map => Holding::Map(MapCol::new(alloc)),
            Kind::Queue => Holding::Queue(QueueCol::new(alloc)),
            Kind::Counter => Holding::Counter(CounterCol::new()),
            Kind::Pool => Holding::Pool(PoolCol::new(alloc)),
            Kind::Stock => Holding::Stock(StockCol::new()),
            Kind::Quotas => Holding::Quotas(QuotasCol::new(alloc)),
        }
    }

    // The kind.
    pub(crate) fn kind(&self) -> Kind
        ensures { result ≡ kind_of_content (content_of self.now) }
    {
        match self {
            Holding::Set(_) => Kind::Set,
            Holding::Map(_) => Kind::Map,
            Holding::Queue(_) => Kind::Queue,
            Holding::Counter(_) => Kind::Counter,
            Holding::Pool(_) => Kind::Pool,
            Holding::Stock(_) => Kind::Stock,
            Holding::Quotas(_) => Kind::Quotas,
        }
    }

    // The same once more. Refused only for want of memory.
    pub(crate) fn copy(&self) -> Result<Self, AllocError>
        ensures { IfOk result (λ copy. content_of copy ≡ content_of self.now) }
    {
        match self {
            Holding::Set(set) => Ok(Holding::Set(set.copy()?)),
            Holding::Map(map) => Ok(Holding::Map(map.copy()?)),
            Holding::Queue(queue) => Ok(Holding::Queue(queue.copy()?)),
            Holding::Counter(counter) => Ok(Holding::Counter(counter.copy())),
            Holding::Pool(pool) => Ok(Holding::Pool(pool.copy()?)),
            Holding::Stock(stock) => Ok(Holding::Stock(stock.copy())),
            Holding::Quotas(quotas) => Ok(Holding::Quotas(quotas.copy()?)),
        }
    }

    // Whether the call may get this reply now. It takes no memory.
    pub(crate) fn fits(&self, call: &Call, reply: &Reply) -> bool
        ensures { IsTrue result ↔ Answers (content_of self.now) call.now reply.now }
    {
        match self {
            Holding::Set(set) => Boosted::fits(set, (), call, reply),
            Holding::Map(map) => Boosted::fits(map, (), call, reply),
            Holding::Queue(queue) => Boosted::fits(queue, (), call, reply),
            Holding::Counter(counter) => Boosted::fits(counter, (), call, reply),
            Holding::Pool(pool) => Boosted::fits(pool, (), call, reply),
            Holding::Stock(stock) => Boosted::fits(stock, (), call, reply),
            Holding::Quotas(quotas) => Boosted::fits(quotas, (), call, reply),
        }
    }

    // A reply that the call may get now. NoMemory only for a call whose reply may hold a value.
    pub(crate) fn look(&self, call: &Call) -> Result<Reply, Refusal>
        requires kind { IsOf (kind_of_content (content_of self.now)) call.now }
        requires reply { Askable call.now ⊎
            ((r : Reply) × Answers (content_of self.now) call.now r) }
        ensures ok { IfOk result (λ reply. Answers (content_of self.now) call.now reply) }
        ensures refusal { IsOkUnless result Refusal.NoMemory }
        ensures value { OnErr result (AsksForValue call.now) }
    {
        match self {
            Holding::Set(set) => Boosted::look(set, (), call),
            Holding::Map(map) => Boosted::look(map, (), call),
            Holding::Queue(queue) => Boosted::look(queue, (), call),
            Holding::Counter(counter) => Boosted::look(counter, (), call),
            Holding::Pool(pool) => Boosted::look(pool, (), call),
            Holding::Stock(stock) => Boosted::look(stock, (), call),
            Holding::Quotas(quotas) => Boosted::look(quotas, (), call),
        }
    }

    // Makes the call, answered so. NoMemory leaves the collection as before, and comes only for a
    // call that puts something in.
    pub(crate) fn run(&mut self, call: &Call, reply: &Reply) -> Result<(), Refusal>
        requires can { Answers (content_of self.old) call.now reply.now }
        requires room { IsRoomy (Reaches (content_of self.old)) }
        ensures ok { OnOk result (content_of self.new ≡
            after (content_of self.old) call.now reply.now) }
        ensures err { OnErr result (content_of self.new ≡ content_of self.old) }
        ensures refusal { IsOkUnless result Refusal.NoMemory }
        ensures no_memory { TakesNoMemory call.now → IsOk result }
    {
        match self {
            Holding::Set(set) => Boosted::run(set, (), call, reply),
            Holding::Map(map) => Boosted::run(map, (), call, reply),
            Holding::Queue(queue) => Boosted::run(queue, (), call, reply),
            Holding::Counter(counter) => Boosted::run(counter, (), call, reply),
            Holding::Pool(pool) => Boosted::run(pool, (), call, reply),
            Holding::Stock(stock) => Boosted::run(stock, (), call, reply),
            Holding::Quotas(quotas) => Boosted::run(quotas, (), call, reply),
        }
    }
}

impl Holding {
    // What the collection holds, item by item in order. NoMemory alone is refused.
    pub(crate) fn items(&self, alloc: Global) -> Result<Vec<Item>, AllocError>
        ensures { IfOk result (λ items. ListsContent items.items (content_of self.now)) }
    {
        match self {
            Holding::Set(set) => elements_of(set.iter(), alloc),
            Holding::Map(map) => entries_of(map, alloc),
            Holding::Queue(queue) => pairs_of(queue, alloc),
            Holding::Counter(counter) => one_number(counter.total(), alloc),
            Holding::Pool(pool) => elements_of(pool.iter(), alloc),
            Holding::Stock(stock) => one_number(stock.level(), alloc),
            Holding::Quotas(quotas) => amounts_of(quotas, alloc),
        }
    }
}

impl Holding {
    // How many items the collection holds. It takes no memory, and constant time.
    pub(crate) fn count(&self) -> usize
        ensures { HasItems result (content_of self.now) }
    {
        match self {
            Holding::Set(set) => set.len(),
            Holding::Map(map) => map.len(),
            Holding::Queue(queue) => queue.len(),
            Holding::Pool(pool) => pool.len(),
            Holding::Quotas(quotas) => quotas.len(),
            Holding::Counter(_) | Holding::Stock(_) => 1,
        }
    }
}

fn elements_of(numbers: Iter<'_, u64>, alloc: Global) -> Result<Vec<Item>, AllocError>
    ensures { IfOk result (λ items. items.items ≡ map Item.Element numbers.entry) }
{
    numbers.map(|x| Item::Element(*x)).collect(alloc)
}

fn entries_of(map: &MapCol, alloc: Global) -> Result<Vec<Item>, AllocError>
    ensures { IfOk result (λ items. items.items ≡ items_of (InMap map.now)) }
{
    let mut items = Vec::new(alloc);
    for (key, value) in map.iter() {
        items.push(Item::Entry(*key, value.clone()?))?;
    }
    Ok(items)
}

fn pairs_of(queue: &QueueCol, alloc: Global) -> Result<Vec<Item>, AllocError>
    ensures { IfOk result (λ items. items.items ≡ items_of (InQueue queue.now)) }
{
    let pairs = queue.to_vec(alloc)?;
    items_of_pairs(&pairs, alloc)
}

fn items_of_pairs(pairs: &[(u64, u64)], alloc: Global) -> Result<Vec<Item>, AllocError>
    ensures { IfOk result (λ items. items.items ≡ map pair_item pairs.now) }
{
    pairs
        .iter()
        .map(|(priority, tag)| Item::Pair(*priority, *tag))
        .collect(alloc)
}

fn amounts_of(quotas: &QuotasCol, alloc: Global) -> Result<Vec<Item>, AllocError>
    ensures { IfOk result (λ items. items.items ≡ items_of (InQuotas quotas.now)) }
{
    let mut items = Vec::new(alloc);
    for (key, less_one) in quotas.iter() {
        items.push(Item::Amount(*key, (*less_one + 1) as i128))?;
    }
    Ok(items)
}

fn one_number(number: i128, alloc: Global) -> Result<Vec<Item>, AllocError>
    ensures { IfOk result (λ items. items.items ≡ Item.Number number ∷ []) }
{
    let mut items = Vec::new(alloc);
    items.push(Item::Number(number))?;
    Ok(items)
}

// Whether a collection of the kind can have these items, in this order.
pub fn are_items(kind: Kind, items: &[Item]) -> bool
    ensures { IsTrue result ↔ AreItems kind items.now }
{
    are_in_order(kind, items)
}

fn are_in_order(kind: Kind, items: &[Item]) -> bool
    ensures { IsTrue result ↔ AreInOrder kind items.now }
{
    match (kind, items) {
        (Kind::Counter | Kind::Stock, []) => false,
        (_, []) => true,
        (_, [first, rest @ ..]) => rise(kind, first, rest),
    }
}

// Whether the items behind a first one are in order.
fn rise(kind: Kind, first: &Item, rest: &[Item]) -> bool
    ensures { IsTrue result ↔ Rise kind first.now rest.now }
{
    let mut last = first;
    for item in rest {
        if !precedes(kind, last, item) {
            return false;
        }
        last = item;
    }
    is_item_of(kind, last)
}

/// Whether the item may come behind these, of which there is none or which are in order: it looks
/// at the last alone.
pub fn follows(kind: Kind, items: &[Item], item: &Item) -> bool
    requires { (items.now ≡ []) ⊎ AreInOrder kind items.now }
    ensures { IsTrue result ↔ Follows kind items.now item.now }
{
    match items.last() {
        None => is_item_of(kind, item),
        Some(last) => precedes(kind, last, item),
    }
}

fn precedes(kind: Kind, first: &Item, second: &Item) -> bool
    ensures { IsTrue result ↔ Precedes kind first.now second.now }
{
    match (kind, first, second) {
        (Kind::Set | Kind::Pool, Item::Element(x), Item::Element(y)) => x < y,
        (Kind::Map, Item::Entry(key, _), Item::Entry(next, _)) => key < next,
        (Kind::Queue, Item::Pair(p, g), Item::Pair(q, h)) => p < q || (p == q && g <= h),
        (Kind::Quotas, Item::Amount(x, m), Item::Amount(y, n)) => x < y && *m > 0 && *n > 0,
        _ => false,
    }
}

fn is_item_of(kind: Kind, item: &Item) -> bool
    ensures { IsTrue result ↔ IsItemOf kind item.now }
{
    match (kind, item) {
        (Kind::Set | Kind::Pool, Item::Element(_)) => true,
        (Kind::Map, Item::Entry(_, _)) => true,
        (Kind::Queue, Item::Pair(_, _)) => true,
        (Kind::Counter, Item::Number(_)) => true,
        (Kind::Stock, Item::Number(n)) => *n >= 0,
        (Kind::Quotas, Item::Amount(_, n)) => *n > 0,
        _ => false,
    }
}

impl Holding {
    // A collection of the kind, into which the items are put. The last goes first: a queue keeps
    // its least pair at the end.
    pub(crate) fn of_items(kind: Kind, mut items: Vec<Item>, alloc: Global) -> Result<Self, Refusal>
        ensures ok { IfOk result (λ holding. content_of holding ≡ filled (empty kind) items.items) }
        ensures refusal { IsOkUnless result Refusal.NoMemory }
    {
        let mut holding = Holding::new(kind, alloc);
        while let Some(item) = items.pop() {
            holding.put(item)?;
        }
        Ok(holding)
    }

    // Puts the item into the collection, if it is one of its kind.
    fn put(&mut self, item: Item) -> Result<(), Refusal>
        ensures ok { OnOk result (content_of self.new ≡ with_item (content_of self.old) item) }
        ensures refusal { IsOkUnless result Refusal.NoMemory }
    {
        match (self, item) {
            (Holding::Set(set), Item::Element(x)) => set.insert(x),
            (Holding::Map(map), Item::Entry(key, value)) => map.put(key, value),
            (Holding::Queue(queue), Item::Pair(priority, tag)) => queue.put(priority, tag),
            (Holding::Counter(counter), Item::Number(n)) => {
                *counter = CounterCol::with_total(n);
                Ok(())
            }
            (Holding::Pool(pool), Item::Element(x)) => pool.take(x),
            (Holding::Stock(stock), Item::Number(n)) if n >= 0 => {
                *stock = StockCol::with_amount(n as u128);
                Ok(())
            }
            (Holding::Quotas(quotas), Item::Amount(key, n)) if n >= 0 => quotas.put(key, n as u128),
            _ => Ok(()),
        }
    }
}
