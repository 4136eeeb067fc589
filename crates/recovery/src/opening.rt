// Opening a store.
ghost use Rattle.std.specs.Prelude.{◌≡◌, ◌≤◌, ◌<◌, List, [], length, IfOk, IfErr, IsTrue};
ghost use Rattle.std.specs.Prelude.{◌↔◌, false};
ghost use Rattle.calls.specs.Contents.{Collection};
ghost use Rattle.calls.specs.declared.refusal.Refusal.{Refusal};
ghost use Rattle.calls.specs.Formats.{max_area, widest};
ghost use Rattle.calls.specs.Limits.{number_end};
ghost use Rattle.disk_model.specs.Disk.{ReadsOnly, Rises, IsAtRest};
ghost use Rattle.gate_block.specs.Area.{has_failed};
ghost use Rattle.checkpoint.specs.Keepers.{IsOneOfTwo, IsFresh};
ghost use Rattle.replay.specs.Journals.{StandsFor};
ghost use Rattle.txn.specs.Books.{opened};
ghost use Rattle.recovery.specs.Heads.{HasHeader, HasNoHeader};
ghost use Rattle.replay.specs.Undoing.{blocks_len};
ghost use Rattle.recovery.specs.Openings.{IsOpened, IsDamagedAt, HasNoRoom, IsReadyStore};
ghost use Rattle.recovery.specs.Openings.{IsOpenRefusal, KeepsContent, book_of};

use crate::finding::{Found, find};
use calls::Refusal;
use catalog::Catalog;
use checkpoint::Keeper;
use disk_model::Disk;
use gate_block::Area;
use replay::{Machine, append_all, blocks_len, make_room};
use std::alloc::Global;
use txn::Book;

// Whether so many records of an undoing fit, in blocks, in so many bytes, with a gate behind them.
fn fits(room: u64, count: usize) -> bool
    requires { room ≤ max_area widest }
    ensures { IsTrue result ↔ (blocks_len count < room) }
{
    blocks_len(count as u64) < room
}

/// A store whose losers are undone, in memory and on its disk.
#[derive(Drop)]
pub(crate) struct Recovered {
    pub machine: Machine<Catalog>,
    /// A number above every number that was entered.
    pub next: u64,
    pub area: Area,
    ghost bound: { (1 ≤ next) × (next ≤ number_end) },
}

/// Undoes the losers of the store on a disk, and writes the records of that, as `open` says.
pub(crate) fn recover<D: Disk>(alloc: Global, disk: &mut D) -> Result<Recovered, Refusal>
    // What it answers, of a disk that read true.
    ensures opened { IfOk result (λ x. D.is_honest disk.new →
        IsOpened (D.seen disk.old) (book_of x.machine x.next) x.area (D.seen disk.new)) }
    ensures content { (content : List Collection) → StandsFor (D.seen disk.old) content →
        IfOk result (λ x. D.is_honest disk.new → x.machine.now ≡ content) }
    // What a stop leaves.
    ensures kept { D.is_honest disk.new →
        KeepsContent D.seen D.may_leave D.moment D.left_since disk.old disk.new }
    // What the disk holds then.
    ensures untouched { IfOk result
        (λ x. D.is_honest disk.new → (o : IsOpened (D.seen disk.old) (book_of x.machine x.next)
        x.area (D.seen disk.new)) →
        o.undoing ≡ [] → ReadsOnly D.seen D.may_leave D.moment D.left_since disk.old disk.new) }
    ensures durable { IfOk result (λ x. D.is_honest disk.new →
        IsAtRest D.seen D.may_leave disk.old → IsAtRest D.seen D.may_leave disk.new) }
    // Where the area is.
    ensures area { IfOk result (λ x. (has_failed x.area ≡ false) ×
        IsOneOfTwo x.area (length (D.seen disk.new))) }
    // Why it is refused, and that nothing is written then, but at a Fault.
    ensures refused { IfErr result (IsOpenRefusal
        (Rises (D.fault_count disk.old) (D.fault_count disk.new))
        (D.is_honest disk.new → HasNoHeader (D.seen disk.old))
        (λ place. D.is_honest disk.new → IsDamagedAt (D.seen disk.old) place)
        (D.is_honest disk.new → HasNoRoom (D.seen disk.old))) }
    ensures starved { IfErr result (λ e. e ≡ Refusal.NoMemory → D.is_honest disk.new →
        HasHeader (D.seen disk.old)) }
    ensures unchanged { IfErr result
        (λ e. (e ≡ Refusal.Fault → ⊥) →
        ReadsOnly D.seen D.may_leave D.moment D.left_since disk.old disk.new) }
    // What the device tells, and its length.
    ensures honest { D.is_honest disk.new → D.is_honest disk.old }
    ensures faults { D.fault_count disk.old ≤ D.fault_count disk.new }
    ensures size { length (D.seen disk.new) ≡ length (D.seen disk.old) }
{
    let Found {
        machine,
        next,
        mut area,
        room,
        records,
        ..
    } = find(alloc, disk)?;
    if !fits(room, records.len()) {
        return Err(Refusal::Full);
    }
    let buffer = make_room(alloc)?;
    append_all(disk, &mut area, records.as_slice(), buffer)?;
    Ok(Recovered {
        machine,
        next,
        area,
    })
}

// The book of a machine in which nothing is live.
fn book_of(alloc: Global, machine: Machine<Catalog>, next: u64) -> Book<Catalog>
    requires { (1 ≤ next) × (next ≤ number_end) }
    ensures { result ≡ book_of machine next }
{
    let wear = machine.wear();
    let format = machine.format();
    Book::new(alloc, format, machine.into_parts(), next, wear)
}

/// Opens the store on a disk, in the manner of ARIES: reads the area in use and repeats all its
/// records; undoes each transaction that has not ended, by rising number; and writes the records of
/// that, a Back for each call and then an Ended, behind the others, 64 to a block. Nothing is
/// written where none was live, and none is live in the book. The keeper's mark is 0. A stop at any
/// moment leaves a store of the same content, that can be opened again.
///
/// It holds the body of one block at a time, beside what the collections hold, the live
/// transactions asked for, and the records of the undoing. So the memory that it takes is bounded
/// by the bytes of the area in use, whatever they are: at most 15 bytes were measured for each of
/// these (`tools/memory.py`). Each record is read once, and repeated in the time of its call and of
/// the needs and live calls that stand then.
///
/// Refused NotAStore, where the disk read true only if it has no head of a store; Fault where the
/// disk failed; Damaged with the offset of the gate of the block in which the first damage stands,
/// where the disk read true only if the bytes are not sound; NoMemory, where the disk read true
/// only if it has a head of a store; Full, where the disk read true only if the records of the
/// undoing do not fit. All but Fault come with nothing written. A refusal hands the disk back.
pub fn open<D: Disk>(alloc: Global, disk: D) -> Result<(Book<Catalog>, Keeper<D>), (Refusal, D)>
    // What it answers, of a disk that read true.
    ensures opened { IfOk result (λ x. D.is_honest x.1.disk →
        IsOpened (D.seen disk) x.0 x.1.area (D.seen x.1.disk)) }
    ensures content { (content : List Collection) → StandsFor (D.seen disk) content →
        IfOk result (λ x. D.is_honest x.1.disk → x.0.state.now ≡ content) }
    // What a stop leaves.
    ensures kept { IfOk result (λ x. D.is_honest x.1.disk →
        KeepsContent D.seen D.may_leave D.moment D.left_since disk x.1.disk) }
    ensures kept_in_refusal { IfErr result
        (λ x. D.is_honest x.1 → KeepsContent D.seen D.may_leave D.moment D.left_since disk x.1) }
    // What the disk and the keeper hold then.
    ensures untouched { IfOk result
        (λ x. D.is_honest x.1.disk → (o : IsOpened (D.seen disk) x.0 x.1.area (D.seen x.1.disk)) →
        o.undoing ≡ [] → ReadsOnly D.seen D.may_leave D.moment D.left_since disk x.1.disk) }
    ensures rests { IfOk result (λ x. x.0 ≡
        opened x.0.state.format x.0.state.now x.0.next x.0.state.wear) }
    ensures fresh { IfOk result (λ x. IsFresh x.1) }
    ensures ready { IfOk result (λ x. D.is_honest x.1.disk → IsAtRest D.seen D.may_leave disk →
        IsReadyStore D.seen D.may_leave (D.seen disk) x.0 x.1.area x.1.disk) }
    // Why it is refused, and that nothing is written then, but at a Fault.
    ensures refused { IfErr result (λ x. IsOpenRefusal
        (Rises (D.fault_count disk) (D.fault_count x.1))
        (D.is_honest x.1 → HasNoHeader (D.seen disk))
        (λ place. D.is_honest x.1 → IsDamagedAt (D.seen disk) place)
        (D.is_honest x.1 → HasNoRoom (D.seen disk)) x.0) }
    ensures starved { IfErr result (λ x. x.0 ≡ Refusal.NoMemory → D.is_honest x.1 →
        HasHeader (D.seen disk)) }
    ensures unchanged { IfErr result
        (λ x. (x.0 ≡ Refusal.Fault → ⊥) →
        ReadsOnly D.seen D.may_leave D.moment D.left_since disk x.1) }
    // What the device tells, and its length.
    ensures honest { IfOk result (λ x. D.is_honest x.1.disk → D.is_honest disk) }
    ensures honest_in_refusal { IfErr result (λ x. D.is_honest x.1 → D.is_honest disk) }
    ensures size { IfOk result (λ x. length (D.seen x.1.disk) ≡ length (D.seen disk)) }
    ensures size_in_refusal { IfErr result (λ x. length (D.seen x.1) ≡ length (D.seen disk)) }
{
    let mut disk = disk;
    match recover(alloc, &mut disk) {
        Ok(
            Recovered {
                machine,
                next,
                area,
            },
        ) => Ok((book_of(alloc, machine, next), Keeper::new(disk, area))),
        Err(refusal) => Err((refusal, disk)),
    }
}
