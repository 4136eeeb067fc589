// Finding a store: what its area in use holds, with the losers undone in memory.
ghost use Rattle.std.specs.Prelude.{◌≡◌, ◌≤◌, ◌+◌, IfOk, IfErr, IsOkUnless};
ghost use Rattle.calls.specs.Limits.{number_end};
ghost use Rattle.disk_model.specs.Disk.{ReadsOnly, Rises};
ghost use Rattle.gate_block.specs.Area.{base_of, size_of, offset_of};
ghost use Rattle.calls.specs.declared.refusal.Refusal.{Refusal};
ghost use Rattle.recovery.specs.Heads.{HasHeader, HasNoHeader};
ghost use Rattle.recovery.specs.Openings.{IsDamagedAt, IsFindRefusal};
ghost use Rattle.recovery.specs.Loading.{HoldsImage};
ghost use Rattle.recovery.specs.Finding.{IsFound};
ghost use Rattle.recovery.specs.Surveys.{IsSurvey};

use crate::head::area_in_use;
use crate::loading::{Loaded, load};
use crate::report::{Report, Survey};
use crate::settling::{image_len, image_of};
use calls::Refusal;
use catalog::Catalog;
use disk_model::Disk;
use gate_block::Area;
use gate_block::layout::AREAS_AT;
use records::Record;
use replay::{Machine, Repeated, blocks_len, undo_all};
use std::alloc::Global;

/// A store as it was found. Its losers are undone in memory, and the records of that are still to
/// be written.
#[derive(Drop)]
pub struct Found {
    pub machine: Machine<Catalog>,
    /// A number above every number that was entered.
    pub next: u64,
    pub area: Area,
    /// How many bytes of the area are behind its blocks.
    pub room: u64,
    /// How many bytes of the area its image takes; the journal is behind it.
    pub image: u64,
    pub records: Vec<Record>,
    pub report: Report,
    ghost bound: { (1 ≤ next) × (next ≤ number_end) },
    ghost inside: { image ≤ offset_of area },
}

impl Found {
    /// What the collections hold once the losers are undone.
    pub fn collections(&self) -> &Catalog
        ensures { result.now ≡ self.now.machine.now }
    {
        self.machine.parts()
    }

    /// What room the store takes and has. To tell what an image needs, it is spelled in memory.
    ///
    /// NoMemory.
    pub fn survey(&self, alloc: Global) -> Result<Survey, Refusal>
        ensures survey { IfOk result (λ survey. IsSurvey self.now.area self.now.machine
            self.now.next self.now.records.items self.now.image self.now.report survey) }
        ensures refusal { IsOkUnless result Refusal.NoMemory }
    {
        let checkpoint = image_of(alloc, &self.machine, self.next)?;
        let size = self.area.size();
        let offset = size - self.area.room();
        Ok(Survey {
            format: self.machine.format(),
            area: size,
            first: self.area.base() == AREAS_AT,
            used: offset + 1,
            image: self.image,
            journal: offset - self.image,
            checkpoint: image_len(&checkpoint),
            undoing: blocks_len(self.records.len() as u64),
            next: self.next,
            wear: self.machine.wear(),
            report: self.report,
        })
    }
}

/// Reads the area in use, repeats all its records, and undoes the losers in memory. Nothing is
/// written.
///
/// Refused NotAStore, Damaged, Fault and NoMemory as `open` says.
pub fn find<D: Disk>(alloc: Global, disk: &mut D) -> Result<Found, Refusal>
    ensures found { IfOk result (λ x. IsFound (D.is_honest disk.new) (D.seen disk.old) x.area x.room
        x.machine x.next x.records.items x.report) }
    ensures image { IfOk result (λ x. D.is_honest disk.new →
        HoldsImage (base_of x.area) (size_of x.area) (D.seen disk.old) x.image) }
    ensures refused { IfErr result (IsFindRefusal
        (Rises (D.fault_count disk.old) (D.fault_count disk.new))
        (D.is_honest disk.new → HasNoHeader (D.seen disk.old))
        (λ place. D.is_honest disk.new → IsDamagedAt (D.seen disk.old) place)) }
    ensures starved { IfErr result (λ e. e ≡ Refusal.NoMemory → D.is_honest disk.new →
        HasHeader (D.seen disk.old)) }
    ensures reads { ReadsOnly D.seen D.may_leave D.moment D.left_since disk.old disk.new }
    ensures honest { D.is_honest disk.new → D.is_honest disk.old }
    ensures faults { D.fault_count disk.old ≤ D.fault_count disk.new }
{
    let (base, size, version) = area_in_use(disk)?;
    let Loaded {
        repeated,
        area,
        place,
        image,
    } = load(alloc, disk, version, base, size)?;
    let Repeated {
        mut machine,
        next,
        count,
    } = repeated;
    let report = Report {
        collections: machine.parts().len(),
        unfinished: machine.count_live(),
        records: count,
    };
    let records = undo_all(alloc, &mut machine)?;
    Ok(Found {
        machine,
        next,
        area,
        room: base + size - place,
        image,
        records,
        report,
    })
}
