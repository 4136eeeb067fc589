// Steps of the core, which no script can take alone.
ghost use Rattle.checkpoint.specs.Keepers.{IsFresh};

use crate::plays::runs::text;
use crate::plays::told::Told;
use crate::plays::values::{byte, not_understood, number, pair, three};
use crate::plays::workbench::Workbench;
use boost::Response;
use calls::{Call, Kind, Name, Refusal, When};
use catalog::Catalog;
use checkpoint::Keeper;
use disk_model::MemDisk;
use recovery::open;
use std::alloc::Global;
use std::io;
use txn::Book;
use world::{Answer, Step, World, play};

fn bump(by: &str) -> io::Result<Call> {
    match by.parse() {
        Ok(by) => Ok(Call::Bump(by)),
        Err(_) => Err(not_understood()),
    }
}

// The call that words ask for.
fn call(text: &str) -> io::Result<Call> {
    match text.split_once(" ") {
        None if text == "read" => Ok(Call::Read),
        Some(("bump", by)) => bump(by),
        Some(("add", key)) => Ok(Call::SetAdd(number(key)?)),
        _ => Err(not_understood()),
    }
}

// A call with the number of its transaction and of a collection, made then.
fn asked(text: &str, when: When) -> io::Result<Step> {
    let (owner, collection, asked) = three(text)?;
    Ok(Step::Ask(number(owner)?, byte(collection)?, call(asked)?, when))
}

// A step that speaks of a transaction or of a name.
fn step_of(alloc: Global, word: &str, rest: &str) -> io::Result<Step> {
    match word {
        "make" => Ok(Step::Make(Name::new(String::from_str(alloc, rest)?), Kind::Counter)),
        "call" => asked(rest, When::Now),
        "later" => asked(rest, When::AtCommit),
        _ => step_with(word, number(rest)?),
    }
}

// A step of the transaction with this number.
fn step_with(word: &str, owner: u64) -> io::Result<Step> {
    match word {
        "enter" => Ok(Step::Enter(owner)),
        "commit" => Ok(Step::Commit(owner)),
        "back" => Ok(Step::Back(owner)),
        "ended" => Ok(Step::Ended(owner)),
        _ => Err(not_understood()),
    }
}

// The step that a line tells.
fn step(alloc: Global, line: &str) -> io::Result<Step> {
    match line {
        "draw" => Ok(Step::Draw),
        "cut" => Ok(Step::Cut),
        "turn" => Ok(Step::Turn),
        "gather" => Ok(Step::Gather),
        "freeze" => Ok(Step::Freeze),
        "pack" => Ok(Step::Pack),
        "piece" => Ok(Step::Piece),
        "flip" => Ok(Step::Flip),
        "look" => Ok(Step::Look),
        _ => {
            let (word, rest) = pair(line, " ")?;
            step_of(alloc, word, rest)
        }
    }
}

// The steps that the lines of a script tell.
fn steps(alloc: Global, script: &str) -> io::Result<Vec<Step>> {
    let mut steps = Vec::new(alloc);
    for line in script.lines() {
        steps.push(step(alloc, line)?)?;
    }
    Ok(steps)
}

fn world_of(
    alloc: Global,
    book: Book<Catalog>,
    keeper: Keeper<MemDisk>,
) -> Result<World<MemDisk>, (Refusal, MemDisk)>
    requires { IsFresh keeper }
{
    World::new(alloc, book, keeper)
}

// The world of the store of a disk.
fn world_on(alloc: Global, disk: MemDisk) -> Result<World<MemDisk>, (Refusal, MemDisk)> {
    match open(alloc, disk) {
        Ok((book, keeper)) => world_of(alloc, book, keeper),
        Err(refused) => Err(refused),
    }
}

/// Takes the steps that the script tells in the world of the disk, and tells what each is answered,
/// a turn as a script is told it: as many of the last answers as the case wants.
pub fn take(alloc: Global, bench: &mut Workbench, told: &mut Told) -> io::Result<()> {
    let script = bench.take_script(alloc);
    let steps = steps(alloc, text(&script))?;
    let mut answers = Told::new(alloc)?;
    let disk = bench.take_disk(alloc)?;
    bench.disk = match world_on(alloc, disk) {
        Ok(world) => take_on(alloc, world, steps.as_slice(), &mut answers),
        Err((refusal, disk)) => {
            answers.tell(refusal);
            disk
        }
    };
    told.tell_last(text(&answers.bytes), bench.take_last(), "");
    told.is_whole &= answers.is_whole;
    Ok(())
}

// Takes steps in a world, tells what they are answered, and answers its disk.
fn take_on(alloc: Global, world: World<MemDisk>, steps: &[Step], told: &mut Told) -> MemDisk {
    let mut world = world;
    match play(alloc, &mut world, steps) {
        Ok(answers) => tell_all(&answers, told),
        Err(refusal) => told.tell(refusal),
    }
    world.into_disk()
}

fn tell_all(answers: &Vec<Answer>, told: &mut Told) {
    let mut number = 0u64;
    for answer in answers {
        number = number.saturating_add(1);
        told.add_text(format_args!("{number}: "));
        tell(answer, told);
    }
}

fn tell(answer: &Answer, told: &mut Told) {
    match answer {
        Answer::Turned(turn) => told.tell(Response::Turned(*turn)),
        Answer::Refused(refusal) => told.tell(Response::Refused(*refusal)),
        _ => told.tell(format_args!("{answer:?}")),
    }
}
