// Clients that share one input and one output.
ghost use Rattle.talks.specs.Dialogues.{LeadsOn};

use crate::arrivals::Arrivals;
use crate::coming::Coming;
use crate::events::Event;
use crate::fifos::Fifos;
use crate::handing::Handing;
use crate::notes::Notes;
use crate::seat::Seat;
use crate::served::Served;
use crate::shell::Manner;
use crate::state::ServerState;
use crate::tagged::Tagged;
use crate::trouble::Trouble;
use crate::until::Until;
use calls::Refusal;
use calls::limits::MAX_LIVE;
use crossbeam_channel::{Receiver, Sender, bounded};
use fizgaloms::Work;
use std::alloc::{AllocError, AllocGlobal, Global};
use std::io::{self, BufReader, ErrorKind, Read, Write};
use std::mem;
use std::rt::Clock;
use std::sync::atomic::{AtomicBool, AtomicU64, Ordering};
use std::sync::{Mutex, Wait};
use std::time::Duration;
use store::{Client, Naming};
use talks::{Noted, Noting, Why, talk_on_with};

// How many batches of lines wait for a client at most; then no more input is read.
const MAX_BATCHES: usize = 64;

// How many bytes of a client's lines one look takes at most.
const READ_SIZE: usize = 65_536;

// The number of the file of standard input.
const STANDARD_INPUT: i32 = 0;

/// Clients that share standard input and an output, with notes on standard error. Each line of the
/// input begins with its client, `c1 ` to `c64 `, and so does each answer. The lines of one client
/// are carried out in their order, and those of different ones side by side. A line of no client is
/// answered `- error NoClient`, and one that is too long `error LineTooLong`, to the client that it
/// names. The end of the input, or the line `end`, ends all clients, once the lines before it are
/// answered.
///
/// Where 64 batches of lines wait for one client, no more input is read. So the parent reads
/// answers while it writes lines, or has few of them outstanding.
///
/// Behind the end of the input no line waits for others any more.
///
/// Where a time is set, what a client has open is taken back once no line has come for it for so
/// long. Where a client was told that keeping has failed, no more input is read, which ends all
/// clients: at once where the input is a pipe, and else behind what comes next.
#[derive(Drop)]
pub struct Multiplex<'a, F, I, O, E> {
    fifos: F,
    idle: Option<Duration>,
    manner: Manner,
    // Who reads the input.
    seat: Seat,
    // No looks are taken at it.
    looks: AtomicU64,
    arrivals: Arrivals,
    // No more input is read.
    is_over: AtomicBool,
    state: ServerState<'a>,
    input: Mutex<Option<I>>,
    output: Mutex<O>,
    notes: Mutex<Notes<E>>,
    senders: Mutex<Option<Vec<Sender<Vec<u8>>>>>,
    receivers: Vec<Receiver<Vec<u8>>>,
}

impl<'a, F: Fifos + Drop, I: Read + Drop, O: Write + Drop, E: Write + Drop> Multiplex<
    'a,
    F,
    I,
    O,
    E,
> {
    /// Clients that were not heard yet. `state`, in which nothing is noted yet, is told behind a
    /// Lost and a status. Refused only for want of memory.
    pub fn new(
        alloc: Global,
        fifos: F,
        input: I,
        output: O,
        notes: E,
        idle: Option<Duration>,
        state: ServerState<'a>,
    ) -> Result<Self, AllocError> {
        let mut senders = Vec::new(alloc);
        let mut receivers = Vec::new(alloc);
        for _ in 0..MAX_LIVE {
            let (sender, receiver) = bounded(alloc, MAX_BATCHES)?;
            senders.push(sender)?;
            receivers.push(receiver)?;
        }
        let notes = Mutex::new(Notes::new(&fifos, notes));
        Ok(Self {
            fifos,
            idle,
            manner: Manner::Tagged,
            seat: Seat::new(),
            looks: AtomicU64::new(0),
            arrivals: Arrivals::new(MAX_LIVE + 1),
            is_over: AtomicBool::new(false),
            state,
            input: Mutex::new(Some(input)),
            output: Mutex::new(output),
            notes,
            senders: Mutex::new(Some(senders)),
            receivers,
        })
    }

    /// The same for a person at a terminal. A line that names no client is client 1's, whose
    /// answers begin with no client then; `help` is answered what may be asked, and a prompt stands
    /// behind what was answered.
    pub fn as_shell(self) -> Self {
        Self {
            manner: Manner::Shell,
            ..self
        }
    }

    /// Where notes were written, for what is told at the end.
    pub fn into_notes(self) -> E {
        let Self { notes, .. } = self;
        notes.into_inner().into_output()
    }

    /// How many threads serve them: one that reads, and one for each client.
    pub fn threads(&self) -> usize {
        MAX_LIVE + 1
    }

    // Notes what happened, if it is to be told.
    fn note<R: Wait>(&self, rt: &R, event: Option<Event<'_>>) {
        if let Some(event) = event {
            self.notes.lock(rt).event(event);
        }
    }

    // Says hello, and hands out the lines of the input.
    fn hand_out<R: Wait + AllocGlobal>(&self, rt: &R) -> io::Result<()> {
        let input = self.input.lock(rt).take();
        let senders = self.senders.lock(rt).take();
        let (Some(input), Some(senders)) = (input, senders) else {
            return Ok(());
        };
        let mut handing = Handing::new(rt, rt.alloc(), &self.output, self.manner, senders);
        handing.say_hello()?;
        self.seat.take(rt, STANDARD_INPUT);
        let input = Until::new(rt, input, &self.seat, &self.looks, &self.is_over);
        let handed_out = handing.hand_out_all(input);
        self.is_over.store(true, Ordering::SeqCst);
        self.seat.leave(rt);
        handed_out
    }

    // Does the part of the thread of this number: the first one hands the lines out, and each other
    // one talks with its client.
    fn do_part<J: Naming, R: Wait + Clock + AllocGlobal>(
        &self,
        rt: &R,
        client: &mut Client<'_, J>,
        told: &mut Noted,
        thread: usize,
    ) -> Result<(), Trouble>
        ensures { LeadsOn J.origin client.old told.old.told client.new told.new.told }
    {
        self.arrivals.wait_for_all(rt)?;
        match thread.checked_sub(1) {
            Some(of) => Ok(self.serve(rt, client, told, of)?),
            None => {
                self.note(rt, self.state.opened(rt));
                Ok(self.hand_out(rt)?)
            }
        }
    }

    // Serves the client of this number, from 0 on. Where it cannot be told its answers, what still
    // comes for it is passed over, so that nobody waits for room.
    fn serve<J: Naming, R: Wait + Clock + AllocGlobal>(
        &self,
        rt: &R,
        client: &mut Client<'_, J>,
        told: &mut Noted,
        of: usize,
    ) -> io::Result<()>
        ensures { LeadsOn J.origin client.old told.old.told client.new told.new.told }
    {
        let Some(batches) = self.receivers.get(of) else {
            return Ok(());
        };
        let served = self.talk_on(rt, client, told, batches, of);
        pass_over(rt, batches);
        as_served(served)
    }

    // Talks with the client of this number until no more lines come, and says why that ended.
    fn talk_on<J: Naming, R: Wait + Clock + AllocGlobal>(
        &self,
        rt: &R,
        client: &mut Client<'_, J>,
        told: &mut Noted,
        batches: &Receiver<Vec<u8>>,
        of: usize,
    ) -> io::Result<Why>
        ensures { LeadsOn J.origin client.old told.old.told client.new told.new.told }
    {
        let alloc = rt.alloc();
        let coming = Coming::new(rt, batches, self.idle, Vec::new(alloc));
        let lines = BufReader::with_capacity(alloc, READ_SIZE, coming)?;
        let number = of.saturating_add(1);
        let (manner, text) = (self.manner, Vec::new(alloc));
        let output = Tagged::new(rt, &self.output, number, manner, &self.is_over, text);
        let hearer = Noting {
            hearer: self.state.printer(alloc, output),
            noted: mem::replace(told, Noted::new()),
        };
        let (why, _lines, hearer) = talk_on_with(rt, client, lines, hearer);
        *told = hearer.noted;
        Ok(why)
    }
}

// Passes over what still comes.
fn pass_over<R: Wait>(rt: &R, batches: &Receiver<Vec<u8>>) {
    for batch in batches.iter(rt) {
        drop(batch);
    }
}

// Refused where a client could not be served to its end.
fn as_served(served: io::Result<Why>) -> io::Result<()> {
    match served? {
        Why::Broken => Err(io::Error::from(ErrorKind::BrokenPipe)),
        Why::NoMemory => Err(io::Error::from(ErrorKind::OutOfMemory)),
        Why::Bye | Why::Gone | Why::Lost => Ok(()),
    }
}

impl<F: Fifos + Drop, I: Read + Drop, O: Write + Drop, E: Write + Drop> Work
    for Multiplex<'_, F, I, O, E> {
    ghost use Rattle.boost_main.specs.Talking.{TellsTalks};

    type Output = Served;

    ghost says = { λ _. TellsTalks };

    /// The first thread hands the lines out, and each other one talks with its client.
    ///
    /// Its end is refused where not all threads come, where the input or the output is, and for
    /// want of memory.
    fn work<J: Naming, R: Wait + Clock + AllocGlobal>(
        &self,
        rt: &R,
        client: &mut Client<'_, J>,
        thread: usize,
    ) -> Served {
        let mut told = Noted::new();
        let ended = self.do_part(rt, client, &mut told, thread);
        Served { ended, told }
    }

    /// The input is taken to have ended: at once where it is a FIFO, and else behind what comes
    /// next.
    fn keeping_ended<R: Wait + AllocGlobal>(&self, rt: &R, refusal: Refusal) {
        self.state.keeping.note(refusal);
        self.is_over.store(true, Ordering::SeqCst);
        let _woken = self.seat.wake(rt, rt.alloc(), &self.fifos, u64::MAX, false);
    }

    /// It is counted, and noted if it is to be told.
    fn checkpoint_taken<R: Wait + AllocGlobal>(&self, rt: &R, took: Duration) {
        self.note(rt, self.state.checkpoint_taken(took));
    }

    /// It is noted.
    fn nearly_full<R: Wait + AllocGlobal>(&self, rt: &R, full: u64) {
        self.notes.lock(rt).nearly_full(full);
    }
}
