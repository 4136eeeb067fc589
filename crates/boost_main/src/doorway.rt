// Clients that come by a door, a FIFO: each with a pair of FIFOs of its own.
ghost use Rattle.std.specs.Prelude.{◌≡◌, true, MatchResult};
ghost use Rattle.clients.specs.Calls.{IsOpen};
ghost use Rattle.talks.specs.Dialogues.{LeadsOn};

use crate::answers::Answers;
use crate::arrivals::Arrivals;
use crate::events::Event;
use crate::fifos::{Fifos, Way};
use crate::notes::Notes;
use crate::outlet::Outlet;
use crate::seat::{Call, Seat};
use crate::served::Served;
use crate::state::ServerState;
use crate::trouble::Trouble;
use crate::until::Until;
use crate::words::{Request, leftovers, remove_all, request_of};
use calls::Refusal;
use calls::limits::MAX_LIVE;
use crossbeam_channel::{Receiver, RecvTimeoutError, Sender, TrySendError, bounded};
use fizgaloms::Work;
use std::alloc::{AllocError, AllocGlobal, Global};
use std::fs::{File, TryLockError};
use std::io::{self, BufRead, BufReader, ErrorKind, Write};
use std::os::fd::AsRawFd;
use std::rt::Clock;
use std::sync::atomic::{AtomicBool, AtomicU64, Ordering};
use std::sync::{Mutex, Wait};
use std::time::Duration;
use std::{mem, thread};
use store::{Client, Naming};
use talks::{Ended, Found, Hearer, Noted, Noting, Response, Told, read_line, talk_with};

// How many clients that came wait at most, and how many who ask how the store stands.
const MAX_WAITING: usize = 4096;

const MAX_ASKING: usize = 64;

// How many more ask until one who asked and does not read the answer is given up.
const ASK_PATIENCE: u64 = 8;

// How many bytes one read takes at most.
const READ_SIZE: usize = 65_536;

// How many looks at the clients the time has after which one is idle.
const LOOKS: u32 = 4;

// For how many milliseconds clients are still answered once keeping has ended.
const LAST: u64 = 300;

// How many milliseconds are between two looks at who is still there once all is over.
const PAUSE: u64 = 100;

// How many of these looks who reads nothing has then.
const LAST_LOOKS: u32 = 5;

/// Clients that come by a door: the FIFO `door` of a folder. A client makes two FIFOs in the
/// folder, `WORD.to` for its lines and `WORD.from` for its answers, opens both, and writes the line
/// `hello WORD` into the door. It is told `hello boost 1` once it is served, and the names of its
/// FIFOs are gone then. Up to 64 are served at once, and up to 4,096 others wait. The line `end` at
/// the door ends all of them; and so does an early end of keeping, about which those who ask in the
/// next 0.3 seconds are told first.
///
/// Who writes the line `status WORD` into the door is told how the store stands, in one line, by
/// the FIFO `WORD.from` alone, which it has made and opened. It is no client: it is answered also
/// while 64 are served. A thread does nothing but that, so one who does not read its answer holds
/// up others who ask, until eight more have, and nobody else.
///
/// A word has 1 to 64 bytes, each a small letter, a digit, `-` or `_`. Another line at the door is
/// passed over. So is a client whose FIFOs cannot be opened, and one before whom 4,096 others wait,
/// or 64 who ask: it hears nothing, and the notes have a line with its word and why.
///
/// Where a time is set, what a client has open is taken back once it has said nothing for so long,
/// or up to half as long again. While others wait, one who was silent for twice that time has its
/// talk ended. So has one who has read nothing of what it is told for the time; and half a second
/// after all is over, whoever then reads nothing.
///
/// Before the door is opened it notes the FIFOs of clients that lie in the folder, and then removes
/// these, but for those whose lock a client has: it may say hello yet. Nobody reads the hello of
/// another one any more.
#[derive(Drop)]
pub struct Doorway<'a, F, E> {
    fifos: F,
    folder: &'a str,
    idle: Option<Duration>,
    notes: Mutex<Notes<E>>,
    arrivals: Arrivals,
    receiver: Receiver<String>,
    // Who asks how the store stands, how many have asked, and what is written to the one that is
    // told.
    asking: Receiver<String>,
    asked: AtomicU64,
    teller: Outlet,
    // Taken by who reads the door.
    senders: Mutex<Option<Senders>>,
    // What the first thread reads: the door. Then what each other one reads.
    door: Seat,
    seats: Vec<Seat>,
    // What each other thread writes.
    outlets: Vec<Outlet>,
    // How many looks were taken at who waits.
    looks: AtomicU64,
    // The door is read no more.
    is_closed: AtomicBool,
    is_over: AtomicBool,
    state: ServerState<'a>,
    // Who looks waits for the end of these, which have no message.
    ended: Receiver<()>,
    going_on: Mutex<Option<Sender<()>>>,
}

// By which is handed on who comes, and who asks how the store stands.
#[derive(Drop)]
struct Senders {
    coming: Sender<String>,
    asking: Sender<String>,
}

impl<'a, F: Fifos + Drop, E: Write + Drop> Doorway<'a, F, E> {
    /// The door of a folder, which is not opened yet. `state`, in which nothing is noted yet, is
    /// told behind a Lost and a status. Refused only for want of memory.
    pub fn new(
        alloc: Global,
        fifos: F,
        folder: &'a str,
        idle: Option<Duration>,
        state: ServerState<'a>,
        notes: E,
    ) -> Result<Self, AllocError> {
        let (coming, receiver) = bounded(alloc, MAX_WAITING)?;
        let (asking_sender, asking) = bounded(alloc, MAX_ASKING)?;
        let (going_on, ended) = bounded(alloc, 1)?;
        let (mut seats, mut outlets) = (Vec::new(alloc), Vec::new(alloc));
        for _ in 0..MAX_LIVE {
            seats.push(Seat::new())?;
            outlets.push(Outlet::new())?;
        }
        let notes = Mutex::new(Notes::new(&fifos, notes));
        Ok(Self {
            fifos,
            folder,
            idle,
            notes,
            arrivals: Arrivals::new(threads(idle)),
            receiver,
            asking,
            asked: AtomicU64::new(0),
            teller: Outlet::new(),
            senders: Mutex::new(Some(Senders {
                coming,
                asking: asking_sender,
            })),
            door: Seat::new(),
            seats,
            outlets,
            looks: AtomicU64::new(0),
            is_closed: AtomicBool::new(false),
            is_over: AtomicBool::new(false),
            state,
            ended,
            going_on: Mutex::new(Some(going_on)),
        })
    }

    /// How many threads serve the clients: one at the door, one for each client, one that tells how
    /// the store stands, and one that looks for idle clients where a time is set.
    pub fn threads(&self) -> usize {
        threads(self.idle)
    }

    /// Where notes were written, for what is told at the end.
    pub fn into_notes(self) -> E {
        let Self { notes, .. } = self;
        notes.into_inner().into_output()
    }

    // Reads the door up to `end`, and then ends all clients. They are ended also where the door
    // cannot be read. Where keeping has ended, those who ask meanwhile are told first.
    fn watch<R: Wait + Clock + AllocGlobal>(&self, rt: &R) -> Result<(), Trouble> {
        self.note(rt, self.state.opened(rt));
        let watched = self.watch_door(rt);
        if self.state.keeping.is_noted() {
            thread::sleep(rt, Duration::from_millis(LAST));
        }
        self.end_all(rt);
        self.see_all_go(rt);
        watched
    }

    // Notes what happened, if it is to be told.
    fn note<R: Wait>(&self, rt: &R, event: Option<Event<'_>>) {
        if let Some(event) = event {
            self.notes.lock(rt).event(event);
        }
    }

    // Waits until nobody is served or told any more. Who reads nothing is given up soon.
    fn see_all_go<R: Wait + Clock + AllocGlobal>(&self, rt: &R) {
        let mut looks = 0u32;
        for _ in rt.forever() {
            if !self.seats.iter().any(|seat| seat.is_taken(rt)) && !self.teller.is_taken(rt) {
                return;
            }
            thread::sleep(rt, Duration::from_millis(PAUSE));
            looks = looks.saturating_add(1);
            if looks >= LAST_LOOKS {
                self.give_up_since(rt, u64::MAX);
                self.teller.give_up(rt, rt.alloc(), &self.fifos, u64::MAX);
            }
        }
    }

    // Gives the clients up to which a write has waited since that look.
    fn give_up_since<R: Wait + AllocGlobal>(&self, rt: &R, look: u64) {
        for outlet in &self.outlets {
            outlet.give_up(rt, rt.alloc(), &self.fifos, look);
        }
    }

    // Reads the door, and hands on who comes, up to `end`, or until all is over.
    fn watch_door<R: Wait + AllocGlobal>(&self, rt: &R) -> Result<(), Trouble> {
        let Some(senders) = self.senders.lock(rt).take() else {
            return Ok(());
        };
        let left = leftovers(&self.fifos, self.folder);
        let door = self.open_door(rt.alloc())?;
        remove_all(&self.fifos, rt.alloc(), self.folder, left?)?;
        self.door.take(rt, door.as_raw_fd());
        let door = Until::new(rt, door, &self.door, &self.looks, &self.is_closed);
        let mut lines = BufReader::new(rt.alloc(), door)?;
        let read = self.read_door(rt, &mut lines, &senders);
        self.door.leave(rt);
        Ok(read?)
    }

    // Hands on who comes or asks by the lines of the door, up to `end`, or to the end of the lines.
    fn read_door<R: Wait + AllocGlobal>(
        &self,
        rt: &R,
        lines: &mut impl BufRead,
        senders: &Senders,
    ) -> io::Result<()> {
        let alloc = rt.alloc();
        let mut line = Vec::new(alloc);
        for _ in rt.forever() {
            match read_line(lines, &mut line)? {
                Found::Line => {
                    let said = line.strip_suffix(b"\r").unwrap_or(line.as_slice());
                    if said == b"end".as_slice() {
                        break;
                    }
                    if let Some(request) = request_of(alloc, said)? {
                        self.hand_on(rt, senders, request);
                    }
                }
                Found::TooLong => {}
                Found::Cut | Found::End => break,
                Found::Silence => continue,
            }
            line.clear();
        }
        Ok(())
    }

    // Hands on who comes or asks. It waits for nobody, so that `end` is heard whoever waits.
    fn hand_on<R: Wait + AllocGlobal>(&self, rt: &R, senders: &Senders, request: Request) {
        let sent = match request {
            Request::Hello(word) => senders.coming.try_send(rt, word),
            Request::Status(word) => {
                self.count_asking(rt);
                senders.asking.try_send(rt, word)
            }
        };
        if let Err(TrySendError::Full(word)) = sent {
            let why = io::Error::other("too many others wait");
            self.notes.lock(rt).passed_over(word.as_str(), &why);
        }
    }

    // One more asks how the store stands. Who has not read its answer while so many others asked is
    // given up.
    fn count_asking<R: Wait + AllocGlobal>(&self, rt: &R) {
        let before = self.asked.fetch_add(1, Ordering::SeqCst);
        if let Some(since) = before.checked_sub(ASK_PATIENCE) {
            self.teller.give_up(rt, rt.alloc(), &self.fifos, since);
        }
    }

    // Tells those who ask how the store stands, one after another, until all is over.
    fn tell_all<J: Naming, R: Wait + AllocGlobal>(&self, rt: &R, client: &Client<'_, J>) {
        for word in self.asking.iter(rt) {
            if self.is_over.load(Ordering::SeqCst) {
                return;
            }
            if let Err(error) = self.tell(rt, client, word.as_str()) {
                self.notes.lock(rt).passed_over(word.as_str(), &error);
            }
        }
    }

    // Tells who asks by a word how the store stands, and takes the name of its FIFO away.
    fn tell<J: Naming, R: Wait + AllocGlobal>(
        &self,
        rt: &R,
        client: &Client<'_, J>,
        word: &str,
    ) -> io::Result<()> {
        let alloc = rt.alloc();
        let from = format!(in alloc; "{}/{word}.from", self.folder)?;
        let writer = self.fifos.open(alloc, from.as_str(), Way::Write)?;
        self.fifos.remove(from.as_str())?;
        let number = writer.as_raw_fd();
        let writer = Answers::new(rt, writer, &self.teller, &self.asked, &self.is_over);
        let mut hearer = self.state.printer(alloc, writer);
        self.teller.take(rt, number);
        // asked behind that: who waits for the end of all sees it, or is seen
        let told = if self.is_over.load(Ordering::SeqCst) {
            Ok(())
        } else {
            tell_at_once(&mut hearer, self.state.status(rt, alloc, client))
        };
        self.teller.leave(rt);
        told
    }

    // Opens the door for both ways, and takes its lock, which it has as long as it is open.
    fn open_door(&self, alloc: Global) -> Result<File, Trouble> {
        let path = format!(in alloc; "{}/door", self.folder)?;
        let door = match self.fifos.open_both(path.as_str()) {
            Err(error) if error.kind() == ErrorKind::InvalidInput => {
                return Err(Trouble::Unusable(io::Error::new(
                    ErrorKind::InvalidInput,
                    "its door is no FIFO",
                )));
            }
            opened => opened?,
        };
        match door.try_lock() {
            Ok(()) => Ok(door),
            Err(TryLockError::WouldBlock) => Err(Trouble::InUse),
            Err(TryLockError::Error(error)) => Err(Trouble::Unusable(error)),
        }
    }

    // Has each reader of a client's lines end, and wakes those that wait for some.
    fn end_all<R: Wait + AllocGlobal>(&self, rt: &R) {
        self.is_over.store(true, Ordering::SeqCst);
        drop(self.going_on.lock(rt).take());
        for seat in &self.seats {
            self.wake(rt, seat, u64::MAX, false);
        }
    }

    // Wakes a reader that has waited since that look or an earlier one. Whether it is to leave.
    fn wake<R: Wait + AllocGlobal>(&self, rt: &R, seat: &Seat, look: u64, may_leave: bool) -> bool {
        seat.wake(rt, rt.alloc(), &self.fifos, look, may_leave) == Some(Call::Leave)
    }

    // Wakes the readers of clients that have been silent since that look. As many as wait at the
    // door may have to leave.
    fn wake_since<R: Wait + AllocGlobal>(&self, rt: &R, look: u64) {
        let mut waiting = self.count_waiting(rt);
        for seat in &self.seats {
            let leaves = self.wake(rt, seat, look, waiting > 0);
            waiting = waiting.saturating_sub(usize::from(leaves));
        }
    }

    // How many wait while all seats are taken.
    fn count_waiting<R: Wait>(&self, rt: &R) -> usize {
        for seat in &self.seats {
            if !seat.is_taken(rt) {
                return 0;
            }
        }
        self.receiver.len()
    }

    // Looks at the clients again and again, up to the end of all, and wakes the readers of those
    // that are idle.
    fn look<R: Wait + Clock + AllocGlobal>(&self, rt: &R, idle: Duration) {
        for _ in rt.forever() {
            match self.ended.recv_timeout(rt, idle / LOOKS) {
                Err(RecvTimeoutError::Timeout) => {}
                Ok(()) | Err(RecvTimeoutError::Disconnected) => return,
            }
            let before = self.looks.fetch_add(1, Ordering::SeqCst);
            if let Some(since) = before.checked_sub(u64::from(LOOKS)) {
                self.wake_since(rt, since);
                self.give_up_since(rt, since);
            }
        }
    }

    // Serves the client of a word.
    fn serve<J: Naming, R: Wait + Clock + AllocGlobal>(
        &self,
        rt: &R,
        client: &mut Client<'_, J>,
        told: &mut Noted,
        word: &str,
        seat: &Seat,
        outlet: &Outlet,
    ) -> io::Result<Ended>
        ensures told { LeadsOn J.origin client.old told.old.told client.new told.new.told }
        ensures ended { MatchResult result
            (λ ended. ended.is_taken_back ≡ true → IsOpen client.new.phase → ⊥)
            (λ e. client.new ≡ client.old) }
    {
        let alloc = rt.alloc();
        let (reader, mut writer) = self.meet(alloc, word)?;
        writer.write_all(b"hello boost 1\n")?;
        let (number, answers) = (reader.as_raw_fd(), writer.as_raw_fd());
        let writer = Answers::new(rt, writer, outlet, &self.looks, &self.is_over);
        let reader = Until::new(rt, reader, seat, &self.looks, &self.is_over);
        let lines = BufReader::with_capacity(alloc, READ_SIZE, reader)?;
        let hearer = Noting {
            hearer: self.state.printer(alloc, writer),
            noted: mem::replace(told, Noted::new()),
        };
        seat.take(rt, number);
        outlet.take(rt, answers);
        self.note(rt, self.state.came(word));
        let (ended, _lines, hearer) = talk_with(rt, client, lines, hearer);
        outlet.leave(rt);
        seat.leave(rt);
        self.note(rt, self.state.went(word));
        *told = hearer.noted;
        Ok(ended)
    }

    // Opens the two FIFOs of a word, and takes their names away.
    fn meet(&self, alloc: Global, word: &str) -> io::Result<(File, File)> {
        let to = format!(in alloc; "{}/{word}.to", self.folder)?;
        let from = format!(in alloc; "{}/{word}.from", self.folder)?;
        let reader = self.fifos.open(alloc, to.as_str(), Way::Read)?;
        let writer = self.fifos.open(alloc, from.as_str(), Way::Write)?;
        self.fifos.remove(to.as_str())?;
        self.fifos.remove(from.as_str())?;
        Ok((reader, writer))
    }

    // Serves clients as they come, one after another, until all is over. One that goes away ends
    // its own talk alone. Where what one left open could not be taken back, no other is served.
    fn serve_all<J: Naming, R: Wait + Clock + AllocGlobal>(
        &self,
        rt: &R,
        client: &mut Client<'_, J>,
        told: &mut Noted,
        seat: &Seat,
        outlet: &Outlet,
    )
        ensures { LeadsOn J.origin client.old told.old.told client.new told.new.told }
    {
        for word in self.receiver.iter(rt) {
            if self.is_over.load(Ordering::SeqCst) {
                return;
            }
            if !self.serve_next(rt, client, told, word.as_str(), seat, outlet) {
                return;
            }
        }
    }

    // Serves the client of a word. Whether another one may be served behind it: not where what it
    // left open could not be taken back.
    fn serve_next<J: Naming, R: Wait + Clock + AllocGlobal>(
        &self,
        rt: &R,
        client: &mut Client<'_, J>,
        told: &mut Noted,
        word: &str,
        seat: &Seat,
        outlet: &Outlet,
    ) -> bool
        ensures told { LeadsOn J.origin client.old told.old.told client.new told.new.told }
        ensures closed { result ≡ true → (IsOpen client.old.phase → ⊥) →
            IsOpen client.new.phase → ⊥ }
    {
        match self.serve(rt, client, told, word, seat, outlet) {
            Ok(ended) => ended.is_taken_back,
            Err(error) => {
                self.notes.lock(rt).passed_over(word, &error);
                true
            }
        }
    }

    // Does the part of the thread of this number.
    fn do_part<J: Naming, R: Wait + Clock + AllocGlobal>(
        &self,
        rt: &R,
        client: &mut Client<'_, J>,
        told: &mut Noted,
        thread: usize,
    ) -> Result<(), Trouble>
        ensures { LeadsOn J.origin client.old told.old.told client.new told.new.told }
    {
        self.arrivals.wait_for_all(rt)?;
        let Some(of) = thread.checked_sub(1) else {
            return self.watch(rt);
        };
        let (Some(seat), Some(outlet)) = (self.seats.get(of), self.outlets.get(of)) else {
            match self.idle {
                Some(idle) if of > MAX_LIVE => self.look(rt, idle),
                _ => self.tell_all(rt, client),
            }
            return Ok(());
        };
        self.serve_all(rt, client, told, seat, outlet);
        Ok(())
    }
}

impl<F: Fifos + Drop, E: Write + Drop> Work for Doorway<'_, F, E> {
    ghost use Rattle.boost_main.specs.Talking.{TellsTalks};

    type Output = Served;

    ghost says = { λ _. TellsTalks };

    /// The first thread reads the door, and each other one serves clients. One more tells how the
    /// store stands, and one looks for idle clients.
    ///
    /// Its end is refused where not all threads come, where the door cannot be read or another run
    /// has it, and where it has no memory for who comes.
    fn work<J: Naming, R: Wait + Clock + AllocGlobal>(
        &self,
        rt: &R,
        client: &mut Client<'_, J>,
        thread: usize,
    ) -> Served {
        let mut told = Noted::new();
        let ended = self.do_part(rt, client, &mut told, thread);
        Served { ended, told }
    }

    /// The door is read no more, and all are ended a moment later.
    fn keeping_ended<R: Wait + AllocGlobal>(&self, rt: &R, refusal: Refusal) {
        self.state.keeping.note(refusal);
        self.is_closed.store(true, Ordering::SeqCst);
        self.wake(rt, &self.door, u64::MAX, false);
    }

    /// It is counted, and noted if it is to be told.
    fn checkpoint_taken<R: Wait + AllocGlobal>(&self, rt: &R, took: Duration) {
        self.note(rt, self.state.checkpoint_taken(took));
    }

    /// It is noted.
    fn nearly_full<R: Wait + AllocGlobal>(&self, rt: &R, full: u64) {
        self.notes.lock(rt).nearly_full(full);
    }
}

// Tells this, and sends it on.
fn tell_at_once<H: Hearer<Response>>(hearer: &mut H, told: Told<Response>) -> io::Result<()> {
    hearer.hear(told)?;
    hearer.send()
}

// How many threads serve the clients, where such a time is set.
fn threads(idle: Option<Duration>) -> usize {
    MAX_LIVE + 2 + usize::from(idle.is_some())
}
