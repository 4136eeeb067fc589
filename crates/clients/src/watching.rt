// What a client learns of what is kept.
ghost use Rattle.std.specs.Prelude.{◌↔◌, ◌≤◌, ℕ, [], ◌∷◌, List, Bool, IsTrue, IfSome, IfNone};
ghost use Rattle.group_commit.specs.declared.mark.Raised.{Raised};
ghost use Rattle.clients.specs.Calls.{Loads, Hears, Waits};

use crate::client::Client;
use crate::ticket::Ticket;
use calls::Refusal;
use crossbeam_utils::Backoff;
use desks::Naming;
use records::Coded;
use std::sync::Wait;

impl<'s, J: Naming, B: Coded> Client<'s, J, B> {
    /// Whether the commit or making of the ticket is kept through a stop. It takes no memory, and
    /// waits for nobody.
    pub fn kept(&mut self, ticket: &Ticket) -> bool
        ensures { (count : ℕ) × Loads self.old count self.new ×
            (IsTrue result ↔ (ticket.now.place ≤ count)) }
    {
        let count = self.shared.mark.load(&mut self.watcher);
        ticket.place <= count
    }

    /// Waits until the commit or making of the ticket is kept through a stop. Some committer has to
    /// take turns meanwhile. The thread backs off between two looks, then sleeps until the mark
    /// moves, and may wait for ever: nothing is claimed of how long.
    ///
    /// Lost where keeping failed: the disk had a fault, or a committer was told to stop. The ticket
    /// may be kept all the same. Open the disk again to find out.
    ///
    /// ```text
    /// client.wait(rt, &ticket)?;
    /// ```
    pub fn wait<R: Wait>(&mut self, rt: &R, ticket: &Ticket) -> Result<(), Refusal>
        ensures { Waits self.old ticket.now.place result self.new }
    {
        match self.watch(ticket) {
            Some(done) => done,
            None => self.sleep(rt, ticket),
        }
    }

    // Looks as often as it pays on the disk, and backs off between two looks.
    fn watch(&mut self, ticket: &Ticket) -> Option<Result<(), Refusal>>
        ensures some { IfSome result (λ r. Waits self.old ticket.now.place r self.new) }
        ensures none { IfNone result ((counts : List Raised) × (flags : List Bool) ×
            Hears self.old counts flags self.new) }
    {
        let backoff = Backoff::new();
        for _ in 0..self.shared.signal.patience() {
            match self.look(ticket) {
                Some(done) => return Some(done),
                None => backoff.snooze(),
            }
        }
        None
    }

    // Sleeps until the mark moves, and looks then, until that decides.
    fn sleep<R: Wait>(&mut self, rt: &R, ticket: &Ticket) -> Result<(), Refusal>
        ensures { Waits self.old ticket.now.place result self.new }
    {
        let shared = self.shared;
        for _ in rt.forever() {
            let moves = shared.mark.prepare_wait();
            if let Some(done) = self.look(ticket) {
                return done;
            }
            moves.wait(rt);
        }
        unreachable!()
    }

    // Loads the count, and then the flag where that did not decide.
    fn look(&mut self, ticket: &Ticket) -> Option<Result<(), Refusal>>
        ensures some { IfSome result (λ r. Waits self.old ticket.now.place r self.new) }
        ensures none { IfNone result ((counts : List Raised) × (flags : List Bool) ×
            Hears self.old counts flags self.new) }
    {
        if self.kept(ticket) {
            return Some(Ok(()));
        }
        if self.has_failed() {
            return Some(Err(Refusal::Lost));
        }
        None
    }

    /// Whether keeping failed: the disk had a fault, or a committer was told to stop. Once it has,
    /// nothing more is kept, and who waits is told Lost. It takes no memory, and waits for nobody.
    pub fn has_failed(&mut self) -> bool
        ensures { Hears self.old [] (result ∷ []) self.new }
    {
        self.shared.mark.failed(&mut self.watcher)
    }
}
