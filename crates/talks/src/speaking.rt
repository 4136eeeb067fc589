// Who carries requests out.
use calls::Refusal;
use clients::Moment;
use script::Request;
use std::alloc::Global;
use std::fmt;
use std::rt::Clock;
use std::sync::Wait;

/// What a client was told of its last ticket.
#[derive(Clone, Copy)]
pub enum End {
    Kept,
    /// Keeping failed, which does not say that the ticket is not kept.
    Lost,
    /// It has none.
    NoTicket,
}

impl fmt::Display for End {
    fn fmt<W: fmt::Write>(&self, f: &mut fmt::Formatter<W>) -> fmt::Result {
        f.write_str(match self {
            End::Kept => "kept",
            End::Lost => "lost",
            End::NoTicket => "no ticket",
        })
    }
}

/// Who carries a client's requests out, one after another.
pub trait Speaker {
    ghost use Rattle.std.specs.Prelude.{ℕ, Bool, Option, IsTrue, IsOkUnless, ◌↔◌, ◌≡◌};
    ghost use Rattle.calls.specs.declared.refusal.Refusal.{Refusal};
    ghost use Rattle.script.specs.declared.action.Request.{Request};
    ghost use Rattle.talks.specs.declared.speaking.End.{End};

    /// What a request is answered.
    type Response: fmt::Display + Drop;

    /// A request is carried out, and answered so.
    ghost says: { Self → Request → Self.Response → Self → Type 0 };

    /// A wait for what was last committed or made ends so.
    ghost ends: { Self → End → Self → Type 0 };

    /// Whether keeping has failed was asked, and was answered so.
    ghost hears: { Self → Bool → Self → Type 0 };

    /// A transaction is open.
    ghost is_open: { Self → Type 0 };

    /// The place that an answer tells, which that of a commit does where it is accepted.
    ghost placed: { Self.Response → Option ℕ };

    /// An answer is a refusal.
    ghost refuses: { Self.Response → Type 0 };

    /// Carries a request out.
    fn say<R: Wait>(&mut self, rt: &R, request: &Request) -> Self::Response
        ensures { says self.old request.now result self.new };

    /// Waits until what was last committed or made is kept.
    fn end<R: Wait>(&mut self, rt: &R) -> End
        ensures { ends self.old result self.new };

    /// Whether keeping has failed, so that nothing more is kept. It waits for nobody.
    fn has_failed(&mut self) -> bool
        ensures { hears self.old result self.new };

    /// How what it speaks with stands, in one line. It makes no request, and waits for nothing that
    /// is kept. The text takes memory.
    ///
    /// NoMemory alone is refused.
    fn status<R: Wait>(&self, rt: &R, alloc: Global) -> Result<String, Refusal>
        ensures { IsOkUnless result Refusal.NoMemory };

    /// Lines up with those who wait: what it asks for from here on is noted. Those who give the
    /// same number ask for the same thing, and of these the first alone is woken.
    fn line_up<R: Wait + Clock>(&mut self, rt: &R, alike: u64)
        ensures { self.new ≡ self.old };

    /// Sleeps until somebody else has ended something that it asked for since it lined up, or since
    /// the last sleep, or until then. Whether another try may be worth it. No transaction is open.
    fn await_change<R: Wait + Clock>(&mut self, rt: &R, until: Moment) -> bool
        ensures { self.new ≡ self.old };

    /// It waits no more.
    fn leave_line<R: Wait>(&mut self, rt: &R)
        ensures { self.new ≡ self.old };

    /// Whether a transaction is open.
    fn is_open(&self) -> bool
        ensures { IsTrue result ↔ is_open self.now };

    /// The place that an answer tells, if it tells one.
    fn place(response: &Self::Response) -> Option<u64>
        ensures { result ≡ placed response.now };

    /// Whether an answer is a refusal.
    fn is_refusal(response: &Self::Response) -> bool
        ensures { IsTrue result ↔ refuses response.now };

    /// Whether an answer says that there was nothing, or that another transaction was in the way.
    fn is_fruitless(response: &Self::Response) -> bool;
}
