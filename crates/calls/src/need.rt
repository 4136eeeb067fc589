// Which calls may stand side by side.
ghost use Rattle.std.specs.Prelude.{◌≡◌, ◌↔◌, IsTrue};
ghost use Rattle.calls.specs.Rules.{Conflict, Compatible};
ghost use Rattle.calls.specs.Modes.{rank};

/// How a call uses the keys of its need.
#[derive(Clone, Copy, PartialEq, Eq)]
pub enum Mode {
    Read,
    Write,
    /// Puts in what another call that adds does not see.
    Add,
    /// Takes an amount out of a stock or of a quota.
    Take,
    /// Puts an amount into a stock, or back into a quota.
    Give,
}

impl Mode {
    /// Whether calls of two transactions may use the same keys in these modes: Read with Read, Add
    /// with Add, and Take and Give each with each. It takes no memory.
    pub fn is_compatible(self, other: Mode) -> bool
        ensures { IsTrue result ↔ Compatible self other }
    {
        matches!(
            (self, other),
            (Mode::Read, Mode::Read)
                | (Mode::Add, Mode::Add)
                | (Mode::Take | Mode::Give, Mode::Take | Mode::Give)
        )
    }

    /// Where the mode stands among the others, from 0.
    pub fn rank(self) -> u8
        ensures { result ≡ rank self }
    {
        match self {
            Mode::Read => 0,
            Mode::Write => 1,
            Mode::Add => 2,
            Mode::Take => 3,
            Mode::Give => 4,
        }
    }
}

/// The keys that a call uses, both ends among them. The collection stands beside it.
#[derive(Clone, Copy, PartialEq, Eq)]
pub struct Need {
    pub low: u64,
    pub high: u64,
    pub mode: Mode,
}

impl Need {
    /// Whether calls of two transactions on one collection may not both have these needs: the spans
    /// overlap, and the modes are not compatible. It takes no memory.
    pub fn conflicts(&self, other: &Need) -> bool
        ensures { IsTrue result ↔ Conflict self.now other.now }
    {
        self.low <= other.high && other.low <= self.high && !self.mode.is_compatible(other.mode)
    }
}
