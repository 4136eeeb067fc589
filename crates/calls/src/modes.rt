// Which modes some needs have.
ghost use Rattle.std.specs.Prelude.{◌≡◌, ◌⊎◌, ◌↔◌, IsTrue};
ghost use Rattle.calls.specs.declared.need.Mode.{Mode};
ghost use Rattle.calls.specs.Rules.{Compatible};
ghost use Rattle.calls.specs.Modes.{Has};

use crate::Mode;

/// Some modes.
#[derive(Clone, Copy)]
pub struct Modes {
    reads: bool,
    writes: bool,
    adds: bool,
    takes: bool,
    gives: bool,
}

impl Modes {
    /// No mode.
    pub fn none() -> Self
        ensures { (m : Mode) → Has result m → ⊥ }
    {
        Self {
            reads: false,
            writes: false,
            adds: false,
            takes: false,
            gives: false,
        }
    }

    /// The mode alone.
    pub fn only(mode: Mode) -> Self
        ensures { (m : Mode) → Has result m ↔ m ≡ mode }
    {
        Self {
            reads: mode == Mode::Read,
            writes: mode == Mode::Write,
            adds: mode == Mode::Add,
            takes: mode == Mode::Take,
            gives: mode == Mode::Give,
        }
    }

    /// The modes of both.
    pub fn with(&self, other: &Self) -> Self
        ensures { (m : Mode) → Has result m ↔ (Has self.now m ⊎ Has other.now m) }
    {
        Self {
            reads: self.reads | other.reads,
            writes: self.writes | other.writes,
            adds: self.adds | other.adds,
            takes: self.takes | other.takes,
            gives: self.gives | other.gives,
        }
    }

    /// Whether one of the modes is not compatible with the mode.
    pub fn conflict_with(&self, mode: Mode) -> bool
        ensures { IsTrue result ↔ ((m : Mode) × Has self.now m × (Compatible m mode → ⊥)) }
    {
        match mode {
            Mode::Read => self.writes || self.adds || self.takes || self.gives,
            Mode::Write => self.reads || self.writes || self.adds || self.takes || self.gives,
            Mode::Add => self.reads || self.writes || self.takes || self.gives,
            Mode::Take | Mode::Give => self.reads || self.writes || self.adds,
        }
    }
}
