ghost use Rattle.std.specs.Prelude.{◌≡◌};
ghost use Rattle.metadata_locks.specs.Modes.{no_modes, has, with_mode, is_against};

use crate::request::Mode;

/// The modes in which one session has locked one key.
#[derive(Clone, Copy, Drop)]
pub(crate) struct Modes {
    intention: bool,
    shared: bool,
    exclusive: bool,
}

impl Modes {
    pub(crate) fn none() -> Modes
        ensures { result ≡ no_modes }
    {
        Modes {
            intention: false,
            shared: false,
            exclusive: false,
        }
    }

    pub(crate) fn has(&self, mode: Mode) -> bool
        ensures { result ≡ has self.now mode }
    {
        match mode {
            Mode::IX => self.intention,
            Mode::S => self.shared,
            Mode::X => self.exclusive,
        }
    }

    pub(crate) fn add(&mut self, mode: Mode)
        ensures { self.new ≡ with_mode mode self.old }
    {
        match mode {
            Mode::IX => self.intention = true,
            Mode::S => self.shared = true,
            Mode::X => self.exclusive = true,
        }
    }

    /// Whether one of the modes doesn't go with another session's.
    pub(crate) fn is_against(&self, mode: Mode) -> bool
        ensures { result ≡ is_against mode self.now }
    {
        match mode {
            Mode::IX => self.shared || self.exclusive,
            Mode::S => self.intention || self.exclusive,
            Mode::X => self.intention || self.shared || self.exclusive,
        }
    }
}
