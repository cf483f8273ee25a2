ghost use Rattle.std.specs.Prelude.{◌≡◌};

/// Who carries the delta of an update to parity, and who gathers blocks of several targets.
///
/// Whoever asks something of a mode asks it by one of the questions below, so that a further mode
/// has to answer each of them and falls into no half that was meant for others.
#[derive(Clone, Copy, Debug, PartialEq, Eq)]
pub enum Mode {
    /// The controller: it writes by XDWRITE, takes the held delta by XDREAD, and folds it by XPWRITE.
    Supervised,
    /// The targets among themselves: by XDWRITE EXTENDED, REBUILD and REGENERATE.
    ThirdParty,
    /// The controller, to which XDWRITEREAD hands the delta back at once.
    Readback,
}

impl Mode {
    ghost use Rattle.stripe_layout.specs.Modes as modes;

    /// The controller takes an update's delta from the target that holds it.
    pub fn takes_delta(self) -> bool
        ensures { result ≡ modes.takes_delta self }
    {
        match self {
            Mode::Supervised => true,
            Mode::ThirdParty | Mode::Readback => false,
        }
    }

    /// The target that writes sends an update's delta to parity itself.
    pub fn sends_delta(self) -> bool
        ensures { result ≡ modes.sends_delta self }
    {
        match self {
            Mode::ThirdParty => true,
            Mode::Supervised | Mode::Readback => false,
        }
    }

    /// The target that writes answers an update's delta, and keeps none of it.
    pub fn hands_delta_back(self) -> bool
        ensures { result ≡ modes.hands_delta_back self }
    {
        match self {
            Mode::Readback => true,
            Mode::Supervised | Mode::ThirdParty => false,
        }
    }

    /// An update needs room in the buffer of the target that it writes to.
    pub fn update_needs_room(self) -> bool
        ensures { result ≡ modes.update_needs_room self }
    {
        match self {
            Mode::Supervised => true,
            Mode::ThirdParty | Mode::Readback => false,
        }
    }

    /// A target reads blocks of its peers itself, by REBUILD and REGENERATE; else the controller does.
    pub fn target_gathers(self) -> bool
        ensures { result ≡ modes.target_gathers self }
    {
        match self {
            Mode::ThirdParty => true,
            Mode::Supervised | Mode::Readback => false,
        }
    }
}
