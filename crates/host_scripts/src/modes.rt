//! The modes of an array, and the line of each.

ghost use Rattle.std.specs.Prelude.{◌≡◌};
ghost use Rattle.host_scripts.specs.Scripts.{mode_text};
ghost use Rattle.host_scripts.specs.Loose.{mode_of};

use stripe_layout::Mode;
use text_fields::is_text;

/// All modes.
const MODES: [Mode; 3] = [Mode::Supervised, Mode::ThirdParty, Mode::Readback];

/// The line of a mode, without its end.
pub fn mode_text(mode: Mode) -> &'static [u8]
    ensures { result.now ≡ mode_text mode }
{
    match mode {
        Mode::Supervised => b"mode supervised",
        Mode::ThirdParty => b"mode thirdparty",
        Mode::Readback => b"mode readback",
    }
}

/// The mode of such a line.
#[tactic(auto, unfolding(crate::specs::Loose::mode_of))]
pub fn mode_of(line: &[u8]) -> Option<Mode>
    ensures { result ≡ mode_of line.now }
{
    MODES
        .into_iter()
        .find(|mode| is_text(line, mode_text(*mode)))
}
