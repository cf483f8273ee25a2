//! What a script sets an array to.

ghost use Rattle.std.specs.Prelude.{◌≡◌, ◌≤◌};
ghost use Rattle.array_journal.specs.Run.{IsSetting};
ghost use Rattle.host_scripts.specs.Scripts.{IsScript};
ghost use Rattle.host_requests.specs.Settings.{setting_of, most_blocks};

use array_journal::Setting;
use host_scripts::Script;

/// The setting of the array that a script speaks of.
pub fn setting_of(script: &Script) -> Setting
    ensures value { result ≡ setting_of script.now }
    ensures in_range { IsScript script.now → IsSetting result }
{
    Setting {
        geometry: script.geometry,
        buffer: script.buffer,
        mode: script.mode,
    }
}

/// The most blocks of a command: longer runs are cut, since a delta has to fit the buffer of its target,
/// and an XOR command the target's maximum.
pub fn most_blocks(script: &Script) -> u32
    ensures value { result ≡ most_blocks script.now }
    ensures some { IsScript script.now → 1 ≤ result }
{
    if script.maxima[0] == 0 {
        script.buffer
    } else {
        script.buffer.min(script.maxima[0])
    }
}
