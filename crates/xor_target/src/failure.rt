ghost use Rattle.std.specs.Prelude.{◌≡◌};
ghost use Rattle.xor_target.specs.Answers.{communication_failure};

use sense_data::Sense;

/// The sense key ABORTED COMMAND, and LOGICAL UNIT COMMUNICATION FAILURE (SPC).
const ABORTED_COMMAND: u8 = 0x0b;

const COMMUNICATION_FAILURE: u8 = 8;

/// The sense of a command whose request to another target was dropped or refused.
pub fn communication_failure() -> Sense
    ensures { result ≡ communication_failure }
{
    Sense {
        key: ABORTED_COMMAND,
        information: None,
        specific: 0,
        asc: COMMUNICATION_FAILURE,
        ascq: 0,
        fru: 0,
        pointer: None,
    }
}
