ghost use Rattle.sbc_cdbs.specs.declared.commands.Command.{Command};
ghost use Rattle.std.specs.Prelude.{◌≡◌};
ghost use Rattle.sbc_cdbs.specs.Cdbs.{spelling, CanEncode, Fits, SpellsCdb, cdb_bytes};

use crate::tables::*;
use crate::{Cdb, Command};
use cdb_fields::fields;

/// The block of this operation code with the fields of a table.
macro_rules! block {
    ($code:ident, $bytes:expr, $from:ident, $table:ident($variant:ident, $command:expr)) => {{
        let mut bytes = $bytes;
        bytes[0] = $code;
        $table!($variant, put_variant &mut bytes, $command);
        Cdb::$from(bytes)
    }};
}

/// The block that spells a command (SBC, SPC). A MODE SENSE has a page control of at most 3 and a page
/// code of at most 63.
pub fn encode(command: &Command) -> Cdb
    requires { CanEncode command.now }
    ensures bytes { cdb_bytes result ≡ spelling command.now }
    // So decode gives the command again.
    ensures spells { SpellsCdb (cdb_bytes result) command.now }
{
    let command = *command;
    match command {
        Command::Read { .. } => block!(READ, [0; 10], of_ten, transfer(Read, command)),
        Command::Write { .. } => block!(WRITE, [0; 10], of_ten, transfer(Write, command)),
        Command::XdWrite { .. } => block!(XDWRITE, [0; 10], of_ten, xdwrite(XdWrite, command)),
        Command::XpWrite { .. } => block!(XPWRITE, [0; 10], of_ten, transfer(XpWrite, command)),
        Command::XdRead { .. } => block!(XDREAD, [0; 10], of_ten, xdread(XdRead, command)),
        Command::XdWriteRead { .. } => {
            block!(XDWRITEREAD, [0; 10], of_ten, xdwrite(XdWriteRead, command))
        }
        Command::ModeSelect { .. } => block!(
            MODE_SELECT,
            [0; 10],
            of_ten,
            mode_select(ModeSelect, command)
        ),
        Command::ModeSense { .. } => block!(
            MODE_SENSE,
            [0; 10],
            of_ten,
            mode_sense(ModeSense, command)
        ),
        Command::XdWriteExtended { .. } => block!(
            XDWRITE_EXTENDED,
            [0; 16],
            of_sixteen,
            xdwrite_extended(XdWriteExtended, command)
        ),
        Command::Rebuild { .. } => block!(REBUILD, [0; 16], of_sixteen, rebuild(Rebuild, command)),
        Command::Regenerate { .. } => block!(
            REGENERATE,
            [0; 16],
            of_sixteen,
            rebuild(Regenerate, command)
        ),
    }
}

/// Two commands are never spelt alike.
pub fn spelling_law()
    ensures { (v w : Command) → Fits v → Fits w → spelling v ≡ spelling w → v ≡ w }
{}
