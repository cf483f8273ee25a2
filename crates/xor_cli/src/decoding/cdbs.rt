//! The texts of commands.

ghost use Rattle.std.specs.Prelude.{◌≡◌, ◌++◌, OnOk, codes};
ghost use Rattle.std.specs.Io.{StartsWith};
ghost use Rattle.xor_cli.specs.DecodeTexts.{caching, extent, transfer_text, flagged, sending, gathering, selecting, select_text, mode_sense_text, cdb_text};

use crate::text::{push_field, push_flag};
use blocks_core::{Bytes, Memory};
use sbc_cdbs::Command;

/// DPO and FUA, what a command asks of caches.
#[tactic(auto, using(text_fields::proofs::Fronts::fronts), unfolding(crate::specs::DecodeTexts::caching))]
fn push_caching(text: &mut Bytes, dpo: bool, fua: bool) -> Result<(), Memory>
    ensures ok { OnOk result (text.new ≡ text.old ++ caching dpo fua) }
    ensures front { StartsWith text.new text.old }
{
    push_flag(text, b"dpo", dpo)?;
    push_flag(text, b"fua", fua)
}

/// The blocks that a command is about.
#[tactic(auto, using(text_fields::proofs::Fronts::fronts), unfolding(crate::specs::DecodeTexts::extent))]
fn push_extent(text: &mut Bytes, lba: u32, length: u32) -> Result<(), Memory>
    ensures ok { OnOk result (text.new ≡ text.old ++ extent lba length) }
    ensures front { StartsWith text.new text.old }
{
    push_field(text, b"lba", u64::from(lba))?;
    push_field(text, b"length", u64::from(length))
}

#[tactic(auto, using(text_fields::proofs::Fronts::fronts))]
fn push_transfer(
    text: &mut Bytes,
    name: &[u8],
    dpo: bool,
    fua: bool,
    lba: u32,
    length: u16,
) -> Result<(), Memory>
    ensures ok { OnOk result (text.new ≡ text.old ++ transfer_text name.now dpo fua lba length) }
    ensures front { StartsWith text.new text.old }
{
    text.push_slice(name)?;
    push_caching(text, dpo, fua)?;
    push_extent(text, lba, u32::from(length))
}

/// A name with the flags of caches and one more flag.
#[tactic(auto, using(text_fields::proofs::Fronts::fronts), unfolding(crate::specs::DecodeTexts::flagged))]
fn push_flagged(
    text: &mut Bytes,
    name: &[u8],
    dpo: bool,
    fua: bool,
    word: &[u8],
    one: bool,
) -> Result<(), Memory>
    ensures ok { OnOk result (text.new ≡ text.old ++ flagged name.now dpo fua word.now one) }
    ensures front { StartsWith text.new text.old }
{
    text.push_slice(name)?;
    push_caching(text, dpo, fua)?;
    push_flag(text, word, one)
}

#[tactic(auto, using(text_fields::proofs::Fronts::fronts))]
fn push_xdread(text: &mut Bytes, lba: u32, length: u16) -> Result<(), Memory>
    ensures ok { OnOk result (text.new ≡ text.old ++ (codes "XDREAD" ++ extent lba length)) }
    ensures front { StartsWith text.new text.old }
{
    text.push_slice(b"XDREAD")?;
    push_extent(text, lba, u32::from(length))
}

/// Where an XDWRITE EXTENDED sends what it makes.
#[tactic(auto, using(text_fields::proofs::Fronts::fronts), unfolding(crate::specs::DecodeTexts::sending))]
fn push_sending(
    text: &mut Bytes,
    lba: u32,
    second: u32,
    length: u32,
    address: u8,
) -> Result<(), Memory>
    ensures ok { OnOk result (text.new ≡ text.old ++ sending lba second length address) }
    ensures front { StartsWith text.new text.old }
{
    push_field(text, b"lba", u64::from(lba))?;
    push_field(text, b"second", u64::from(second))?;
    push_field(text, b"length", u64::from(length))?;
    push_field(text, b"address", u64::from(address))
}

/// What a REBUILD or a REGENERATE makes, and how long its parameter list is.
#[tactic(auto, using(text_fields::proofs::Fronts::fronts), unfolding(crate::specs::DecodeTexts::gathering))]
fn push_gathering(text: &mut Bytes, lba: u32, length: u32, list: u32) -> Result<(), Memory>
    ensures ok { OnOk result (text.new ≡ text.old ++ gathering lba length list) }
    ensures front { StartsWith text.new text.old }
{
    push_extent(text, lba, length)?;
    push_field(text, b"list", u64::from(list))
}

/// MODE SELECT with its flags.
#[tactic(auto, using(text_fields::proofs::Fronts::fronts), unfolding(crate::specs::DecodeTexts::selecting))]
fn push_selecting(text: &mut Bytes, pf: bool, sp: bool) -> Result<(), Memory>
    ensures ok { OnOk result (text.new ≡ text.old ++ selecting pf sp) }
    ensures front { StartsWith text.new text.old }
{
    text.push_slice(b"MODE SELECT")?;
    push_flag(text, b"pf", pf)?;
    push_flag(text, b"sp", sp)
}

#[tactic(auto, using(text_fields::proofs::Fronts::fronts))]
fn push_mode_select(text: &mut Bytes, pf: bool, sp: bool, list: u16) -> Result<(), Memory>
    ensures ok { OnOk result (text.new ≡ text.old ++ select_text pf sp list) }
    ensures front { StartsWith text.new text.old }
{
    push_selecting(text, pf, sp)?;
    push_field(text, b"list", u64::from(list))
}

#[tactic(auto, using(text_fields::proofs::Fronts::fronts))]
fn push_mode_sense(
    text: &mut Bytes,
    dbd: bool,
    pc: u8,
    page: u8,
    allocation: u16,
) -> Result<(), Memory>
    ensures ok { OnOk result (text.new ≡ text.old ++ mode_sense_text dbd pc page allocation) }
    ensures front { StartsWith text.new text.old }
{
    text.push_slice(b"MODE SENSE")?;
    push_flag(text, b"dbd", dbd)?;
    push_field(text, b"pc", u64::from(pc))?;
    push_field(text, b"page", u64::from(page))?;
    push_field(text, b"allocation", u64::from(allocation))
}

/// The name of a command, and its fields.
#[tactic(auto, using(text_fields::proofs::Fronts::fronts))]
pub fn push_cdb(text: &mut Bytes, command: &Command) -> Result<(), Memory>
    ensures ok { OnOk result (text.new ≡ text.old ++ cdb_text command.now) }
    ensures front { StartsWith text.new text.old }
{
    let command = *command;
    match command {
        Command::Read {
            dpo,
            fua,
            lba,
            length,
        } => push_transfer(text, b"READ", dpo, fua, lba, length),
        Command::Write {
            dpo,
            fua,
            lba,
            length,
        } => push_transfer(text, b"WRITE", dpo, fua, lba, length),
        Command::XdWrite {
            dpo,
            fua,
            disable,
            lba,
            length,
        } => {
            push_flagged(text, b"XDWRITE", dpo, fua, b"disable", disable)?;
            push_extent(text, lba, u32::from(length))
        },
        Command::XpWrite {
            dpo,
            fua,
            lba,
            length,
        } => push_transfer(text, b"XPWRITE", dpo, fua, lba, length),
        Command::XdRead { lba, length } => push_xdread(text, lba, length),
        Command::XdWriteRead {
            dpo,
            fua,
            disable,
            lba,
            length,
        } => {
            push_flagged(text, b"XDWRITEREAD", dpo, fua, b"disable", disable)?;
            push_extent(text, lba, u32::from(length))
        },
        Command::ModeSelect { pf, sp, list } => push_mode_select(text, pf, sp, list),
        Command::ModeSense {
            dbd,
            pc,
            page,
            allocation,
        } => push_mode_sense(text, dbd, pc, page, allocation),
        Command::XdWriteExtended {
            dpo,
            fua,
            disable,
            lba,
            second,
            length,
            address,
        } => {
            push_flagged(text, b"XDWRITE EXTENDED", dpo, fua, b"disable", disable)?;
            push_sending(text, lba, second, length, address)
        },
        Command::Rebuild {
            dpo,
            fua,
            intdata,
            lba,
            length,
            list,
        } => {
            push_flagged(text, b"REBUILD", dpo, fua, b"intdata", intdata)?;
            push_gathering(text, lba, length, list)
        },
        Command::Regenerate {
            dpo,
            fua,
            intdata,
            lba,
            length,
            list,
        } => {
            push_flagged(text, b"REGENERATE", dpo, fua, b"intdata", intdata)?;
            push_gathering(text, lba, length, list)
        },
    }
}
