//! What is wrong with the parameter list that came with a command (SPC, MODE SELECT; SBC, REBUILD and REGENERATE).

ghost use Rattle.std.specs.Prelude.{◌≡◌, ◌<◌, ◌^◌, ℕ, Some, option_map};
ghost use Rattle.xor_mode_page.specs.Pages.{list_fault};
ghost use Rattle.xor_params.specs.declared.lists.ParamFault.TheVariants as param_faults;
ghost use Rattle.xor_target.specs.Admission.{wrong_in_list, page_sense, param_sense, wrong_sources, wrong_list};

use super::PARAMETER_LIST_LENGTH;
use crate::limits::TargetLimits;
use sbc_cdbs::Command;
use sense_data::{Pointer, Sense};
use xor_mode_page::{PageFault, XorPage, select};
use xor_params::{ParamFault, fault_of, stranger_in};

/// An additional sense code of the key ILLEGAL REQUEST (SPC).
const FIELD_IN_LIST: u8 = 0x26;

/// The fault of the list that came with a command, where one comes with it.
pub(super) fn wrong_list(
    limits: &TargetLimits,
    page: &XorPage,
    command: &Command,
    bytes: &[u8],
) -> Option<Sense>
    ensures { result ≡ wrong_list limits.now command.now bytes.now }
{
    match *command {
        Command::ModeSelect { .. } => wrong_page(page, bytes),
        Command::Rebuild {
            intdata,
            length,
            ..
        }
        | Command::Regenerate {
            intdata,
            length,
            ..
        } => wrong_sources(limits, intdata, length, bytes),
        _ => None,
    }
}

/// MODE SELECT. The target's own page isn't set here.
fn wrong_page(page: &XorPage, bytes: &[u8]) -> Option<Sense>
    ensures { result ≡ option_map page_sense (list_fault bytes.now) }
{
    let mut trial = *page;
    match select(&mut trial, bytes) {
        Ok(()) => None,
        Err(fault) => Some(page_sense(fault)),
    }
}

fn page_sense(fault: PageFault) -> Sense
    ensures { result ≡ page_sense fault }
{
    match fault {
        PageFault::Length { .. } => Sense::illegal(PARAMETER_LIST_LENGTH, 0, None),
        PageFault::Field { byte } => wrong_in_list(byte),
    }
}

/// REBUILD and REGENERATE of so many blocks: what is wrong with the list, and then with a source that it names.
fn wrong_sources(limits: &TargetLimits, intdata: bool, count: u32, bytes: &[u8]) -> Option<Sense>
    ensures { result ≡ wrong_sources limits.now intdata count bytes.now }
{
    if count == 0 {
        return None;
    }
    let wanted = u64::from(count) * u64::from(limits.block);
    match fault_of(bytes, intdata, wanted) {
        Some(fault) => param_sense(fault),
        None => stranger_in(bytes, limits.targets, limits.number).map(wrong_in_list),
    }
}

fn param_sense(fault: ParamFault) -> Option<Sense>
    requires { (byte : ℕ) → fault ≡ param_faults.Field byte → byte < 2 ^ 16 }
    ensures { result ≡ param_sense (Some fault) }
{
    match fault {
        ParamFault::Length { .. } => Some(Sense::illegal(PARAMETER_LIST_LENGTH, 0, None)),
        ParamFault::Field { byte } => Some(wrong_in_list(byte as u16)),
        ParamFault::Memory => None,
    }
}

/// INVALID FIELD IN PARAMETER LIST, with a pointer at the byte.
fn wrong_in_list(byte: u16) -> Sense
    ensures { result ≡ wrong_in_list byte }
{
    Sense::illegal(FIELD_IN_LIST, 0, Some(Pointer::in_list(byte)))
}
