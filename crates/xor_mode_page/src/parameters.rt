ghost use Rattle.std.specs.Prelude.{◌≡◌, ◌≢◌, ◌≤◌, ◌<◌, ◌++◌, ℕ, length, drop, Some, None, Err, IsOk, MatchOption, MatchResult, OnOk, OnErr, IfErr};
ghost use Rattle.xor_mode_page.specs.declared.pages.XorPage.{XorPage};
ghost use Rattle.xor_mode_page.specs.declared.pages.PageFault.{PageFault};
ghost use Rattle.xor_mode_page.specs.Pages.{Selects, IsListFault, list_fault, HasLength, IsFine, list_bits, list_values, spelling, sense_header, changeable};

use crate::bits::{BITS, HEADER, VALUES, offence};
use crate::codec::{encode_page, fields_of};
use crate::pages::{PageFault, XorPage};

/// Each field all ones: the bits of the page that MODE SELECT may change.
const CHANGEABLE: XorPage = XorPage {
    xordis: true,
    max_write: u32::MAX,
    max_regenerate: u32::MAX,
    max_rebuild: u32::MAX,
    delay: u16::MAX,
};

/// Sets the page by a parameter list of MODE SELECT (SPC). A fault is the length, else the lowest byte,
/// counted from the list's start, that has a bit that no list has there; the page is then unchanged.
pub fn select(page: &mut XorPage, list: &[u8]) -> Result<(), PageFault>
    // What is set is what the list makes of the page.
    ensures ok { OnOk result (Selects list.now page.old page.new) }
    // What the list makes of the page is set.
    ensures only { (listed : XorPage) → Selects list.now page.old listed → IsOk result × (page.new ≡ listed) }
    ensures err { OnErr result (page.new ≡ page.old) }
    // What an answered fault says of the list.
    ensures fault { IfErr result (IsListFault list.now) }
    // When a fault is answered.
    ensures refused { (e : PageFault) → IsListFault list.now e → result ≡ Err e }
    // The same of the one fault that a list has or hasn't.
    ensures tested { MatchResult result (λ _. list_fault list.now ≡ None) (λ e. list_fault list.now ≡ Some e) }
{
    // All of the list is judged before the page is touched: a list that is refused for its last byte leaves
    // the page as it was.
    check(list)?;
    if let Some(listed) = listed_page(list) {
        *page = fields_of(listed);
    }
    Ok(())
}

/// Whether the bytes are a list of MODE SELECT, or their fault.
fn check(list: &[u8]) -> Result<(), PageFault>
    ensures length { OnOk result (HasLength list.now) }
    ensures fine { OnOk result ((k : ℕ) → k < length list.now → IsFine list_bits list_values list.now k) }
    ensures fault { IfErr result (IsListFault list.now) }
{
    let got = list.len();
    if got != 0 && got != HEADER && got != BITS.len() {
        let want = if got < HEADER { HEADER } else { BITS.len() };
        return Err(PageFault::Length { want, got });
    }
    match offence(&BITS, &VALUES, list) {
        Some(byte) => Err(PageFault::Field { byte }),
        None => Ok(()),
    }
}

/// The page behind the header of a list, if there is one.
fn listed_page(list: &[u8]) -> Option<&[u8; 24]>
    requires { HasLength list.now }
    ensures { MatchOption result (length list.now < 32) (λ page. (length list.now ≡ 32) × (page.now ≡ drop 8 list.now)) }
{
    let (_, rest) = list.split_first_chunk::<8>()?;
    rest.as_array::<24>()
}

/// What MODE SENSE gives for the page (SPC): the header and the page. A page control `pc` of 0 asks for
/// the current page and one of 2 for the first, which is then the page given; one of 1 asks for the bits
/// that may be changed.
pub fn sense(page: &XorPage, pc: u8) -> [u8; 32]
    requires { pc ≤ 2 }
    ensures kept { pc ≢ 1 → result ≡ sense_header ++ spelling page.now }
    ensures mask { pc ≡ 1 → result ≡ sense_header ++ spelling changeable }
{
    let shown = if pc == 1 { &CHANGEABLE } else { page };
    let mut bytes = [0; 32];
    bytes[1] = 30;
    bytes[HEADER..].copy_from_slice(&encode_page(shown));
    bytes
}
