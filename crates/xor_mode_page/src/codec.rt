ghost use Rattle.std.specs.Prelude.{◌≡◌, ◌≢◌, ◌<◌, ◌^◌, ℕ, length, Ok, Err, IfOk, IfErr, MatchResult};
ghost use Rattle.std.specs.Int.{w16, w32, to_be_bytes};
ghost use Rattle.xor_mode_page.specs.declared.pages.XorPage.{XorPage};
ghost use Rattle.xor_mode_page.specs.declared.pages.PageFault.{PageFault};
ghost use Rattle.xor_mode_page.specs.Pages.{spelling, Fits, SpellsPage, IsPageFault, IsFine, fixed_bits, fixed_values};

use crate::bits::{BITS, HEADER, VALUES, offence};
use crate::pages::{PageFault, XorPage};
use cdb_fields::fields;

/// The page that 24 bytes spell (SBC). A fault is the length, else the lowest byte, counted from the
/// page's start, that has a bit that no page has there.
pub fn decode_page(bytes: &[u8]) -> Result<XorPage, PageFault>
    // What is read is spelt so.
    ensures found { IfOk result (SpellsPage bytes.now) }
    // What is spelt so is read.
    ensures only { (page : XorPage) → SpellsPage bytes.now page → result ≡ Ok page }
    // What an answered fault says of the bytes.
    ensures fault { IfErr result (IsPageFault bytes.now) }
    // When a fault is answered.
    ensures refused { (e : PageFault) → IsPageFault bytes.now e → result ≡ Err e }
{
    first_answer(bytes)
}

/// The same answer by one clause in the place of four: that a fault is answered exactly where it is the
/// first follows from it, since bytes spell at most one page and have at most one first fault.
fn first_answer(bytes: &[u8]) -> Result<XorPage, PageFault>
    ensures { MatchResult result (SpellsPage bytes.now) (IsPageFault bytes.now) }
{
    let Some(page) = bytes.as_array::<24>() else {
        return Err(PageFault::Length {
            want: 24,
            got: bytes.len(),
        });
    };
    match offence(&BITS[HEADER..], &VALUES[HEADER..], bytes) {
        Some(byte) => Err(PageFault::Field { byte }),
        None => Ok(fields_of(page)),
    }
}

/// The fields of a page whose fixed bits have their values.
pub fn fields_of(page: &[u8; 24]) -> XorPage
    requires { (k : ℕ) → k < 24 → IsFine fixed_bits fixed_values page.now k }
    ensures { SpellsPage page.now result }
{
    fields!(get page; XorPage {
        xordis: flag(2, 1),
        max_write: long(4),
        max_regenerate: long(12),
        max_rebuild: long(16),
        delay: short(22),
    })
}

/// The 24 bytes that spell a page (SBC).
pub fn encode_page(page: &XorPage) -> [u8; 24]
    ensures bytes { result ≡ spelling page.now }
    ensures fits { Fits page.now }
{
    let [a, b, c, d] = word_of(page.max_write);
    let [e, f, g, h] = word_of(page.max_regenerate);
    let [i, j, k, l] = word_of(page.max_rebuild);
    let [m, n] = short_of(page.delay);
    let flags = if page.xordis { 2 } else { 0 };
    [
        0x10, 0x16, flags, 0, a, b, c, d, 0, 0, 0, 0, e, f, g, h, i, j, k, l, 0, 0, m, n,
    ]
}

/// Two pages are never spelt alike.
pub fn spelling_law()
    ensures { (p q : XorPage) → Fits p → Fits q → spelling p ≡ spelling q → p ≡ q }
{}

/// The four bytes of a number.
fn word_of(number: u32) -> [u8; 4]
    ensures bytes { result ≡ to_be_bytes w32 number }
    ensures small { number < 2 ^ 32 }
{
    number.to_be_bytes()
}

/// The two bytes of a number.
fn short_of(number: u16) -> [u8; 2]
    ensures bytes { result ≡ to_be_bytes w16 number }
    ensures small { number < 2 ^ 16 }
{
    number.to_be_bytes()
}
