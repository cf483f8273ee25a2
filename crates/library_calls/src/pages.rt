//! `xor_mode_page`: which lists of MODE SELECT set the page, and its bytes.

use blocks_core::{Bytes, Memory};
use text_fields::{push_counted, push_hex};
use xor_mode_page::{PageFault, XorPage, encode_page, select, sense};

/// A list of MODE SELECT with the header and a page in which each field has bits.
const LIST: [u8; 32] = [
    0, 0, 0, 0, 0, 0, 0, 0, 0x10, 0x16, 0x02, 0, 1, 2, 3, 4, 0, 0, 0, 0, 5, 6, 7, 8, 9, 10, 11, 12,
    0, 0, 13, 14,
];

/// Lists that leave the page as it is, and then one that sets each field; behind each what becomes of it.
pub fn push_pages(text: &mut Bytes) -> Result<(), Memory> {
    let mut page = XorPage {
        xordis: false,
        max_write: 0,
        max_regenerate: 0,
        max_rebuild: 0,
        delay: 0,
    };
    push_selected(text, &mut page, &[])?;
    push_selected(text, &mut page, &LIST[..8])?;
    push_selected(text, &mut page, &LIST[..31])?;
    push_selected(text, &mut page, &[0, 30, 0, 0, 0, 0, 0, 0])?;
    push_selected(text, &mut page, &LIST)?;
    text.push_slice(b"current ")?;
    push_hex(text, &sense(&page, 0))?;
    text.push_slice(b"\nchangeable ")?;
    push_hex(text, &sense(&page, 1))?;
    text.push_slice(b"\n")
}

fn push_selected(text: &mut Bytes, page: &mut XorPage, list: &[u8]) -> Result<(), Memory> {
    match select(page, list) {
        Ok(()) => text.push_slice(b"selected")?,
        Err(PageFault::Length { want, got }) => {
            push_counted(text, b"length", want as u64)?;
            push_counted(text, b"", got as u64)?;
        }
        Err(PageFault::Field { byte }) => push_counted(text, b"field", u64::from(byte))?,
    }
    text.push_slice(b" ")?;
    push_hex(text, &encode_page(page))?;
    text.push_slice(b"\n")
}
