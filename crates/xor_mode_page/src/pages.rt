/// The XOR control mode page (SBC): whether XOR commands are disabled (XORDIS), the greatest numbers of
/// blocks of an XOR write, a REGENERATE and a REBUILD, zero where there is no limit, and the rebuild
/// delay, which is kept and never acted on.
#[derive(Clone, Copy, Debug, PartialEq, Eq)]
pub struct XorPage {
    pub xordis: bool,
    pub max_write: u32,
    pub max_regenerate: u32,
    pub max_rebuild: u32,
    pub delay: u16,
}

/// Why bytes aren't a page, or not a parameter list of MODE SELECT.
#[derive(Clone, Copy, Debug, PartialEq, Eq)]
pub enum PageFault {
    /// `want` bytes were due, and `got` came (PARAMETER LIST LENGTH ERROR).
    Length { want: usize, got: usize },
    /// The byte at this place has a bit that it mustn't have (INVALID FIELD IN PARAMETER LIST). A page
    /// counts from its own start, a list of MODE SELECT from the list's.
    Field { byte: u16 },
}
