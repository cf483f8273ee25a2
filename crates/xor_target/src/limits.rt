/// What a target is to the commands: its number, how many targets there are, the bytes of a block, the rows of
/// its medium.
#[derive(Clone, Copy, Debug, PartialEq, Eq)]
pub struct TargetLimits {
    pub number: u8,
    pub targets: u8,
    pub block: u32,
    pub rows: u32,
}
