/// A command of the array's disks. `lba` is a logical block address, `length` a number of blocks and
/// `list` the number of bytes of a parameter list (SBC, SPC).
#[derive(Clone, Copy, Debug, PartialEq, Eq)]
pub enum Command {
    /// READ(10).
    Read {
        dpo: bool,
        fua: bool,
        lba: u32,
        length: u16,
    },
    /// WRITE(10).
    Write {
        dpo: bool,
        fua: bool,
        lba: u32,
        length: u16,
    },
    /// XDWRITE; `disable` keeps the medium as it is (DISABLE WRITE).
    XdWrite {
        dpo: bool,
        fua: bool,
        disable: bool,
        lba: u32,
        length: u16,
    },
    /// XPWRITE.
    XpWrite {
        dpo: bool,
        fua: bool,
        lba: u32,
        length: u16,
    },
    /// XDREAD.
    XdRead {
        lba: u32,
        length: u16,
    },
    /// XDWRITEREAD(10); `disable` keeps the medium as it is (DISABLE WRITE).
    XdWriteRead {
        dpo: bool,
        fua: bool,
        disable: bool,
        lba: u32,
        length: u16,
    },
    /// MODE SELECT(10).
    ModeSelect {
        pf: bool,
        sp: bool,
        list: u16,
    },
    /// MODE SENSE(10): page control `pc` of two bits, page code `page` of six.
    ModeSense {
        dbd: bool,
        pc: u8,
        page: u8,
        allocation: u16,
    },
    /// XDWRITE EXTENDED: `second` is the LBA at the secondary target, `address` that target.
    XdWriteExtended {
        dpo: bool,
        fua: bool,
        disable: bool,
        lba: u32,
        second: u32,
        length: u32,
        address: u8,
    },
    /// REBUILD; `intdata` says that the parameter list has intermediate data (INTDATA).
    Rebuild {
        dpo: bool,
        fua: bool,
        intdata: bool,
        lba: u32,
        length: u32,
        list: u32,
    },
    /// REGENERATE, as REBUILD.
    Regenerate {
        dpo: bool,
        fua: bool,
        intdata: bool,
        lba: u32,
        length: u32,
        list: u32,
    },
}
