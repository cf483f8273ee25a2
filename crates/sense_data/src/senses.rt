ghost use Rattle.std.specs.Prelude.{◌≡◌, ◌<◌};
ghost use Rattle.std.specs.Option.{ForSome};

/// Where the field in error stands (SPC, sense key specific bytes): `command` says that it is in the
/// CDB and not in the parameter list, `bit` its highest bit where one is named, `byte` its first byte.
#[derive(Clone, Copy, Debug, PartialEq, Eq)]
pub struct Pointer {
    pub command: bool,
    pub bit: Option<u8>,
    pub byte: u16,
    pub ghost in_byte: { ForSome bit (λ b. b < 8) },
}

/// Sense data of a CHECK CONDITION: sense key, information where it is valid, command specific
/// information, additional sense code and its qualifier, field replaceable unit, and for the key 5
/// (ILLEGAL REQUEST) perhaps a pointer at the field in error.
#[derive(Clone, Copy, Debug, PartialEq, Eq)]
pub struct Sense {
    pub key: u8,
    pub information: Option<u32>,
    pub specific: u32,
    pub asc: u8,
    pub ascq: u8,
    pub fru: u8,
    pub pointer: Option<Pointer>,
    pub ghost in_range: { key < 16 },
    pub ghost illegal: { ForSome pointer (λ p. key ≡ 5) },
}
