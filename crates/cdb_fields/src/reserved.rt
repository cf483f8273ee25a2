ghost use Rattle.std.specs.Prelude.{◌≡◌, ◌≤◌, length, MatchOption, EachIndex};
ghost use Rattle.cdb_fields.specs.Fields.{IsFirstShared, SharesNone};

/// The lowest place at which `mask` and `bytes` have a one bit in common.
pub fn first_reserved(mask: &[u8], bytes: &[u8]) -> Option<u16>
    requires same { length mask.now ≡ length bytes.now }
    requires short { length bytes.now ≤ 65535 }
    ensures { MatchOption result (EachIndex bytes.now (SharesNone mask.now bytes.now))
        (IsFirstShared mask.now bytes.now) }
{
    for (i, b) in bytes.iter().enumerate() {
        if mask[i] & *b != 0 {
            return Some(i as u16);
        }
    }
    None
}
