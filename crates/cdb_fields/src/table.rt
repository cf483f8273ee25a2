/// Reads or writes a table of fields in an array of bytes. A field is `flag(byte, bit)`, a `bool`;
/// `bits(byte, high, low)`, a `u8`; or `byte(place)`, `short(place)` and `long(place)`, the big endian
/// numbers of one, two and four bytes.
///
/// `fields!(get bytes; Type { name: field, .. })` is the value with these fields, and
/// `fields!(put bytes, value; Type { name: field, .. })` writes each field of a struct.
/// `put_variant` does so for a variant of an enum, which the value is known to be.
#[macro_export]
macro_rules! fields {
    (get $bytes:expr; $($type:ident)::+ { $($name:ident: $kind:ident($($at:literal),+)),+ $(,)? }) => {
        $($type)::+ { $($name: $crate::fields!(@get $bytes, $kind($($at),+))),+ }
    };
    (put $bytes:expr, $value:expr; $($type:ident)::+ { $($name:ident: $kind:ident($($at:literal),+)),+ $(,)? }) => {
        let $($type)::+ { $($name),+ } = $value;
        $($crate::fields!(@put $bytes, $name, $kind($($at),+));)+
    };
    (put_variant $bytes:expr, $value:expr; $($type:ident)::+ { $($name:ident: $kind:ident($($at:literal),+)),+ $(,)? }) => {
        let $($type)::+ { $($name),+ } = $value else { unreachable!() };
        $($crate::fields!(@put $bytes, $name, $kind($($at),+));)+
    };
    (@get $bytes:expr, flag($byte:literal, $bit:literal)) => {
        $crate::Field::<$byte, $bit, $bit>::get($bytes) == 1
    };
    (@get $bytes:expr, bits($byte:literal, $high:literal, $low:literal)) => {
        $crate::Field::<$byte, $high, $low>::get($bytes)
    };
    (@get $bytes:expr, byte($place:literal)) => {
        $crate::Number::<$place, 1>::get($bytes) as u8
    };
    (@get $bytes:expr, short($place:literal)) => {
        $crate::Number::<$place, 2>::get($bytes) as u16
    };
    (@get $bytes:expr, long($place:literal)) => {
        $crate::Number::<$place, 4>::get($bytes)
    };
    (@put $bytes:expr, $value:expr, flag($byte:literal, $bit:literal)) => {
        $crate::Field::<$byte, $bit, $bit>::put($bytes, $value as u8)
    };
    (@put $bytes:expr, $value:expr, bits($byte:literal, $high:literal, $low:literal)) => {
        $crate::Field::<$byte, $high, $low>::put($bytes, $value)
    };
    (@put $bytes:expr, $value:expr, byte($place:literal)) => {
        $crate::Number::<$place, 1>::put($bytes, $value as u32)
    };
    (@put $bytes:expr, $value:expr, short($place:literal)) => {
        $crate::Number::<$place, 2>::put($bytes, $value as u32)
    };
    (@put $bytes:expr, $value:expr, long($place:literal)) => {
        $crate::Number::<$place, 4>::put($bytes, $value)
    };
}
