//! One list of fields for each record, from which both bodies come: what `read` takes, and what
//! `put` writes.
//!
//! A record's list is a macro of its own, as `read_in_fields!`, of lines `name: type at from..to`:
//! the field's bytes are those from `from` on and before `to`. It hands the list to `take_fields!`
//! or to `put_fields!`. What no line names is padding.

// The record whose fields stand at their places in `$bytes`. After `with` stands a field that is
// known already.
macro_rules! take_fields {
    ($record:ident, $bytes:ident; $($name:ident: $kind:ident at $from:literal .. $to:literal),* $(,)?) => {
        $record { $($name: $crate::fields::take_field!($kind, $bytes, $from)),* }
    };
    ($record:ident, $bytes:ident with $more:ident; $($name:ident: $kind:ident at $from:literal .. $to:literal),* $(,)?) => {
        $record { $($name: $crate::fields::take_field!($kind, $bytes, $from),)* $more }
    };
}

pub(crate) use take_fields;

// The value of a field at an offset.
macro_rules! take_field {
    (u16, $bytes:ident, $at:expr) => { $crate::numbers::u16_at($bytes, $at) };
    (u32, $bytes:ident, $at:expr) => { $crate::numbers::u32_at($bytes, $at) };
    (u64, $bytes:ident, $at:expr) => { $crate::numbers::u64_at($bytes, $at) };
    (i32, $bytes:ident, $at:expr) => { $crate::numbers::i32_at($bytes, $at) };
    (AttrRec, $bytes:ident, $at:expr) => { $crate::attributes::attributes_at($bytes, $at) };
}

pub(crate) use take_field;

// Each field's bytes at their place in a record's array.
macro_rules! put_fields {
    ($record:ident, $out:ident; $($name:ident: $kind:ident at $from:literal .. $to:literal),* $(,)?) => {
        $($out[$from..$to].copy_from_slice(&$crate::fields::field_bytes!($kind, $record.$name));)*
    };
}

pub(crate) use put_fields;

// The bytes of a field's value.
macro_rules! field_bytes {
    (u16, $value:expr) => { $crate::numbers::u16_bytes($value) };
    (u32, $value:expr) => { $crate::numbers::u32_bytes($value) };
    (u64, $value:expr) => { $crate::numbers::u64_bytes($value) };
    (i32, $value:expr) => { $crate::numbers::i32_bytes($value) };
    (AttrRec, $value:expr) => { $value.put() };
}

pub(crate) use field_bytes;
