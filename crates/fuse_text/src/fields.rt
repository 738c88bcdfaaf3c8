//! One field of a line, and the fields of a record.

ghost use Rattle.std.specs.Prelude.{◌≡◌, ◌++◌, OnOk};
ghost use Rattle.std.specs.List.{flat_map};
ghost use Rattle.fuse_text.specs.FieldText.{field, hex_field};
ghost use Rattle.plain_text.specs.Fronts.{Begins};

use plain_file::Memory;
use plain_text::{put, put_hex, put_number};

// The fields of a record under their own names, in the order in which they stand here.
macro_rules! put_fields {
    ($out:expr, $record:ident; $($name:ident),* $(,)?) => {
        $crate::fields::put_pairs($out, &[$((stringify!($name), u64::from($record.$name))),*])
    };
}

pub(crate) use put_fields;

/// Appends a field with a number: ` name=value`, in decimal.
///
/// After `Memory` what stood in the buffer still stands at its front; nothing is promised of what
/// stands behind it.
#[tactic(auto, unfolding(crate::specs::FieldText::field))]
pub fn put_field(out: &mut Vec<u8>, name: &str, value: u64) -> Result<(), Memory>
    ensures text { OnOk result (out.new.items ≡ out.old.items ++ field name.now value) }
    ensures front { Begins out.old.items out.new.items }
{
    put(out, b" ")?;
    put(out, name.as_bytes())?;
    put(out, b"=")?;
    put_number(out, value)?;
    Ok(())
}

/// Appends a field with bytes: ` name=` and two hexadecimal digits a byte, in lower case, and
/// ` name=` alone where there are no bytes.
///
/// After `Memory` what stood in the buffer still stands at its front; nothing is promised of what
/// stands behind it.
#[tactic(auto, unfolding(crate::specs::FieldText::hex_field))]
pub fn put_hex_field(out: &mut Vec<u8>, name: &str, bytes: &[u8]) -> Result<(), Memory>
    ensures text { OnOk result (out.new.items ≡ out.old.items ++ hex_field name.now bytes.now) }
    ensures front { Begins out.old.items out.new.items }
{
    put(out, b" ")?;
    put(out, name.as_bytes())?;
    put(out, b"=")?;
    put_hex(out, bytes)?;
    Ok(())
}

/// Appends fields, each a name and its number.
pub(crate) fn put_pairs(out: &mut Vec<u8>, pairs: &[(&str, u64)]) -> Result<(), Memory>
    ensures text { OnOk result (out.new.items ≡ out.old.items ++ flat_map (λ p. field p.0.now p.1) pairs.now) }
    ensures front { Begins out.old.items out.new.items }
{
    for (name, value) in pairs {
        put_field(out, name, *value)?;
    }
    Ok(())
}
