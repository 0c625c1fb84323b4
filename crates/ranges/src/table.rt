// The integer types, each with its least and its greatest number, as table 10 of IEC 61131-3 lists them (`for_integer` of value_range.rs). docs/RANGES.md
// is this table for people.
#![tactic(auto, using(crate::proofs::table::Laws::laws))]

ghost use Rattle.std.specs.Prelude.{◌≡◌};
ghost use Rattle.ranges.specs.Table.{bounds_of, listed};

// The least and the greatest number of a type; none for a width that is not in the table.
#[tactic(auto, using(crate::proofs::table::Laws::laws), unfolding(crate::specs::Table::listed, definition::specs::Accept::is_bits, definition::specs::Iec::greatest, definition::specs::Iec::least))]
pub fn for_integer(bits: u32, signed: bool) -> Option<(i64, u64)>
    ensures { bounds_of result ≡ listed signed bits }
{
    if signed {
        return match bits {
            8 => Some((-128, 127)), // SINT
            16 => Some((-32768, 32767)), // INT
            32 => Some((-2147483648, 2147483647)), // DINT
            64 => Some((-9223372036854775808, 9223372036854775807)), // LINT
            _ => None,
        };
    }
    match bits {
        8 => Some((0, 255)), // USINT
        16 => Some((0, 65535)), // UINT
        32 => Some((0, 4294967295)), // UDINT
        64 => Some((0, 18446744073709551615)), // ULINT
        _ => None,
    }
}
