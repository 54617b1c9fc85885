//! Fields of headers, written one after another.

ghost use Rattle.std.specs.Prelude.{◌≡◌, true, map};
ghost use Rattle.std.specs.List.{list_all};
ghost use Rattle.hv_stream_model.specs.Fields.{bits_of_fields, field_bits};
ghost use Rattle.hv_bits.specs.Writing.{Appends};
ghost use Rattle.hv_bits.specs.FieldTables.{field_of, is_codable, TablesJoin};

use crate::writer::BitWriter;
use hv_stream_model::joined_fields_have_joined_bits;

/// A field of a header with its value, by its descriptor (7.2): `u(n)` of n bits, `ue(v)` or
/// `se(v)`.
#[derive(Clone, Copy, Debug, PartialEq, Eq)]
pub enum Field {
    /// The number of bits, at most 32, and a value of so many bits.
    U(u8, u32),
    /// A value below 2^32 - 1.
    Ue(u32),
    /// A value above -2^31.
    Se(i32),
}

/// Puts the fields of a table (7.3), one after another. A growth that fails is kept by the writer,
/// and answered by its `finish`.
pub fn put_fields(writer: &mut BitWriter, fields: &[Field])
    requires { list_all is_codable fields.now ≡ true }
    ensures { Appends writer.old writer.new (bits_of_fields (map field_of fields.now)) }
{
    joined_fields_have_joined_bits();
    for field in fields {
        put_field(writer, *field);
    }
}

/// Two tables, put one behind the other, are one table.
pub fn tables_join()
    ensures { TablesJoin }
{
    joined_fields_have_joined_bits();
}

fn put_field(writer: &mut BitWriter, field: Field)
    requires { is_codable field ≡ true }
    ensures { Appends writer.old writer.new (field_bits (field_of field)) }
{
    match field {
        Field::U(bits, value) => writer.put(value, bits),
        Field::Ue(value) => writer.ue(value),
        Field::Se(value) => writer.se(value),
    }
}
