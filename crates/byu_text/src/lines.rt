//! Lines of fields, appended to the text.
ghost use Rattle.std.specs.Prelude.{◌≡◌, ◌<◌, ◌^◌, ◌++◌, [], ◌∷◌, pos, codes, length, All, OnOk};
ghost use Rattle.std.specs.List.{flat_map};
ghost use Rattle.fku_types.specs.Points.{IsInRange};
ghost use Rattle.byu_text.specs.Fields.{number_line, coordinates_line};
ghost use Rattle.byu_text.specs.Numbers.{vertex_table};
ghost use Rattle.byu_text.specs.Byu.{polygon_line};

use crate::fields::{Height, number_field, put_point};
use crate::numbers::VertexFields;
use fku_types::{NoMemory, Point};

/// Appends a line of integers, given by their fields.
#[inline(always)]
pub fn put_fields(text: &mut Vec<u8>, fields: &[[u8; 8]]) -> Result<(), NoMemory>
    ensures { OnOk result (text.new.items ≡ text.old.items ++ (flat_map (λ field. field) fields.now ++ codes "\n")) }
{
    text.extend_from_slice(fields.as_flattened())?;
    text.push(b'\n')?;
    Ok(())
}

/// Appends the line of the first and the last polygon of a part.
pub fn put_part(text: &mut Vec<u8>, first: usize, last: usize) -> Result<(), NoMemory>
    requires first { first < 10 ^ 7 }
    requires last { last < 10 ^ 7 }
    ensures { OnOk result (text.new.items ≡ text.old.items ++ number_line (pos first ∷ pos last ∷ [])) }
{
    let first = number_field(first as i32);
    let last = number_field(last as i32);
    put_fields(text, &[first, last])
}

/// Appends the line of a triangle of vertex ids, from the vertices' fields.
#[inline(always)]
pub fn put_triangle(
    text: &mut Vec<u8>,
    table: &[VertexFields],
    a: u32,
    b: u32,
    c: u32,
) -> Result<(), NoMemory>
    requires table { table.now ≡ vertex_table (length table.now) }
    requires a { a < length table.now }
    requires b { b < length table.now }
    requires c { c < length table.now }
    ensures { OnOk result (text.new.items ≡ text.old.items ++ polygon_line (a ∷ b ∷ c ∷ [])) }
{
    text.extend_from_slice(&table[a as usize].positive)?;
    text.extend_from_slice(&table[b as usize].positive)?;
    text.extend_from_slice(&table[c as usize].negative)?;
    text.push(b'\n')?;
    Ok(())
}

/// Appends a line of points. The last height becomes that of the last of them.
pub fn put_points(text: &mut Vec<u8>, height: &mut Height, points: &[Point]) -> Result<(), NoMemory>
    requires { All IsInRange points.now }
    ensures { OnOk result (text.new.items ≡ text.old.items ++ coordinates_line points.now) }
{
    for point in points {
        put_point(text, height, *point)?;
    }
    text.push(b'\n')?;
    Ok(())
}
