//! The fields of the vertices' numbers, made once for all lines.
ghost use Rattle.std.specs.Prelude.{◌≡◌, ◌+◌, ◌<◌, ◌≤◌, IfOk};
ghost use Rattle.byu_text.specs.Numbers.{vertex_fields, vertex_table};

use crate::fields::number_field;
use fku_types::NoMemory;
use fku_types::limits::MAX_MESH_VERTICES;
use std::alloc::Global;

/// A vertex's number as a field: at the end of a polygon's line, where it is negative, and at the other places.
#[derive(Clone, Copy)]
pub struct VertexFields {
    pub positive: [u8; 8],
    pub negative: [u8; 8],
}

// The fields of the vertex with this id.
fn vertex_fields(id: usize) -> VertexFields
    requires { id ≤ MAX_MESH_VERTICES }
    ensures { result ≡ vertex_fields id }
{
    let number = id as i32 + 1;
    VertexFields {
        positive: number_field(number),
        negative: number_field(-number),
    }
}

// The fields of the vertex after the one with this id. They differ only in the last digit, unless that is a 9.
#[inline(always)]
fn next_fields(fields: VertexFields, id: usize) -> VertexFields
    requires id { id < MAX_MESH_VERTICES }
    requires fields { fields ≡ vertex_fields id }
    ensures { result ≡ vertex_fields (id + 1) }
{
    let VertexFields {
        mut positive,
        mut negative,
    } = fields;
    if positive[7] == b'9' {
        return vertex_fields(id + 1);
    }
    positive[7] += 1;
    negative[7] += 1;
    VertexFields { positive, negative }
}

/// The fields of `count` vertices, each at the index of its id; or `NoMemory`.
pub fn vertex_table(alloc: Global, count: usize) -> Result<Vec<VertexFields>, NoMemory>
    requires { count ≤ MAX_MESH_VERTICES }
    ensures { IfOk result (λ table. table.items ≡ vertex_table count) }
{
    let mut table = Vec::with_capacity(alloc, count)?;
    let mut fields = vertex_fields(0);
    for id in 0..count {
        table.push(fields)?;
        fields = next_fields(fields, id);
    }
    Ok(table)
}
