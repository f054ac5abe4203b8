//! The triangles of a strip between two rings.
ghost use Rattle.std.specs.Prelude.{◌≡◌, ◌<◌, [], ◌∷◌, ◌++◌, length, All, Contains, IfOk, OnOk};
ghost use Rattle.strip_graph.specs.Strips.{rows, cols};
ghost use Rattle.strip_graph.specs.Tilings.{IsAcceptable};
ghost use Rattle.plane_geom.specs.Rings.{LeavesOver};
ghost use Rattle.triangle_meshes.specs.Tiles.{tile, tiles};

use fku_types::NoMemory;
use std::alloc::Global;
use strip_graph::{Pair, SpanStep, Step, Tiling, next_place};

// The tile of the step from a span, of two rings of ids.
fn tile_at(low: &[u32], high: &[u32], span: SpanStep) -> [u32; 3]
    requires row { span.row < length low.now }
    requires col { span.col < length high.now }
    ensures { result ≡ tile low.now high.now span.row span.col span.step }
{
    let (row, col) = (span.row, span.col);
    match span.step {
        Step::V => [low[row], low[next_place(row, low.len())], high[col]],
        Step::H => [high[next_place(col, high.len())], high[col], low[row]],
    }
}

/// Appends the tiles of an acceptable tiling to other triangles, in the order of its word; or `NoMemory`. From the span
/// of a row and a column, V adds the triangle of the lower ring's vertex there, its next one, and the upper ring's
/// vertex; H adds the triangle of the upper ring's next vertex, its vertex there, and the lower ring's vertex.
pub fn add_tiles(
    triangles: &mut Vec<[u32; 3]>,
    pair: &Pair,
    tiling: &Tiling,
) -> Result<(), NoMemory>
    requires { IsAcceptable (rows pair.now) (cols pair.now) tiling.now.row 0 tiling.now.word.items }
    ensures { OnOk result
        (triangles.new.items
        ≡ triangles.old.items ++ tiles pair.now.low_ids pair.now.high_ids tiling.now.row 0 tiling.now.word.items) }
{
    let low = pair.low().ids.as_slice();
    let high = pair.high().ids.as_slice();
    for span in pair.spans(tiling) {
        triangles.push(tile_at(low, high, span))?;
    }
    Ok(())
}

/// The tiles of an acceptable tiling, in the order of `add_tiles`; or `NoMemory`.
pub fn strip_tiles(alloc: Global, pair: &Pair, tiling: &Tiling) -> Result<Vec<[u32; 3]>, NoMemory>
    requires { IsAcceptable (rows pair.now) (cols pair.now) tiling.now.row 0 tiling.now.word.items }
    ensures tiles { IfOk result (λ v.
        v.items ≡ tiles pair.now.low_ids pair.now.high_ids tiling.now.row 0 tiling.now.word.items) }
    ensures one_a_step { IfOk result (λ v. length v.items ≡ length tiling.now.word.items) }
    ensures own_ids { IfOk result (λ v. All (All (Contains (pair.now.low_ids ++ pair.now.high_ids))) v.items) }

    // The edges of the lower ring are left over forwards, those of the upper ring backwards.
    ensures left_over { IfOk result (λ v. LeavesOver v.items (pair.now.low_ids ∷ []) (pair.now.high_ids ∷ [])) }
{
    let _low = pair.low();
    let _high = pair.high();
    let mut triangles = Vec::with_capacity(alloc, tiling.word.len())?;
    add_tiles(&mut triangles, pair, tiling)?;
    Ok(triangles)
}
