ghost use Rattle.std.specs.Prelude.{◌+◌, ◌<◌, ◌≤◌, ◌*◌, length};
ghost use Rattle.row_paths.specs.Searches.{bound_at, last_at, IsRegion};
ghost use Rattle.fku_types.specs.declared.limits.TheConstants.{MAX_COMPOSITE_VERTICES};

use fku_types::limits::MAX_COMPOSITE_VERTICES;

/// The bounds of a search: the row from which its word leads and the row to which it leads, and the columns between
/// which it stays. `lo` has the first column of each row, and `hi`, from its second number on, the last one.
#[derive(Drop)]
pub(crate) struct Region<'a> {
    pub lo: &'a [u32],
    pub hi: &'a [u32],
    pub width: u32,
    pub start: u32,
    pub end: u32,
    ghost lo_fits: { end + 1 < length lo.now },
    ghost hi_fits: { end + 1 < length hi.now },
    ghost few: { end < 4 * MAX_COMPOSITE_VERTICES },
    ghost narrow: { width ≤ MAX_COMPOSITE_VERTICES },
    ghost order: { start ≤ end },
    ghost shape: { IsRegion (bound_at lo.now) (last_at hi.now) width end },
}
