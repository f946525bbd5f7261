//! What is done to a run of cells.
ghost use Rattle.std.specs.Prelude.{◌≡◌, ◌+◌, ◌≤◌, length};
ghost use Rattle.edge_pool.specs.inside.Runs.{IsCleared};

/// Sets the cells from `from` up to `to` to (0, 0).
pub(crate) fn clear(cells: &mut [(u32, u32)], from: usize, to: usize)
    requires order { from ≤ to }
    requires within { to ≤ length cells.old }
    ensures { IsCleared cells.old cells.new from to }
{
    for place in from..to {
        cells[place] = (0, 0);
    }
}
