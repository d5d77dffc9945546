// What is told of each tile of a run in one call, with no check: offset and extent, and the cells. Each has a loop of its
// own: one loop would take a closure that answers an array of any length, which the prover doesn't cover.
#![tactic(auto)]

ghost use Rattle.std.specs.Prelude.{◌≡◌};
ghost use Rattle.tile_runs.specs.Told.{extents_told, cells_told};

// The offset and the extent of each tile of a run, in the run's order, as many tiles as fit; of a list of either kind
// that is known to be accepted.
pub fn extents_at(body: &[u8], tiles: u64, size: u64, run: &[u32], out: &mut [u64])
    ensures { out.new ≡ extents_told tiles size body.now run.now
        out.old }
{
    let count = answers::lesser(run.len(), out.len() / 2);
    for k in 0..count {
        let e = lists::extent_at(body, tiles, size, run[k] as u64);
        let at = 2 * k;
        out[at] = e.offset;
        out[at + 1] = e.extent;
    }
}

// The cells of each tile of a run, in the run's order, as many as fit, for callers who have an accepted footer.
pub fn cells_at(tiles: u64, last: u64, capacity: u64, run: &[u32], out: &mut [u64])
    ensures { out.new ≡ cells_told tiles last capacity run.now out.old }
{
    let count = answers::lesser(run.len(), out.len());
    for k in 0..count {
        out[k] = cells::cells_at(tiles, last, capacity, run[k] as u64);
    }
}
