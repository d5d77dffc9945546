// The read plan, and what is told of each tile of a run, as exported functions on numbers and slices.
// include/tussockbell.h declares them for C.
#![tactic(auto)]

ghost use Rattle.std.specs.Prelude.{◌≡◌, length};
ghost use Rattle.plan.specs.Plan.{plan_answer, plan_output, var_plan_answer, var_plan_output, plan_at, output_at};
ghost use Rattle.tile_runs.specs.Told.{extents_told, cells_told};
ghost use Rattle.c_plan.specs.Places.{plan_places};

use plan::ReadPlan;

// The read plan of tile offsets, which are checked first. What `work` holds afterwards is free.
#[unsafe(no_mangle)]
pub extern "C" fn tussockbell_read_plan(
    tiles: u64,
    size: u64,
    list: &[u8],
    gap: u64,
    run: &[u32],
    work: &mut [u8],
    out: &mut [u64],
    answer: &mut [u64; 6],
)
    ensures answer { answer.new ≡ plan_places (plan_answer tiles size list.now gap
        run.now (length work.old)) }
    ensures buffer { out.new ≡ plan_output tiles size list.now gap run.now
        (length work.old) out.old }
{
    *answer = plan_places(ReadPlan::from(plan::read_plan(list, tiles, size, gap, run, work, out)));
}

// The same of var offsets.
#[unsafe(no_mangle)]
pub extern "C" fn tussockbell_var_read_plan(
    tiles: u64,
    size: u64,
    list: &[u8],
    gap: u64,
    run: &[u32],
    work: &mut [u8],
    out: &mut [u64],
    answer: &mut [u64; 6],
)
    ensures answer { answer.new ≡ plan_places (var_plan_answer tiles size list.now gap
        run.now (length work.old)) }
    ensures buffer { out.new ≡ var_plan_output tiles size list.now gap run.now
        (length work.old) out.old }
{
    *answer = plan_places(ReadPlan::from(plan::var_read_plan(
        list, tiles, size, gap, run, work, out,
    )));
}

// The same with no check of the list, by either rule.
#[unsafe(no_mangle)]
pub extern "C" fn tussockbell_read_plan_at(
    tiles: u64,
    size: u64,
    list: &[u8],
    gap: u64,
    run: &[u32],
    work: &mut [u8],
    out: &mut [u64],
    answer: &mut [u64; 6],
)
    ensures answer { answer.new ≡ plan_places (plan_at tiles size list.now gap
        run.now (length work.old)) }
    ensures buffer { out.new ≡ output_at tiles size list.now gap run.now
        (length work.old) out.old }
{
    *answer = plan_places(ReadPlan::from(plan::read_plan_at(
        list, tiles, size, gap, run, work, out,
    )));
}

// The offset and the extent of each tile of a run, with no check of the list.
#[unsafe(no_mangle)]
pub extern "C" fn tussockbell_run_extents_at(
    tiles: u64,
    size: u64,
    list: &[u8],
    run: &[u32],
    out: &mut [u64],
)
    ensures { out.new ≡ extents_told tiles size list.now run.now
        out.old }
{
    tile_runs::extents_at(list, tiles, size, run, out);
}

// The cells of each tile of a run, with no footer.
#[unsafe(no_mangle)]
pub extern "C" fn tussockbell_run_cells_at(
    tiles: u64,
    last_cells: u64,
    capacity: u64,
    run: &[u32],
    out: &mut [u64],
)
    ensures { out.new ≡ cells_told tiles last_cells capacity run.now out.old }
{
    tile_runs::cells_at(tiles, last_cells, capacity, run, out);
}

fn plan_places(r: ReadPlan) -> [u64; 6]
    ensures { result ≡ plan_places r }
{
    [r.number, r.place, r.ranges, r.tiles, r.outside, r.bytes]
}
