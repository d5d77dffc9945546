// What goes back to C in more than one answer: every number of a footer, and where its schema name stands.
#![tactic(auto)]

ghost use Rattle.std.specs.Prelude.{◌≡◌, cond, [], ◌∷◌, ◌+◌, ◌≤◌, eqb, length};
ghost use Rattle.std.proofs.lemmas.List.Edits.{sets};
ghost use Rattle.c_answers.specs.Places.{number_places, range_places, domain_places, footer_places};

use boxes::Side;
use footer::{Checked, Footer};

// Where the schema name stands in the lent footer, by the small answer; 0 and 0 where that refuses.
pub fn name_places(r: Checked) -> [u64; 2]
    ensures { result ≡ (cond (eqb r.number 0) 12 0 ∷ r.name_size ∷ []) }
{
    if r.number == 0 {
        [12, r.name_size]
    } else {
        [0, r.name_size]
    }
}

// Every number of a footer.
pub fn put_footer(answer: &mut [u64; 730], f: Footer)
    ensures { answer.new ≡ footer_places f }
{
    *answer = [0u64; 730];
    put_numbers(answer, f);
    let domain = f.domain;
    put_domain(answer, domain);
    put_list(answer, 26, &f.file_sizes);
    put_list(answer, 90, &f.file_var_sizes);
    put_list(answer, 154, &f.file_validity_sizes);
    put_list(answer, 218, &f.tile_offsets);
    put_list(answer, 282, &f.var_offsets);
    put_list(answer, 346, &f.var_sizes);
    put_list(answer, 410, &f.validity);
    put_list(answer, 474, &f.mins);
    put_list(answer, 538, &f.maxes);
    put_list(answer, 602, &f.sums);
    put_list(answer, 666, &f.null_counts);
}

fn put_numbers(answer: &mut [u64; 730], f: Footer)
    ensures { answer.new ≡ sets answer.old 0 (number_places f) }
{
    let numbers = [
        f.number,
        f.place,
        f.version,
        f.name_size,
        f.dense,
        f.null_domain,
        f.tiles,
        f.last_cells,
        f.timestamps,
        f.deletes,
        f.rtree,
        f.fragment,
        f.conditions,
        f.length,
    ];
    put(answer, 0, &numbers);
}

fn put_domain(answer: &mut [u64; 730], sides: [Side; 4])
    ensures { answer.new ≡ sets answer.old 14 (domain_places sides) }
{
    let first = range_places(sides[0]);
    let second = range_places(sides[1]);
    let third = range_places(sides[2]);
    let fourth = range_places(sides[3]);
    put(answer, 14, &first);
    put(answer, 17, &second);
    put(answer, 20, &third);
    put(answer, 23, &fourth);
}

fn put_list(answer: &mut [u64; 730], at: usize, list: &[u64; 64])
    requires { at + 64 ≤ 730 }
    ensures { (answer.new ≡ sets answer.old at list.now)
        × (length list.now ≡ 64) }
{
    put(answer, at, list);
}

fn put(answer: &mut [u64; 730], at: usize, list: &[u64])
    requires { at + length list.now ≤ 730 }
    ensures { answer.new ≡ sets answer.old at list.now }
{
    answer[at..at + list.len()].copy_from_slice(list);
}

// A range's Datatype number and the patterns of its ends.
fn range_places(side: Side) -> [u64; 3]
    ensures { result ≡ range_places side.range }
{
    let range = side.range;
    let ends = range.patterns();
    [range.kind().datatype(), ends.low, ends.high]
}
