// The four lists of numbers: whether they are right counts of whole records, and the contents table that they have.
ghost use Rattle.std.specs.Prelude.{◌≡◌, true, ◌/◌, ◌<◌};
ghost use Rattle.sections.specs.Layouts.{places};
ghost use Rattle.writer.specs.Writing.{size_in, list_right_rule, lists_right_rule, others_right_rule, contents_for_rule};
ghost use Rattle.writer.specs.Lists.{of_lists};

use crate::Kinds;
use sections::layouts::layout_in;

// A list for each place, and the kinds that the places are to have.
#[derive(Clone, Copy)]
pub struct Lists<'a> {
    pub kinds: Kinds,
    pub stations: &'a [i64],
    pub sources: &'a [i64],
    pub days: &'a [i64],
    pub passes: &'a [i64],
}

// Whether n numbers are a right count of whole records of a kind in a place.
fn list_right(place: usize, kind: usize, n: usize) -> bool
    ensures { result ≡ list_right_rule places place kind n }
{
    let l = layout_in(place, kind);
    if l.size == 0 {
        return false;
    }
    let count = n / l.size;
    l.size * count == n && (l.fewest..=l.most).contains(&count)
}

#[tactic(auto, unfolding(crate::specs::Writing::lists_right_rule, whole::specs::Each::all_below))]
pub fn lists_right(l: Lists<'_>) -> bool
    ensures { result ≡ lists_right_rule places l.entry.kinds (of_lists l.entry) }
{
    list_right(0, l.kinds.first, l.stations.len())
        && list_right(1, l.kinds.second, l.sources.len())
        && list_right(2, l.kinds.third, l.days.len())
        && list_right(3, l.kinds.fourth, l.passes.len())
}

// Whether the stations, the sources and the passes are right counts of whole records.
#[tactic(auto, unfolding(crate::specs::Writing::others_right_rule))]
pub fn others_right(l: Lists<'_>) -> bool
    ensures { result ≡ others_right_rule l.entry.stations.now l.entry.sources.now l.entry.passes.now }
{
    list_right(0, 1, l.stations.len())
        && list_right(1, 2, l.sources.len())
        && list_right(3, 4, l.passes.len())
}

// How many records n numbers are.
fn count_in(place: usize, kind: usize, n: usize) -> u64
    requires { 0 < size_in places place kind }
    ensures { result ≡ n / size_in places place kind }
{
    (n / layout_in(place, kind).size) as u64
}

// The contents table of a file of these lists.
pub fn contents_for(l: Lists<'_>) -> [u64; 13]
    requires { lists_right_rule places l.kinds (of_lists l) ≡ true }
    ensures { result ≡ contents_for_rule places l.entry.kinds (of_lists l.entry) }
{
    let k = l.kinds;
    let n1 = count_in(0, k.first, l.stations.len());
    let n2 = count_in(1, k.second, l.sources.len());
    let n3 = count_in(2, k.third, l.days.len());
    let n4 = count_in(3, k.fourth, l.passes.len());
    let s2 = 104 + 8 * l.stations.len();
    let s3 = s2 + 8 * l.sources.len();
    let s4 = s3 + 8 * l.days.len();
    [
        4,
        k.first as u64,
        104,
        n1,
        k.second as u64,
        s2 as u64,
        n2,
        k.third as u64,
        s3 as u64,
        n3,
        k.fourth as u64,
        s4 as u64,
        n4,
    ]
}
