// The round trips as theorems over every slice there is. A number of a slice fits its type, which only a function over the slice can tell:
// so each theorem is the promise of a function whose result nobody needs.
ghost use Rattle.std.specs.Prelude.{[], ◌∷◌};
ghost use Rattle.writer.specs.Round.{Longs, ReadBackAs, WrittenBackAs, ReadBack, WrittenBack};

use crate::Kinds;

// Each number of a slice fits 64 bits.
fn each_fits(zs: &[i64])
    ensures { Longs zs.now }
{
    for z in zs {
        let n = *z;
    }
}

// What `write_as` writes is read back: for any kinds, every four lists and every room.
pub fn reads_back_as(
    k: Kinds,
    stations: &[i64],
    sources: &[i64],
    days: &[i64],
    passes: &[i64],
    room: &[u8],
)
    ensures { ReadBackAs k (stations.now ∷ sources.now ∷ days.now ∷ passes.now ∷ []) room.now }
{
    each_fits(stations);
    each_fits(sources);
    each_fits(days);
    each_fits(passes);
}

// An accepted file is the one that `write_as` makes of its kinds and records: for every file.
pub fn writes_back_as(file: &[u8])
    ensures { WrittenBackAs file.now }
{}

// What `write` writes is read back: for any kind of days, every four lists and every room.
pub fn reads_back(
    day_kind: i64,
    stations: &[i64],
    sources: &[i64],
    days: &[i64],
    passes: &[i64],
    room: &[u8],
)
    ensures { ReadBack day_kind stations.now sources.now days.now passes.now room.now }
{
    each_fits(stations);
    each_fits(sources);
    each_fits(days);
    each_fits(passes);
}

// An accepted file is the one that `write` makes of its kind of days and its records: for every file.
pub fn writes_back(file: &[u8])
    ensures { WrittenBack file.now }
{}
