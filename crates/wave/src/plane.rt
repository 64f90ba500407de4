// The plane wave: the baseline shifted by the pole, turned by the hour angle, and laid along the source. Document 01, 'Delay'.
ghost use Rattle.std.specs.Prelude.{◌≡◌, ◌≤◌};
ghost use Rattle.whole.specs.Whole.{∣◌∣};
ghost use Rattle.fields.specs.Ranges.{Holds, pole};
ghost use Rattle.wave.specs.PlaneWave.{shift_of, shifted_of, tick_of, turn_of, wave_of};
ghost use Rattle.wave.specs.Bounds.{Shifted};
ghost use Rattle.wave.specs.Values.{Short};

use sine::{cosine, sine};
use std::marker::Model;
use whole::divide::round_div;
use whole::long::{light_time, turned};

// Station 2 less station 1, in millimetres. Shifted by the pole it may be longer, so its bounds stand in clauses: `Short` before, `Shifted` after.
#[derive(Clone, Copy)]
pub struct Baseline {
    pub x: i64,
    pub y: i64,
    pub z: i64,
}

// The cosine and the sine of an angle.
#[derive(Clone, Copy)]
pub struct Turn {
    pub cos: i64,
    pub sin: i64,
}

impl Model for Turn {
    ghost use Rattle.wave.specs.Values.{CosSin, Turned};

    ghost Value = { CosSin };

    ghost view = { λ a. record { cos = a.cos; sin = a.sin } };

    ghost inverse = { λ t. record { cos = t.cos; sin = t.sin } };

    ghost invariant = { λ a. Turned (record { cos = a.cos; sin = a.sin }) };
}

// The pole shift of a length c by a pole coordinate p.
fn shift(c: i64, p: i64) -> i64
    requires { (∣ c ∣ ≤ 12_800_000_000) × Holds pole p }
    ensures { (result ≡ shift_of c p) × (∣ result ∣ ≤ 62057) }
{
    round_div(round_div(c * p, 1000000) * 4848137, 1000000000000)
}

// The baseline, shifted by the pole at x, y.
fn shifted(b: Baseline, x: i64, y: i64) -> Baseline
    requires { Short b × Holds pole x × Holds pole y }
    ensures { (result ≡ shifted_of b x y) × Shifted result }
{
    let zx = shift(b.z, x);
    let zy = shift(b.z, y);
    let xx = shift(b.x, x);
    let yy = shift(b.y, y);
    Baseline {
        x: b.x - zx,
        y: b.y + zy,
        z: b.z + xx - yy,
    }
}

// A tick that may be signed, read modulo 2^32.
pub fn tick(a: i64) -> u32
    ensures { result ≡ tick_of a }
{
    a.rem_euclid(4294967296) as u32
}

// The turn by a tick: its cosine and its sine.
pub fn turn_by(t: u32) -> Turn
    ensures { result ≡ turn_of t }
{
    Turn {
        cos: cosine(t),
        sin: sine(t),
    }
}

// The delay, in picoseconds, of a shifted baseline at hour angle h, along a declination of which d is the cosine and the sine.
fn wave(b: Baseline, h: u32, d: Turn) -> i64
    requires { Shifted b }
    ensures { result ≡ wave_of b h d }
{
    let t = turn_by(h);
    let p = turned(b.x, -b.y, t.cos, t.sin);
    let g = turned(p, b.z, d.cos, d.sin);
    light_time(-g)
}

// The delay of a baseline with the pole at x, y, at hour angle h, along that declination.
pub fn delay_at(b: Baseline, x: i64, y: i64, h: u32, d: Turn) -> i64
    requires { Short b × Holds pole x × Holds pole y }
    ensures { result ≡ wave_of (shifted_of b x y) h d }
{
    wave(shifted(b, x, y), h, d)
}
