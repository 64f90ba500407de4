// The host record of one prediction. No `From`, since it asks for a range in which the products are exact.
ghost use Rattle.std.specs.Prelude.{◌≡◌, ◌≤◌};
ghost use Rattle.whole.specs.Whole.{∣◌∣};
ghost use Rattle.predict.specs.Host.{record_of_rule};

use super::Record;

pub fn record_of(ps: i64) -> Record
    requires { ∣ ps ∣ ≤ 131_000_000_000 }
    ensures { result ≡ record_of_rule ps }
{
    Record {
        seconds: (ps as f64) / 1000000000000.0,
        cycles: ((ps * 32) as f64) / 1000000.0,
    }
}
