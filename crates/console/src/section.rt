// The sections of a session file in words, on standard error. Their names and those of their fields, and the fields' units, stand here alone.
ghost use Rattle.std.specs.Prelude.{◌≡◌, ◌<◌};
ghost use Rattle.console.specs.Sections.{section_of_kind, section_in};

use crate::say::say;

#[derive(Clone, Copy, Debug, PartialEq, Eq)]
pub enum Section {
    Stations,
    Sources,
    Days,
    Passes,
}

// A field of a section's records: its name, and its unit, if it has one.
#[derive(Clone, Copy)]
struct Field {
    name: &'static str,
    unit: Option<&'static str>,
}

// A further field is a further entry in one of these.
static STATION: [Field; 4] = [
    Field {
        name: "id",
        unit: None,
    },
    Field {
        name: "X",
        unit: Some("mm"),
    },
    Field {
        name: "Y",
        unit: Some("mm"),
    },
    Field {
        name: "Z",
        unit: Some("mm"),
    },
];

static SOURCE: [Field; 3] = [
    Field {
        name: "id",
        unit: None,
    },
    Field {
        name: "right ascension",
        unit: Some("ticks"),
    },
    Field {
        name: "declination",
        unit: Some("ticks"),
    },
];

// Of kind 3 nobody asks for the mark.
static DAY: [Field; 6] = [
    Field {
        name: "MJD",
        unit: None,
    },
    Field {
        name: "x",
        unit: Some("microarcseconds"),
    },
    Field {
        name: "y",
        unit: Some("microarcseconds"),
    },
    Field {
        name: "UT1-UTC",
        unit: Some("ns"),
    },
    Field {
        name: "TAI-UTC",
        unit: Some("s"),
    },
    Field {
        name: "mark",
        unit: None,
    },
];

static PASS: [Field; 8] = [
    Field {
        name: "station 1",
        unit: None,
    },
    Field {
        name: "station 2",
        unit: None,
    },
    Field {
        name: "source",
        unit: None,
    },
    Field {
        name: "MJD",
        unit: None,
    },
    Field {
        name: "u",
        unit: Some("ms"),
    },
    Field {
        name: "step",
        unit: Some("ms"),
    },
    Field {
        name: "samples",
        unit: None,
    },
    Field {
        name: "tolerance",
        unit: Some("ps"),
    },
];

// The section of a kind of records. Days have kind 3 or 5. Total, as `section_of_kind` is: no other kind is asked for, so a `TryFrom` would have an Err that
// nobody meets.
impl From<i64> for Section {
    ghost from_gives = { λ kind s. s ≡ section_of_kind kind };

    fn from(kind: i64) -> Section {
        match kind {
            1 => Section::Stations,
            2 => Section::Sources,
            4 => Section::Passes,
            _ => Section::Days,
        }
    }
}

impl Section {
    // The section in a place.
    pub fn at(place: usize) -> Section
        requires { place < 4 }
        ensures { result ≡ section_in place }
    {
        match place {
            0 => Section::Stations,
            1 => Section::Sources,
            2 => Section::Days,
            _ => Section::Passes,
        }
    }

    fn fields(self) -> &'static [Field] {
        match self {
            Section::Stations => &STATION,
            Section::Sources => &SOURCE,
            Section::Days => &DAY,
            Section::Passes => &PASS,
        }
    }

    pub fn say_name(self) {
        say(match self {
            Section::Stations => b"stations",
            Section::Sources => b"sources",
            Section::Days => b"days",
            Section::Passes => b"passes",
        });
    }

    // The name of field k.
    pub fn say_field(self, k: usize) {
        if let Some(field) = self.fields().get(k) {
            say(field.name.as_bytes());
        }
    }

    // Its unit, if it has one.
    pub fn say_unit(self, k: usize) {
        if let Some(
            Field {
                unit: Some(unit),
                ..
            },
        ) = self.fields().get(k)
        {
            say(b"; the unit is ");
            say(unit.as_bytes());
        }
    }
}
