// Grey levels: their duties (§5.8), and which of them are lit at each phase (§5.9).
ghost use Rattle.std.specs.Prelude.{◌≡◌, ◌<◌};
ghost use Rattle.stn.specs.Greys.{duty, lit};

// A fraction n / d: a level is lit in n of each d frames.
#[derive(Clone, Copy)]
pub struct Duty {
    pub n: u32,
    pub d: u32,
}

const DUTIES: [Duty; 16] = [
    Duty { n: 0, d: 1 },
    Duty { n: 1, d: 7 },
    Duty { n: 1, d: 5 },
    Duty { n: 1, d: 4 },
    Duty { n: 1, d: 3 },
    Duty { n: 2, d: 5 },
    Duty { n: 3, d: 7 },
    Duty { n: 1, d: 2 },
    Duty { n: 4, d: 7 },
    Duty { n: 3, d: 5 },
    Duty { n: 2, d: 3 },
    Duty { n: 5, d: 7 },
    Duty { n: 3, d: 4 },
    Duty { n: 4, d: 5 },
    Duty { n: 6, d: 7 },
    Duty { n: 1, d: 1 },
];

// The duty of a level (§5.8).
fn duty_of(level: usize) -> Duty
    requires { level < 16 }
    ensures { result ≡ duty level }
{
    DUTIES[level]
}

// Whether a level is lit at a phase (§5.9).
pub(crate) fn lit(level: usize, phase: u32) -> bool
    requires { (level < 16) × (phase < 427) }
    ensures { result ≡ lit (duty level) phase }
{
    let q = duty_of(level);
    phase * q.n % q.d < q.n
}
