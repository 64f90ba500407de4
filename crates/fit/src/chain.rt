// The chain of the samples that can still set the least rate of a run. See specs/Chains.antt.
ghost use Rattle.std.specs.Prelude.{◌≡◌, ◌+◌, ◌-◌, ◌<◌, ◌≤◌, get_or};

// The samples from `head` to `tail` are on the chain, each by its place in the run, its tilted value, and the rate from which it is better than the one before it;
// the rest is scratch: there is no heap, and so no `VecDeque`. Each of the three has an array of its own, since a struct of the three would take four bytes more.
// A place has 32 bits, so that it is divided by as a number of 32 bits. The loops below work out a rate at each sample and stop at the first that decides, `keep`
// from the tail on: a `for` would be no plainer. `Safe` is of a chain and of the sample that comes next, with a slack of its own for each use: it stays a clause.
#[derive(Drop)]
pub struct Chain {
    places: [u32; 1024],
    values: [u64; 1024],
    froms: [u64; 1024],
    head: usize,
    tail: usize,
    ghost some: { head ≤ tail },
    ghost few: { tail < 1024 },
}

impl Chain {
    ghost use Rattle.fit.specs.Rates.{tilt};
    ghost use Rattle.fit.specs.Chains.{Safe, left_at, Paired, Asked, Keeping, Added};

    // Scratch, which `pair` makes a chain.
    pub const SCRATCH: Chain = Chain {
        places: [0; 1024],
        values: [0; 1024],
        froms: [0; 1024],
        head: 0,
        tail: 0,
    };

    // The least rate that the sample `next` leaves with the one at i; `top` is one below its tilted value less twice the tolerance.
    fn left_at(&self, i: usize, next: u32, top: u64) -> u64
        requires { (i < 1024) × (get_or self.now.places i 0 < next) × (get_or self.now.values i 0 ≤ top) }
        ensures { result ≡ left_at self.now.places self.now.values i next top }
    {
        (top - self.values[i]) / ((next - self.places[i]) as u64)
    }

    // Makes it the chain of the first two samples, of which `first` and `second` are the tilted values, and answers the least rate that they leave.
    pub(crate) fn pair(&mut self, first: u64, second: u64, slack: u64) -> u64
        requires { first + slack < second }
        ensures { Paired tilt self.new.places self.new.values self.new.froms first second slack result × (self.new.head ≡ 0) × (self.new.tail ≡ 1) }
    {
        let from = second - first - 1;
        self.places[0] = 0;
        self.places[1] = 1;
        self.values[0] = first;
        self.values[1] = second;
        self.froms[1] = from;
        self.head = 0;
        self.tail = 1;
        from - slack
    }

    // The least rate from `least` on that the sample `next` leaves with each sample before it. The samples that can no longer set it leave at the head.
    pub(crate) fn ask(&mut self, next: u32, height: u64, slack: u64, least: u64) -> u64
        requires { Safe self.old.places self.old.values self.old.head self.old.tail next height slack }
        ensures { ((self.new.places ≡ self.old.places) × (self.new.values ≡ self.old.values) × (self.new.froms ≡ self.old.froms)) × (self.new.tail ≡ self.old.tail) × (self.old.head ≤ self.new.head) × Asked tilt self.old.places self.old.values self.old.froms self.old.head self.old.tail next height slack least self.new.head result }
    {
        let top = height - slack - 1;
        let mut i = self.head;
        let mut p = least.max(self.left_at(i, next, top));
        while i < self.tail && self.froms[i + 1] <= p {
            i += 1;
            p = p.max(self.left_at(i, next, top));
        }
        self.head = i;
        p
    }

    // The samples that `next` makes needless leave at the tail; answers the rate from which `next` is better than the last that stays.
    fn keep(&mut self, next: u32, height: u64) -> u64
        requires { Safe self.old.places self.old.values self.old.head self.old.tail next height 0 }
        ensures { ((self.new.places ≡ self.old.places) × (self.new.values ≡ self.old.values) × (self.new.froms ≡ self.old.froms)) × (self.new.head ≡ self.old.head) × (self.new.tail ≤ self.old.tail) × (self.old.head < self.new.tail → get_or self.old.froms self.new.tail 0 ≤ result) × Keeping tilt self.old.places self.old.values self.old.froms self.old.head self.old.tail next height self.new.tail result }
    {
        let top = height - 1;
        let mut i = self.tail;
        let mut p = self.left_at(i, next, top);
        while self.head < i && p <= self.froms[i] {
            i -= 1;
            p = self.left_at(i, next, top);
        }
        self.tail = i;
        p
    }

    // Puts the sample `next` behind the chain.
    pub(crate) fn add(&mut self, next: u32, height: u64)
        requires safe { Safe self.old.places self.old.values self.old.head self.old.tail next height 0 }
        requires room { self.old.tail < 1023 }
        ensures { (self.new.head ≡ self.old.head) × (self.new.tail ≤ self.old.tail + 1) × Added tilt self.old.places self.old.values self.old.froms self.old.head self.old.tail next height self.new.places self.new.values self.new.froms self.new.tail }
    {
        let from = self.keep(next, height);
        let i = self.tail + 1;
        self.places[i] = next;
        self.values[i] = height;
        self.froms[i] = from;
        self.tail = i;
    }
}
