//! The numbers that a job is made of.
ghost use Rattle.std.specs.Prelude.{◌≡◌, ◌+◌, ◌<◌, ◌≤◌};
ghost use Rattle.demo.specs.Generator.{drawn, next, state_behind, times_of, degree_by};

/// Numbers that are drawn one after the other from a state of 64 bits, by a linear congruential
/// generator.
#[derive(Clone, Copy, Debug)]
pub(crate) struct Draws {
    pub state: u64,
}

impl Draws {
    /// The next number, below the bound.
    pub fn below(&mut self, bound: u64) -> u64
        requires { 0 < bound }
        ensures state { self.new.state ≡ next self.old.state }
        ensures drawn { result ≡ drawn self.new.state bound }
        ensures below { result < bound }
    {
        self.state = self
            .state
            .wrapping_mul(6_364_136_223_846_793_005)
            .wrapping_add(1_442_695_040_888_963_407);
        (self.state >> 33) % bound
    }

    /// The multiplicity of a root, 1 or 2.
    fn times(&mut self) -> u32
        ensures state { self.new.state ≡ next self.old.state }
        ensures times { result ≡ 1 + drawn self.new.state 2 }
        ensures few { result ≤ 2 }
    {
        1 + self.below(2) as u32
    }
}

/// The multiplicities of the roots 0, 1, 2 and 3, each 1 or 2.
#[derive(Clone, Copy, Debug)]
pub(crate) struct Multiplicities {
    pub first: u32,
    pub second: u32,
    pub third: u32,
    pub fourth: u32,
    pub ghost first_few: { first ≤ 2 },
    pub ghost second_few: { second ≤ 2 },
    pub ghost third_few: { third ≤ 2 },
    pub ghost fourth_few: { fourth ≤ 2 },
}

impl Multiplicities {
    /// The first four draws.
    #[tactic(auto, unfolding(crate::specs::Generator::state_behind))]
    pub fn draw(draws: &mut Draws) -> Multiplicities
        ensures state { draws.new.state ≡ state_behind draws.old.state 4 }
        ensures first { result.first ≡ times_of draws.old.state 0 }
        ensures second { result.second ≡ times_of draws.old.state 1 }
        ensures third { result.third ≡ times_of draws.old.state 2 }
        ensures fourth { result.fourth ≡ times_of draws.old.state 3 }
    {
        let first = draws.times();
        let second = draws.times();
        let third = draws.times();
        let fourth = draws.times();
        Multiplicities {
            first,
            second,
            third,
            fourth,
        }
    }

    /// Their sum, the degree in Y.
    pub fn sum(self) -> u32
        ensures sum { result ≡ degree_by self.first self.second self.third self.fourth }
        ensures few { result ≤ 8 }
    {
        self.first + self.second + self.third + self.fourth
    }
}
