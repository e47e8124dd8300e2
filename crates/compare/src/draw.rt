// Numbers at random: the one source of a case, and what is drawn from it.
ghost use Rattle.std.specs.Prelude.{◌≤◌, ◌<◌, ◌+◌, ◌-◌};

const MODULUS: u64 = 2_147_483_647;

const FACTOR: u64 = 48_271;

// A source, by its state.
#[derive(Drop)]
pub struct Source {
    state: u64,
    ghost in_range: { state < 2_147_483_647 },
}

impl Source {
    // The source of a case, three steps from its start.
    pub fn new(case: u32) -> Source {
        let state = 1 + (case as u64 * 7_919 + 12_345) % (MODULUS - 1);
        let mut source = Source { state };
        for _ in 0..3 {
            source.step();
        }
        source
    }

    // One step.
    fn step(&mut self) {
        self.state = self.state * FACTOR % MODULUS;
    }

    // One step, then a number below k; where k is 0 no step, and 0.
    pub fn draw(&mut self, k: u32) -> u32
        ensures { result ≤ k - 1 }
    {
        if k == 0 {
            return 0;
        }
        self.step();
        (self.state % k as u64) as u32
    }

    // A number from 1 to k, one more than is drawn.
    pub fn draw_from_one(&mut self, k: u32) -> u32
        ensures { result ≤ k - 1 + 1 }
    {
        1 + self.draw(k)
    }

    // A number from 0 to most.
    pub fn draw_to(&mut self, most: u32) -> u32 {
        if most < u32::MAX {
            self.draw(most + 1)
        } else {
            most
        }
    }
}
