//! Rounds of objects that are nested in each other.
ghost use Rattle.std.specs.Prelude.{◌≡◌, ◌<◌, ◌≤◌};
ghost use Rattle.small_pools.specs.Objects.{AreHeldIn};

use small_pools::Pools;
use span_lists::Spans;

const CLASSES: u32 = 37;

/// How deep the objects of a round stand in one another.
const DEPTH: u32 = 32;

/// What was drawn so far: the last number, and the sum of the classes.
#[derive(Clone, Copy)]
pub struct Drawn {
    number: u64,
    sum: u64,
}

impl Drawn {
    /// Before the first draw.
    pub fn new() -> Drawn {
        Drawn { number: 1, sum: 0 }
    }

    /// The last number.
    pub fn number(&self) -> u64 {
        self.number
    }

    /// The sum of the classes.
    pub fn sum(&self) -> u64 {
        self.sum
    }
}

/// Draws a class among so many, from a linear congruential sequence.
pub fn draw(drawn: Drawn, classes: u32) -> (u8, Drawn)
    requires some { 0 < classes }
    requires most { classes ≤ 37 }
    ensures { result.0 < 37 }
{
    let class = ((drawn.number >> 33) % u64::from(classes)) as u8;
    let next = Drawn {
        number: drawn
            .number
            .wrapping_mul(6_364_136_223_846_793_005)
            .wrapping_add(1_442_695_040_888_963_407),
        sum: drawn.sum.wrapping_add(u64::from(class)),
    };
    (class, next)
}

/// Takes an object, plays what is deeper, and puts the object back.
fn nest(pools: &mut Pools, spans: &mut Spans, drawn: Drawn, depth: u32) -> Drawn
    requires { AreHeldIn pools.old spans.old }
    ensures allocated { pools.new.allocated ≡ pools.old.allocated }
    ensures held { AreHeldIn pools.new spans.new }
{
    if depth == 0 {
        return drawn;
    }
    let (class, drawn) = draw(drawn, CLASSES);
    let Some(place) = pools.take(spans, class) else {
        return drawn;
    };
    let drawn = nest(pools, spans, drawn, depth - 1);
    pools.put(place);
    drawn
}

/// Plays so many rounds.
pub fn play(pools: &mut Pools, spans: &mut Spans, rounds: u32, drawn: Drawn) -> Drawn
    requires { AreHeldIn pools.old spans.old }
    ensures allocated { pools.new.allocated ≡ pools.old.allocated }
    ensures held { AreHeldIn pools.new spans.new }
{
    let mut drawn = drawn;
    for _ in 0..rounds {
        drawn = nest(pools, spans, drawn, DEPTH);
    }
    drawn
}
