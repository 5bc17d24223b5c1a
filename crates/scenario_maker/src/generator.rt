//! The generator of numbers.

ghost use Rattle.std.specs.Prelude.{◌≡◌, ◌≤◌, ◌<◌};
ghost use Rattle.scenario_maker.specs.Generator.{next, draw_below as draw_lem};

const MULTIPLIER: u64 = 6_364_136_223_846_793_005;

const INCREMENT: u64 = 1_442_695_040_888_963_407;

/// A linear congruential generator of 64 bits.
#[derive(Drop)]
pub struct Generator {
    pub state: u64,
}

fn stepped(state: u64) -> u64
    ensures { result ≡ next state }
{
    state.wrapping_mul(MULTIPLIER).wrapping_add(INCREMENT)
}

impl Generator {
    /// A number below `bound`, after a step. It leaves out the lowest bits of the state, which repeat soon.
    pub fn draw_below(&mut self, bound: u8) -> u8
        requires { 1 ≤ bound }
        ensures drawn { result ≡ draw_lem bound self.old.state }
        ensures state { self.new.state ≡ next self.old.state }
        ensures below { result < bound }
    {
        let after = stepped(self.state);
        let drawn = (after >> 33) % u64::from(bound);
        self.state = after;
        drawn as u8
    }
}
