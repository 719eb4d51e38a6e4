//! Random numbers from a seed, and the triangles and boxes that are made of them.
ghost use Rattle.std.specs.Prelude.{◌≡◌, ℕ, pos, ◌+◌, ◌*◌, ◌^◌, ◌≤◌, ◌+ℤ◌, ◌-ℤ◌};
ghost use Rattle.cull_base.specs.Bounds.{Bounded};
ghost use Rattle.demo_scene.specs.Demo.{state_after, draw, centre_x, centre_y, centre_z, half_side, IsNear};
ghost use Rattle.demo_scene.specs.Demo.{vertex_about, vertices_of, box_about, box_of};

use cull_base::Object;

const MULTIPLIER: u64 = 6_364_136_223_846_793_005;

const INCREMENT: u64 = 1_442_695_040_888_963_407;

/// A linear congruential generator of 64 bits.
#[derive(Drop)]
pub struct Generator {
    /// The seed, before the first draw.
    pub state: u64,
}

/// What the vertices of a triangle, or the sides of a box, stand about.
#[derive(Clone, Copy)]
pub struct Centre {
    pub x: i32,
    pub y: i32,
    pub z: i32,
}

impl Generator {
    /// The next draw: a number from 0 to before `end`. Condition: `end` is 1 to 65,536.
    #[tactic(auto, unfolding(crate::specs::Demo::state_after))]
    pub fn next(&mut self, end: u64) -> i32
        requires some { 1 ≤ end }
        requires few { end ≤ 2 ^ 16 }
        ensures value { result ≡ pos (draw self.old.state 0 end) }
        ensures state { self.new.state ≡ state_after self.old.state 1 }
    {
        self.state = self.state.wrapping_mul(MULTIPLIER).wrapping_add(INCREMENT);
        // The low bits of the state repeat soon.
        ((self.state >> 33) % end) as i32
    }

    // A draw of the numbers at most `spread` away from a middle.
    fn about(&mut self, middle: i32, spread: u16) -> i32
        requires middle { Bounded (2 ^ 15) middle }
        requires spread { spread ≤ 2 ^ 14 }
        ensures value { result ≡ (middle +ℤ pos (draw self.old.state 0 (2 * spread + 1))) -ℤ pos spread }
        ensures state { self.new.state ≡ state_after self.old.state 1 }
    {
        middle + self.next(2 * u64::from(spread) + 1) - i32::from(spread)
    }

    /// The next centre. It takes three draws.
    #[tactic(auto, using(crate::proofs::Draws::draws_after_draws))]
    pub fn centre(&mut self) -> Centre
        ensures x { result.x ≡ centre_x self.old.state 0 }
        ensures y { result.y ≡ centre_y self.old.state 0 }
        ensures z { result.z ≡ centre_z self.old.state 0 }
        ensures near { IsNear result }
        ensures state { self.new.state ≡ state_after self.old.state 3 }
    {
        let x = self.about(0, 8000);
        let y = self.about(0, 2000);
        let z = 200 + self.next(16_000);
        Centre { x, y, z }
    }

    #[tactic(auto, using(crate::proofs::Draws::draws_after_draws))]
    fn vertex(&mut self, centre: Centre) -> [i32; 3]
        requires { IsNear centre }
        ensures value { result ≡ vertex_about self.old.state 0 centre.x centre.y centre.z }
        ensures state { self.new.state ≡ state_after self.old.state 3 }
    {
        let x = self.about(centre.x, 400);
        let y = self.about(centre.y, 400);
        let z = self.about(centre.z, 100);
        [x, y, z]
    }

    /// x, y and z of the three vertices of the next triangle. It takes twelve draws.
    #[tactic(auto, using(crate::proofs::Draws::draws_after_draws))]
    pub fn triangle(&mut self) -> [[i32; 3]; 3]
        ensures value { result ≡ vertices_of self.old.state 0 }
        ensures state { self.new.state ≡ state_after self.old.state 12 }
    {
        let centre = self.centre();
        let first = self.vertex(centre);
        let second = self.vertex(centre);
        let third = self.vertex(centre);
        [first, second, third]
    }

    // Half of a side of a box.
    fn half_side(&mut self) -> i32
        ensures value { result ≡ half_side self.old.state 0 }
        ensures state { self.new.state ≡ state_after self.old.state 1 }
    {
        20 + self.next(200)
    }

    #[tactic(auto, using(crate::proofs::Draws::draws_after_draws))]
    fn block(&mut self, centre: Centre) -> Object
        requires { IsNear centre }
        ensures value { result ≡ box_about self.old.state 0 centre.x centre.y centre.z }
        ensures state { self.new.state ≡ state_after self.old.state 3 }
    {
        let Centre { x, y, z } = centre;
        let across = self.half_side();
        let up = self.half_side();
        let along = self.half_side();
        Object::Block {
            low: [x - across, y - up, z - along],
            high: [x + across, y + up, z + along],
        }
    }

    /// The next box. It takes six draws.
    #[tactic(auto, using(crate::proofs::Draws::draws_after_draws))]
    pub fn object(&mut self) -> Object
        ensures value { result ≡ box_of self.old.state 0 }
        ensures state { self.new.state ≡ state_after self.old.state 6 }
    {
        let centre = self.centre();
        self.block(centre)
    }
}
