//! The near distance.
ghost use Rattle.std.specs.Prelude.{◌≤◌};

/// The near distance of a view. Condition: it is 1 to 1024.
#[derive(Clone, Copy)]
pub struct Near {
    pub distance: u16,
    pub ghost least: { 1 ≤ distance },
    pub ghost most: { distance ≤ 1024 },
}
