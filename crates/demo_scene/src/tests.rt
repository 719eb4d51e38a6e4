//! The generator beside draws worked out by hand.
use crate::generator::Generator;
use std::test::*;

#[test]
fn the_first_draws_of_seed_0(rt: HostRuntime) -> Result<(), Fail> {
    let mut generator = Generator { state: 0 };
    assert_eq!(rt; generator.next(16_001), 5311);
    assert_eq!(rt; generator.state, 1_442_695_040_888_963_407);
    assert_eq!(rt; generator.state >> 33, 167_951_807);
    let mut again = Generator { state: 0 };
    assert_eq!(rt; again.centre().x, -2689);
    Ok(())
}
