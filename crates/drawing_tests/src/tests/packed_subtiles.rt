//! Packed subtiles, written out.
use masked_update::SubTile;
use std::test::Fail;

#[test]
fn packed_subtile_has_its_layers_and_its_mask(rt: HostRuntime) -> Result<(), Fail> {
    let mut subtile = SubTile::empty();
    assert_eq!(rt; subtile.pack(), (0, 0));
    subtile.merge(100, 0x0F0F_0F0F);
    assert_eq!(rt; subtile.pack(), (0x6400_0000, 0x0F0F_0F0F));
    let back = SubTile::unpack(0x6400_0000, 0x0F0F_0F0F).ok_or("a subtile")?;
    assert_eq!(rt; back.reference(), 0);
    assert_eq!(rt; back.working(), 100);
    assert_eq!(rt; back.mask(), 0x0F0F_0F0F);
    Ok(())
}

#[test]
fn depths_of_24_bits_are_packed_side_by_side(rt: HostRuntime) {
    let mut subtile = SubTile::empty();
    subtile.merge(16_777_214, 0xFFFF_FFFF);
    subtile.merge(16_777_215, 1);
    assert_eq!(rt; subtile.pack(), (0xFFFF_FFFF_FFFE, 1));
}

#[test]
fn numbers_that_no_subtile_packs_to_are_refused(rt: HostRuntime) {
    let working_below_reference = (0x0500_0007, 1);
    let working_of_no_sample = (0x0500_0000, 0);
    let full_mask = (0x6400_0000, 0xFFFF_FFFF);
    let bit_48 = (0x0001_0000_0000_0000, 0);
    for (layers, mask) in [
        working_below_reference,
        working_of_no_sample,
        full_mask,
        bit_48,
    ] {
        assert!(rt; SubTile::unpack(layers, mask).is_none());
    }
}
