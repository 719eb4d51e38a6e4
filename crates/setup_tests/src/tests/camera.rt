//! Vertices through a camera, and at the guard.
use camera_path::{Camera, clip_all, identity_keeps, past_guard};
use cull_base::ClipVertex;

/// Halves x and moves it by 5.
const HALF_AND_FIVE: Camera = Camera([32768, 0, 0, 5, 0, 65536, 0, 0, 0, 0, 65536, 0]);

#[test]
fn the_guard_is_past_16384_near_distances(rt: HostRuntime) {
    for (x, y, w, near, past) in [
        (16384, -16384, 16384, 1, false),
        (16385, 0, 0, 1, true),
        (0, -16385, 0, 1, true),
        (0, 0, -16385, 1, true),
        (-32768, 32768, 1, 2, false),
        (-32769, 0, 1, 2, true),
        (0, 16777217, 1, 1024, true),
    ] {
        assert_eq!(rt; past_guard(&ClipVertex { x, y, w }, near), past);
    }
}

#[test]
fn the_law_on_the_identity_is_called(rt: HostRuntime) {
    identity_keeps();
}

#[test]
fn halves_are_rounded_down_in_order(rt: HostRuntime) {
    let vertices = [[3, 7, 9], [-3, 7, 9]];
    let clips = clip_all(&rt, rt.alloc(), &HALF_AND_FIVE, &vertices).expect(&rt, "memory");
    let first = ClipVertex { x: 6, y: 7, w: 9 };
    let second = ClipVertex { x: 3, y: 7, w: 9 };
    assert_eq!(rt; clips.as_slice(), [first, second].as_slice());
    assert_eq!(rt; HALF_AND_FIVE.clip(&vertices[1]), second);
}

#[test]
fn the_greatest_numbers_fit(rt: HostRuntime) {
    let most = 16_777_216;
    let clip = Camera([most; 12]).clip(&[most, most, most]);
    // three times 2^48 over 2^16, and 2^24
    assert_eq!(rt; clip.x, 12_901_679_104);
    let clip = Camera([-most; 12]).clip(&[most, most, most]);
    assert_eq!(rt; clip.w, -12_901_679_104);
}

#[test]
fn many_vertices_keep_their_order(rt: HostRuntime) {
    let vertices = vec![in rt.alloc(); [3, 7, 9]; 40_000].expect(&rt, "memory");
    let mut vertices = vertices;
    vertices[0] = [-3, 0, 0];
    vertices[39_999] = [5, 1, 2];
    let clips = clip_all(&rt, rt.alloc(), &HALF_AND_FIVE, vertices.as_slice()).expect(
        &rt, "memory",
    );
    assert_eq!(rt; clips.len(), 40_000);
    assert_eq!(rt; clips[0], ClipVertex { x: 3, y: 0, w: 0 });
    assert_eq!(rt; clips[20_000], ClipVertex { x: 6, y: 7, w: 9 });
    assert_eq!(rt; clips[39_999], ClipVertex { x: 7, y: 1, w: 2 });
}
