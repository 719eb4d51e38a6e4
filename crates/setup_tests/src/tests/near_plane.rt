//! Polygons worked by hand.
ghost use Rattle.std.specs.Prelude.{◌≡◌, false};
ghost use Rattle.cull_base.specs.Guard.{is_past_guard};

use cull_base::ClipVertex;
use near_clip::{HomPoint, Polygon, clip_near};

fn vertex(x: i8, y: i8, w: i8) -> ClipVertex
    ensures { is_past_guard result 2 ≡ false }
{
    ClipVertex {
        x: i64::from(x),
        y: i64::from(y),
        w: i64::from(w),
    }
}

fn point(x: i64, y: i64, w: i64, scale: i64) -> HomPoint {
    HomPoint { x, y, w, scale }
}

const A: [i8; 3] = [0, 0, 6];

const B: [i8; 3] = [0, 4, 6];

const C: [i8; 3] = [4, 0, 0];

fn polygon_of(v0: [i8; 3], v1: [i8; 3], v2: [i8; 3]) -> Polygon {
    clip_near(
        &[
            vertex(v0[0], v0[1], v0[2]),
            vertex(v1[0], v1[1], v1[2]),
            vertex(v2[0], v2[1], v2[2]),
        ],
        2,
    )
}

#[test]
fn one_vertex_behind_leaves_four_points(rt: HostRuntime) {
    let whole_a = point(0, 0, 6, 1);
    let whole_b = point(0, 4, 6, 1);
    let cut_b = point(16, 8, 12, 6);
    let cut_a = point(16, 0, 12, 6);
    for (tri, points) in [
        ([A, B, C], [whole_a, whole_b, cut_b, cut_a]),
        ([B, C, A], [whole_b, cut_b, cut_a, whole_a]),
        ([C, A, B], [cut_a, whole_a, whole_b, cut_b]),
    ] {
        let polygon = polygon_of(tri[0], tri[1], tri[2]);
        assert_eq!(rt; polygon.len(), 4);
        assert_eq!(rt;
            [
                polygon.get(0),
                polygon.get(1),
                polygon.get(2),
                polygon.get(3)
            ],
            points
        );
    }
}

#[test]
fn two_vertices_behind_leave_three_points(rt: HostRuntime) {
    let inside = point(4, 0, 6, 1);
    let first = point(8, 0, 12, 6);
    let second = point(8, 16, 12, 6);
    for (tri, points) in [
        ([[0, 0, 0], [0, 4, 0], [4, 0, 6]], [first, second, inside]),
        ([[4, 0, 6], [0, 0, 0], [0, 4, 0]], [inside, first, second]),
        ([[0, 4, 0], [4, 0, 6], [0, 0, 0]], [second, inside, first]),
    ] {
        let polygon = polygon_of(tri[0], tri[1], tri[2]);
        assert_eq!(rt; polygon.len(), 3);
        assert_eq!(rt; [polygon.get(0), polygon.get(1), polygon.get(2)], points);
    }
}

#[test]
fn all_behind_leaves_nothing(rt: HostRuntime) {
    assert_eq!(rt; polygon_of([0, 0, 0], [0, 4, 0], [4, 0, 0]).len(), 0);
}

#[test]
fn on_the_plane_is_in_front(rt: HostRuntime) {
    let polygon = polygon_of([0, 0, 2], [0, 4, 2], [4, 0, 2]);
    assert_eq!(rt; polygon.len(), 3);
    assert_eq!(rt; polygon.get(2), point(4, 0, 2, 1));
}
