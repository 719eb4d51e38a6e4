//! The coverage masks of a frame's pieces, beside a plain loop over the samples.
ghost use Rattle.std.specs.Prelude.{◌<◌};

use cull_base::{ClipVertex, FrameList, Memory, ScreenTri, Side, Sub};
use cull_report::{clip_frame, pieces_of};
use demo_scene::demo_scene;
use edge_lanes::Edges;
use std::alloc::Global;
use std::process::Abort;
use std::sync::Wait;
use std::test::*;
use std::thread::Threads;

const PIECES: u32 = 200;

// The screen's subtiles.
const COLUMNS: u16 = 160;

const ROWS: u16 = 180;

// The pieces that a small scene of a seed has in its first frame.
fn first_pieces<R: Threads + Wait + Sync>(rt: &R, alloc: Global) -> Result<FrameList, Memory> {
    let scene = demo_scene(alloc, 1, 100)?;
    let nowhere = ClipVertex { x: 0, y: 0, w: 0 };
    let mut clips = vec![in alloc; nowhere; scene.vertices().len()].map_err(|_| Memory)?;
    let frames = scene.cameras().len();
    prove!(0 < frames);
    clip_frame(rt, &scene, 0, &mut clips);
    pieces_of(rt, alloc, &scene, 0, &clips, 1)
}

// Whether an edge of a piece, from one of its vertices to the next, has the sample at a place on its inner side.
fn is_inside(tri: &ScreenTri, from: usize, to: usize, x: i64, y: i64) -> bool
    requires from { from < 3 }
    requires to { to < 3 }
{
    let (xs, ys) = (tri.x(), tri.y());
    let across = i64::from(xs[to]) - i64::from(xs[from]);
    let down = i64::from(ys[to]) - i64::from(ys[from]);
    let right_of = x.wrapping_sub(i64::from(xs[from]));
    let below = y.wrapping_sub(i64::from(ys[from]));
    let value = across
        .wrapping_mul(below)
        .wrapping_sub(down.wrapping_mul(right_of));
    value > 0 || (value == 0 && (down < 0 || (down == 0 && across > 0)))
}

fn mask_by_samples(tri: &ScreenTri, sub: Sub) -> u32 {
    let mut mask = 0;
    for sample in 0..32u32 {
        let x = 128 * i64::from(sub.column) + 16 * i64::from(sample % 8) + 8;
        let y = 64 * i64::from(sub.row) + 16 * i64::from(sample / 8) + 8;
        if is_inside(tri, 0, 1, x, y) && is_inside(tri, 1, 2, x, y) && is_inside(tri, 2, 0, x, y) {
            mask |= 1 << sample;
        }
    }
    mask
}

// At each subtile of the screen whose number, row by row, is a multiple of 7.
fn assert_masks<R: Abort>(rt: &R, tri: &ScreenTri) {
    let edges = Edges::of(tri, Side::Occluder);
    for seventh in 0..(COLUMNS * ROWS).div_ceil(7) {
        let number = 7 * seventh;
        let sub = Sub {
            column: number % COLUMNS,
            row: number / COLUMNS,
        };
        assert_eq!(rt; edges.mask(sub), mask_by_samples(tri, sub));
    }
}

#[test]
fn masks_have_the_samples_inside_all_edges(rt: HostRuntime) -> Result<(), Fail> {
    let list = first_pieces(&rt, rt.alloc())?;
    assert_eq!(rt; list.len(), 100);
    for i in 0..list.len().min(PIECES) {
        assert_masks(&rt, list.get(i));
    }
    Ok(())
}
