//! The boxes of a group at once, by a box around them: where all that a camera may see in it lies in the screen and is
//! hidden, each of the boxes is occluded, and none is put through the camera.
ghost use Rattle.std.specs.Prelude.{◌≡◌, ℕ, ℤ, List, ◌+◌, ◌<◌, ◌≤◌, ◌^◌, true, length, slice_index_or};
ghost use Rattle.std.specs.Prelude.{IfSome};
ghost use Rattle.cull_base.specs.declared.scene_types.Object.{Object};
ghost use Rattle.cull_base.specs.declared.scene_types.Verdict.TheVariants.{Occluded};
ghost use Rattle.camera_path.specs.Clip.{AreWithin, clip_of, number};
ghost use Rattle.cull_report.specs.Scene.{size_of, verdict_in};
ghost use Rattle.group_query.specs.Around.{AreBoxesInside, IsAnswerAround, IsInside, IsInReach};
ghost use Rattle.group_query.specs.Around.{is_in_screen, outer_corners, pick, picked, spread};
ghost use Rattle.group_query.specs.Hidden.{group_tally};
ghost use Rattle.masked_update.specs.Views.{state_in};
ghost use Rattle.scene_reader.specs.Layout.{IsRow};

use crate::grouping::Group;
use crate::tested::is_occluded;
use camera_path::Camera;
use cull_base::{ClipVertex, Object, Rect, Size};
use cull_report::Asked;
use masked_update::TileView;
use rect_query::{BoxAnswer, box_rect_for_others, rect_test};
use scene_reader::Scene;

/// The numbers of a scene lie at most so far from 0.
const MOST: i32 = 0x100_0000;

/// The least and the greatest of some numbers.
#[derive(Clone, Copy)]
pub(crate) struct Limits {
    pub(crate) least: i64,
    pub(crate) greatest: i64,
}

/// The least and the greatest of each clip coordinate of the points of a box.
#[derive(Clone, Copy)]
pub(crate) struct Reach {
    pub(crate) x: Limits,
    pub(crate) y: Limits,
    pub(crate) w: Limits,
}

/// A box in space.
#[derive(Clone, Copy)]
pub(crate) struct Around {
    pub(crate) low: [i32; 3],
    pub(crate) high: [i32; 3],
}

impl Around {
    // Around no box: the corners of any box replace these.
    fn nothing() -> Around
        ensures low { AreWithin (2 ^ 24) result.low }
        ensures high { AreWithin (2 ^ 24) result.high }
    {
        Around {
            low: [MOST; 3],
            high: [-MOST; 3],
        }
    }

    // Around one box more.
    #[inline(always)]
    fn with(&self, low: &[i32; 3], high: &[i32; 3]) -> Around
        requires low { AreWithin (2 ^ 24) self.now.low }
        requires high { AreWithin (2 ^ 24) self.now.high }
        requires own_low { IsRow 3 low.now }
        requires own_high { IsRow 3 high.now }
        ensures value { result ≡ spread self.now low.now high.now }
        ensures low { AreWithin (2 ^ 24) result.low }
        ensures high { AreWithin (2 ^ 24) result.high }
    {
        let (a, b) = (&self.low, &self.high);
        Around {
            low: [a[0].min(low[0]), a[1].min(low[1]), a[2].min(low[2])],
            high: [b[0].max(high[0]), b[1].max(high[1]), b[2].max(high[2])],
        }
    }

    // Around the boxes of a group. None where an object of it is no box. Condition: there are these objects.
    fn of_group(scene: &Scene, group: Group) -> Option<Around>
        requires { group.first + group.count ≤ length scene.now.objects }
        ensures low { IfSome result (λ a. AreWithin (2 ^ 24) a.low) }
        ensures high { IfSome result (λ a. AreWithin (2 ^ 24) a.high) }
        ensures boxes { IfSome result (λ a. AreBoxesInside a scene.now.objects group.first group.count) }
    {
        // it tells what is held of a scene: its objects' numbers are small
        let _near = scene.near();
        let objects = scene.objects();
        let mut around = Around::nothing();
        for k in 0..group.count {
            match &objects[(group.first + k) as usize] {
                Object::Block { low, high } => around = around.with(low, high),
                Object::Area { .. } | Object::Mesh { .. } => return None,
            }
        }
        Some(around)
    }
}

// Where a factor isn't negative the first of two numbers, else the second.
#[inline(always)]
fn pick(factor: i32, first: i32, second: i32) -> i32
    ensures { result ≡ pick factor first second }
{
    if factor < 0 { second } else { first }
}

// The corner of a box at which a row of a camera is least, or greatest where its corners are given in exchange.
#[inline(always)]
fn picked(camera: &Camera, r: usize, low: &[i32; 3], high: &[i32; 3]) -> [i32; 3]
    requires row { r + 4 ≤ 12 }
    requires camera { AreWithin (2 ^ 24) camera.now.0 }
    requires low { AreWithin (2 ^ 24) low.now }
    requires high { AreWithin (2 ^ 24) high.now }
    ensures value { result ≡ picked camera.now.0 r low.now high.now }
    ensures within { AreWithin (2 ^ 24) result }
{
    let row = &camera.0;
    [
        pick(row[r], low[0], high[0]),
        pick(row[r + 1], low[1], high[1]),
        pick(row[r + 2], low[2], high[2]),
    ]
}

#[inline(always)]
fn vertex(x: i64, y: i64, w: i64) -> ClipVertex
    ensures { result ≡ record { x = x; y = y; w = w } }
{
    ClipVertex { x, y, w }
}

impl Reach {
    // How far all points of a box reach, as a camera sees them. Conditions: the camera's numbers and the box's are at
    // most 2^24 away from 0.
    #[inline(always)]
    fn of(camera: &Camera, around: &Around) -> Reach
        requires camera { AreWithin (2 ^ 24) camera.now.0 }
        requires low { AreWithin (2 ^ 24) around.now.low }
        requires high { AreWithin (2 ^ 24) around.now.high }
        ensures { (v : List ℤ) → IsInside around.now.low around.now.high v → IsInReach result (clip_of camera.now.0 v) }
    {
        let (low, high) = (&around.low, &around.high);
        Reach {
            x: Limits {
                least: camera.clip(&picked(camera, 0, low, high)).x,
                greatest: camera.clip(&picked(camera, 0, high, low)).x,
            },
            y: Limits {
                least: camera.clip(&picked(camera, 4, low, high)).y,
                greatest: camera.clip(&picked(camera, 4, high, low)).y,
            },
            w: Limits {
                least: camera.clip(&picked(camera, 8, low, high)).w,
                greatest: camera.clip(&picked(camera, 8, high, low)).w,
            },
        }
    }

    // The corners of the box in clip space that has all these vertices.
    #[inline(always)]
    fn corners(&self) -> [ClipVertex; 8]
        ensures { result ≡ outer_corners self.now }
    {
        let (x, y, w) = (&self.x, &self.y, &self.w);
        [
            vertex(x.least, y.least, w.least),
            vertex(x.greatest, y.least, w.least),
            vertex(x.least, y.greatest, w.least),
            vertex(x.greatest, y.greatest, w.least),
            vertex(x.least, y.least, w.greatest),
            vertex(x.greatest, y.least, w.greatest),
            vertex(x.least, y.greatest, w.greatest),
            vertex(x.greatest, y.greatest, w.greatest),
        ]
    }
}

// Whether all pixels of a rectangle are in the screen.
fn is_in_screen(size: Size, rect: &Rect) -> bool
    ensures { result ≡ is_in_screen size rect.now }
{
    let screen = size.screen();
    0 <= rect.x0 && 0 <= rect.y0 && rect.x1 <= screen.x1 && rect.y1 <= screen.y1
}

// The answer for a box in space before a frame's camera: where it is a rectangle with a nearness, each box inside
// stands at a part of it and is no nearer. Conditions: there is such a frame, the size is the scene's, and the box's
// numbers are at most 2^24 away from 0.
fn answer_around(scene: &Scene, frame: u32, size: Size, around: &Around) -> BoxAnswer
    requires frame { frame < length scene.now.cameras }
    requires size { size ≡ size_of scene.now }
    requires low { AreWithin (2 ^ 24) around.now.low }
    requires high { AreWithin (2 ^ 24) around.now.high }
    ensures { IsAnswerAround scene.now frame around.now result }
{
    let camera = Camera(scene.cameras()[frame as usize]);
    let corners = Reach::of(&camera, around).corners();
    box_rect_for_others(&corners, scene.near(), size, scene.grade())
}

/// Whether all that a camera may see in a box around a group's boxes lies in the screen and is hidden: each member
/// counts then, and is occluded. False of fewer than two members, and where one is no box. Conditions: there are these
/// objects, and the size is the scene's.
pub(crate) fn is_hidden_around<V: TileView>(asked: &Asked<V>, size: Size, group: Group) -> bool
    requires group { group.first + group.count ≤ length asked.now.scene.now.objects }
    requires size { size ≡ size_of asked.now.scene.now }
    ensures told { let a = asked.now in result ≡ true
        → group_tally a.scene.now a.frame (state_in (size_of a.scene.now) (V.tile_of a.view.now)) group
        ≡ record { hidden = 1; members = group.count } }
    ensures occluded { (k : ℕ) (o : Object) → let a = asked.now in result ≡ true → k < group.count
        → verdict_in a.scene.now a.frame (V.tile_of a.view.now) (slice_index_or a.scene.now.objects (group.first + k) o)
        ≡ Occluded }
{
    if group.count < 2 {
        return false;
    }
    let Some(around) = Around::of_group(asked.scene, group) else {
        return false;
    };
    match answer_around(asked.scene, asked.frame, size, &around) {
        BoxAnswer::Outside | BoxAnswer::Straddles => false,
        BoxAnswer::At { rect, q } => {
            is_in_screen(size, &rect) && is_occluded(rect_test(asked.view, size, rect, q))
        }
    }
}
