//! Hulls of groups: around the areas of the members that count.
ghost use Rattle.std.specs.Prelude.{◌≡◌, ◌+◌, ◌<◌, ◌≤◌, ◌^◌, length, None, Option, Some};
ghost use Rattle.std.specs.Int.{int_min, int_max};
ghost use Rattle.cull_report.specs.Scene.{size_of};
ghost use Rattle.group_query.specs.Hulls.{AreFormsFrom, IsFormOf, grown_hull, holding, hull_from, is_seen, kept_hull};
ghost use Rattle.group_query.specs.Hulls.{no_members, shapes_from, told_hull, with_member};
ghost use Rattle.group_query.specs.declared.hulls.Hull.{Hull};

use cull_base::{Rect, Size};
use cull_report::{Form, object_form};
use scene_reader::Scene;

/// The rectangle from the least to the greatest sides of the areas of a group's members that count, the greatest
/// nearness of these, and their number. A member counts where it is at a rectangle that has a pixel in the screen.
#[derive(Clone, Copy, Debug, PartialEq, Eq)]
pub struct Hull {
    pub rect: Rect,
    pub q: u32,
    pub members: u32,
}

#[inline(always)]
fn lesser(a: i32, b: i32) -> i32
    ensures { result ≡ int_min a b }
{
    a.min(b)
}

#[inline(always)]
fn greater(a: i32, b: i32) -> i32
    ensures { result ≡ int_max a b }
{
    a.max(b)
}

// The rectangle from the lesser sides of two to the greater: it holds both.
#[inline(always)]
fn holding(a: &Rect, b: &Rect) -> Rect
    ensures { result ≡ holding a.now b.now }
{
    Rect {
        x0: lesser(a.x0, b.x0),
        y0: lesser(a.y0, b.y0),
        x1: greater(a.x1, b.x1),
        y1: greater(a.y1, b.y1),
    }
}

/// What is kept before a member counts. So none is told from the first by a branch: any area's sides replace these.
#[inline(always)]
pub(crate) fn no_members(size: Size) -> Hull
    ensures { result ≡ no_members size }
{
    let screen = size.screen();
    Hull {
        rect: Rect {
            x0: screen.x1,
            y0: screen.y1,
            x1: 0,
            y1: 0,
        },
        q: 0,
        members: 0,
    }
}

/// The hull that was kept; none where no member counts.
#[inline(always)]
pub(crate) fn told(hull: Hull) -> Option<Hull>
    ensures { result ≡ told_hull hull }
{
    if hull.members == 0 {
        return None;
    }
    Some(hull)
}

// A hull with one member more, by its area and its nearness.
#[inline(always)]
fn with_member(hull: Hull, area: Rect, q: u32) -> Hull
    requires { hull.members + 1 < 2 ^ 32 }
    ensures { result ≡ with_member (Some hull) area q }
{
    let members = hull.members + 1;
    Hull {
        rect: holding(&hull.rect, &area),
        q: hull.q.max(q),
        members,
    }
}

// Whether a form that is a rectangle has a pixel in the screen.
#[inline(always)]
fn is_seen(size: Size, form: &Form) -> bool
    ensures { result ≡ is_seen size form.now }
{
    match form {
        Form::Outside => true,
        Form::Visible => true,
        Form::Flat { rect, .. } => rect.meets(&size.screen()),
        Form::Mesh { .. } => true,
    }
}

/// The form of an object in a frame; outside, where it is a rectangle without a pixel in the screen. So a form that is
/// a rectangle counts, and isn't looked at again to know it. Conditions: there are such a frame and such an object, and
/// the size is the scene's.
#[inline(always)]
pub(crate) fn seen_form(scene: &Scene, frame: u32, size: Size, object: u32) -> Form
    requires frame { frame < length scene.now.cameras }
    requires object { object < length scene.now.objects }
    requires size { size ≡ size_of scene.now }
    ensures { IsFormOf scene.now frame object result }
{
    let form = object_form(scene, frame, object);
    if !is_seen(size, &form) {
        return Form::Outside;
    }
    form
}

/// A hull that is kept and a member by its form.
#[inline(always)]
pub(crate) fn grown(size: Size, hull: Hull, form: &Form) -> Hull
    requires { hull.members + 1 < 2 ^ 32 }
    ensures { result ≡ grown_hull size hull form.now }
{
    match form {
        Form::Outside => hull,
        Form::Visible => hull,
        Form::Flat { rect, q } => with_member(hull, rect.cut(&size.screen()), *q),
        Form::Mesh { .. } => hull,
    }
}

/// A hull that is kept and so many objects of a frame from a first on, one after the other. Conditions: there is such a
/// frame, there are so many objects, the size is the scene's, and numbers of members fit.
pub(crate) fn grown_by(
    scene: &Scene,
    frame: u32,
    size: Size,
    front: Hull,
    first: u32,
    count: u32,
) -> Hull
    requires frame { frame < length scene.now.cameras }
    requires within { first + count ≤ length scene.now.objects }
    requires size { size ≡ size_of scene.now }
    requires few { front.members + count < 2 ^ 32 }
    ensures { (h : Option Hull) → front ≡ kept_hull (size_of scene.now) h → result
        ≡ kept_hull (size_of scene.now) (hull_from (size_of scene.now) h (shapes_from scene.now frame first count)) }
{
    // an accessor tells what is held of a scene: its objects are at most 65,536
    let _near = scene.near();
    let mut hull = front;
    for k in 0..count {
        let form = seen_form(scene, frame, size, first + k);
        hull = grown(size, hull, &form);
    }
    hull
}

/// What is kept of so many objects of a frame from a first on, whose forms are kept too. Conditions as above, and there
/// are places for the forms.
pub(crate) fn hull_keeping(
    scene: &Scene,
    frame: u32,
    size: Size,
    first: u32,
    count: u32,
    forms: &mut [Form],
) -> Hull
    requires frame { frame < length scene.now.cameras }
    requires within { first + count ≤ length scene.now.objects }
    requires size { size ≡ size_of scene.now }
    requires places { count ≤ length forms.old }
    ensures hull { result
        ≡ kept_hull (size_of scene.now) (hull_from (size_of scene.now) None (shapes_from scene.now frame first count)) }
    ensures few { result.members ≤ count }
    ensures kept { AreFormsFrom scene.now frame first count forms.new }
    ensures places { length forms.new ≡ length forms.old }
{
    // as above
    let _near = scene.near();
    let mut hull = no_members(size);
    for k in 0..count {
        let form = seen_form(scene, frame, size, first + k);
        forms[k as usize] = form;
        hull = grown(size, hull, &form);
    }
    hull
}
