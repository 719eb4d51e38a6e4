//! The verdict of a group's hull and those of its members by it, or what its members show of the hull.
ghost use Rattle.std.specs.Prelude.{◌≡◌, ℕ, ◌+◌, ◌<◌, ◌≤◌, ◌^◌, ◌||◌, true, false, length, slice_index_or};
ghost use Rattle.cull_base.specs.declared.scene_types.Object.{Object};
ghost use Rattle.cull_base.specs.Screen.{tile_count_of};
ghost use Rattle.cull_report.specs.Scene.{size_of, verdict_in};
ghost use Rattle.cull_report.specs.Text.{is_occluded};
ghost use Rattle.cull_report.specs.declared.form.Form.TheVariants.{Flat};
ghost use Rattle.group_query.specs.Hidden.{IsTested, group_tally, hull_verdict, is_shown};
ghost use Rattle.group_query.specs.Hulls.{IsFormOf, grown_hull, members_of, no_members};
ghost use Rattle.masked_update.specs.Views.{state_in};

use crate::grouping::Group;
use crate::hulls::{Hull, grown, no_members};
use cull_base::{Rect, Size, Verdict};
use cull_report::{Asked, Form, Tally};
use masked_update::TileView;
use rect_query::rect_test;
use scene_reader::Scene;

/// How many members of a group count, and the verdict of its hull.
#[derive(Clone, Copy)]
pub(crate) struct Tested {
    pub(crate) members: u32,
    pub(crate) verdict: Verdict,
}

/// Whether a verdict is that of what is hidden.
#[inline(always)]
pub(crate) fn is_occluded(verdict: Verdict) -> bool
    ensures { result ≡ is_occluded verdict }
{
    match verdict {
        Verdict::Visible => false,
        Verdict::Occluded => true,
        Verdict::Outside => false,
    }
}

/// The verdict of a hull; outside where there is none. The test ends at the first sample that doesn't hide. Condition:
/// the view holds every tile.
#[inline(always)]
pub(crate) fn test_of<V: TileView>(view: &V, size: Size, hull: Option<Hull>) -> Tested
    requires { (t : ℕ) → t < tile_count_of size → V.held view.now t ≡ true }
    ensures members { result.members ≡ members_of hull }
    ensures verdict { result.verdict ≡ hull_verdict size (state_in size (V.tile_of view.now)) hull }
{
    match hull {
        None => Tested {
            members: 0,
            verdict: Verdict::Outside,
        },
        Some(hull) => Tested {
            members: hull.members,
            verdict: rect_test(view, size, hull.rect, hull.q),
        },
    }
}

/// What is counted of a group that was tested. Its clauses alone ask for the group.
#[inline(always)]
pub(crate) fn tally_of<V: TileView>(asked: &Asked<V>, _group: Group, tested: Tested) -> Tally
    requires { let a = asked.now in
        IsTested a.scene.now a.frame (state_in (size_of a.scene.now) (V.tile_of a.view.now)) _group tested }
    ensures { let a = asked.now in
        result ≡ group_tally a.scene.now a.frame (state_in (size_of a.scene.now) (V.tile_of a.view.now)) _group }
{
    let _frame = asked.frame;
    if !is_occluded(tested.verdict) {
        return Tally {
            hidden: 0,
            members: 0,
        };
    }
    Tally {
        hidden: 1,
        members: tested.members,
    }
}

/// What is kept of members of a group: their hull, until one shows that the group isn't hidden, since it counts and
/// isn't occluded.
#[derive(Clone, Copy)]
pub(crate) struct Kept {
    pub(crate) hull: Hull,
    pub(crate) shown: bool,
}

/// What is kept before the first member.
#[inline(always)]
pub(crate) fn nothing_kept(size: Size) -> Kept
    ensures hull { result.hull ≡ no_members size }
    ensures shown { result.shown ≡ false }
{
    Kept {
        hull: no_members(size),
        shown: false,
    }
}

// Whether a member shows that its group isn't hidden.
#[inline(always)]
fn is_shown(form: &Form, verdict: Verdict) -> bool
    ensures { result ≡ is_shown form.now verdict }
{
    match form {
        Form::Outside => false,
        Form::Visible => false,
        Form::Flat { .. } => !is_occluded(verdict),
        Form::Mesh { .. } => false,
    }
}

/// What is kept, with one member more. Its hull is asked for only while no member shows that the group isn't hidden.
#[inline(always)]
pub(crate) fn kept_with(size: Size, kept: Kept, form: &Form, verdict: Verdict) -> Kept
    requires { kept.hull.members + 1 < 2 ^ 32 }
    ensures shown { result.shown ≡ (kept.shown || is_shown form.now verdict) }
    ensures hull { result.shown ≡ false → result.hull ≡ grown_hull size kept.hull form.now }
    ensures few { result.hull.members ≤ kept.hull.members + 1 }
{
    let shown = kept.shown | is_shown(form, verdict);
    if shown {
        return Kept {
            hull: kept.hull,
            shown: true,
        };
    }
    Kept {
        hull: grown(size, kept.hull, form),
        shown: false,
    }
}

// The verdict of an object at a rectangle with a pixel in the screen, by itself. Conditions as below.
#[inline(always)]
fn flat_verdict<V: TileView>(
    asked: &Asked<V>,
    size: Size,
    object: u32,
    rect: Rect,
    q: u32,
) -> Verdict
    requires object { object < length asked.now.scene.now.objects }
    requires size { size ≡ size_of asked.now.scene.now }
    requires form { IsFormOf asked.now.scene.now asked.now.frame object (Flat rect q) }
    ensures { (o : Object) → result ≡ verdict_in asked.now.scene.now asked.now.frame (V.tile_of asked.now.view.now)
        (slice_index_or asked.now.scene.now.objects object o) }
{
    if asked.settled[object as usize] {
        return Verdict::Occluded;
    }
    rect_test(asked.view, size, rect, q)
}

/// The verdict of an object by its form. Conditions: there is such an object, the size is the scene's, and the form is
/// the object's.
#[inline(always)]
pub(crate) fn verdict_alone<V: TileView>(
    asked: &Asked<V>,
    size: Size,
    object: u32,
    form: &Form,
) -> Verdict
    requires object { object < length asked.now.scene.now.objects }
    requires size { size ≡ size_of asked.now.scene.now }
    requires form { IsFormOf asked.now.scene.now asked.now.frame object form.now }
    ensures { (o : Object) → result ≡ verdict_in asked.now.scene.now asked.now.frame (V.tile_of asked.now.view.now)
        (slice_index_or asked.now.scene.now.objects object o) }
{
    match form {
        Form::Outside => Verdict::Outside,
        Form::Visible => Verdict::Visible,
        Form::Flat { rect, q } => flat_verdict(asked, size, object, *rect, *q),
        Form::Mesh { .. } => asked.verdict_by(object, *form),
    }
}

// The verdict of a member that counts, of a group that was tested. It is the hull's where that is occluded, since the
// member's samples are among the hull's and it is no nearer; and where no other member counts, since it is the hull
// then. Conditions as below.
#[inline(always)]
fn counted_verdict<V: TileView>(
    asked: &Asked<V>,
    size: Size,
    _group: Group,
    tested: Tested,
    object: u32,
    rect: Rect,
    q: u32,
) -> Verdict
    requires tested { let a = asked.now in
        IsTested a.scene.now a.frame (state_in (size_of a.scene.now) (V.tile_of a.view.now)) _group tested }
    requires behind { _group.first ≤ object }
    requires before { object < _group.first + _group.count }
    requires object { object < length asked.now.scene.now.objects }
    requires size { size ≡ size_of asked.now.scene.now }
    requires form { IsFormOf asked.now.scene.now asked.now.frame object (Flat rect q) }
    ensures { (o : Object) → result ≡ verdict_in asked.now.scene.now asked.now.frame (V.tile_of asked.now.view.now)
        (slice_index_or asked.now.scene.now.objects object o) }
{
    if is_occluded(tested.verdict) {
        return tested.verdict;
    }
    if tested.members == 1 {
        return tested.verdict;
    }
    flat_verdict(asked, size, object, rect, q)
}

/// The verdict of a member of a group that was tested, by the member's form: of one that counts it may be the hull's.
/// Conditions: there is such an object, it is one of the group, the size is the scene's, and the form is the object's.
#[inline(always)]
pub(crate) fn verdict_by_form<V: TileView>(
    asked: &Asked<V>,
    size: Size,
    _group: Group,
    tested: Tested,
    object: u32,
    form: &Form,
) -> Verdict
    requires tested { let a = asked.now in
        IsTested a.scene.now a.frame (state_in (size_of a.scene.now) (V.tile_of a.view.now)) _group tested }
    requires behind { _group.first ≤ object }
    requires before { object < _group.first + _group.count }
    requires object { object < length asked.now.scene.now.objects }
    requires size { size ≡ size_of asked.now.scene.now }
    requires form { IsFormOf asked.now.scene.now asked.now.frame object form.now }
    ensures { (o : Object) → result ≡ verdict_in asked.now.scene.now asked.now.frame (V.tile_of asked.now.view.now)
        (slice_index_or asked.now.scene.now.objects object o) }
{
    match form {
        Form::Flat { rect, q } => counted_verdict(asked, size, _group, tested, object, *rect, *q),
        Form::Outside | Form::Visible | Form::Mesh { .. } => {
            verdict_alone(asked, size, object, form)
        }
    }
}
