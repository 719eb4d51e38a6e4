//! The objects of a frame, those of groups by their hulls first.
ghost use Rattle.std.specs.Prelude.{◌≡◌, ℕ, ◌+◌, ◌-◌, ◌++◌, ◌<◌, ◌≤◌, min, length, take, drop, vec_capacity};
ghost use Rattle.std.specs.Prelude.{slice_index_or};
ghost use Rattle.cull_base.specs.declared.scene_types.Object.{Object};
ghost use Rattle.cull_base.specs.declared.scene_types.Verdict.TheVariants.{Occluded};
ghost use Rattle.cull_report.specs.Scene.{size_of, verdict_in, verdicts_in};
ghost use Rattle.group_query.specs.Grouping.{AreApart, AreBegun};
ghost use Rattle.group_query.specs.Hidden.{IsKept, IsTested, group_tally};
ghost use Rattle.group_query.specs.Hulls.{AreFormsFrom};
ghost use Rattle.group_query.specs.declared.grouping.Group.{Group};
ghost use Rattle.masked_update.specs.Views.{state_in};

use crate::around::is_hidden_around;
use crate::begun::begun_before;
use crate::grouping::Group;
use crate::hulls::{grown_by, hull_keeping, seen_form, told};
use crate::tested::{
    Kept, Tested, kept_with, nothing_kept, tally_of, test_of, verdict_alone, verdict_by_form,
};
use cull_base::{Size, Verdict};
use cull_report::{Answering, Asked, Form, Tally};
use masked_update::TileView;

/// So many members' forms are kept from the hull to their verdicts; those of others are made twice.
const KEPT: usize = 64;

/// The objects of a scene in one of its frames, tested over a view, and groups of them. Condition: the groups are in
/// order among the objects and share none, as those of `groups` do.
#[derive(Drop)]
pub struct Grouped<'a, V: TileView> {
    pub asked: &'a Asked<'a, V>,
    pub groups: &'a [Group],
    ghost apart: { AreApart (length asked.now.scene.now.objects) groups.now },
}

impl<'a, V: TileView> Grouped<'a, V> {
    // How many objects there are.
    fn object_count(&self) -> u32
        ensures { result ≡ length self.now.asked.now.scene.now.objects }
    {
        let scene = self.asked.scene;
        // an accessor tells what is held of a scene: its objects are at most 65,536
        let _near = scene.near();
        scene.objects().len() as u32
    }

    // The group of a number.
    fn group_at(&self, number: usize) -> Group
        requires { number < length self.now.groups.now }
        ensures at { (d : Group) → result ≡ slice_index_or self.now.groups.now number d }
        ensures within { result.first + result.count ≤ length self.now.asked.now.scene.now.objects }
    {
        self.groups[number]
    }

    // Tests the hull of a group, and keeps the forms of its first members. Condition: the size is the scene's.
    #[inline(always)]
    fn tested(&self, size: Size, group: Group, forms: &mut [Form]) -> Tested
        requires places { 64 ≤ length forms.old }
        requires group { group.first + group.count ≤ length self.now.asked.now.scene.now.objects }
        requires size { size ≡ size_of self.now.asked.now.scene.now }
        ensures tested { let a = self.now.asked.now in
            IsTested a.scene.now a.frame (state_in (size_of a.scene.now) (V.tile_of a.view.now)) group result }
        ensures kept { let a = self.now.asked.now in
            AreFormsFrom a.scene.now a.frame group.first (min group.count 64) forms.new }
        ensures places { length forms.new ≡ length forms.old }
    {
        // it tells that the objects' numbers fit
        let _objects = self.object_count();
        let asked = self.asked;
        let kept = group.count.min(KEPT as u32);
        let front = hull_keeping(asked.scene, asked.frame, size, group.first, kept, forms);
        let hull = grown_by(
            asked.scene,
            asked.frame,
            size,
            front,
            group.first + kept,
            group.count - kept,
        );
        test_of(asked.view, size, told(hull))
    }

    // The verdict of a member of a group whose form isn't kept. Not inlined, since few groups are so large.
    #[inline(never)]
    fn late_verdict(&self, size: Size, group: Group, tested: Tested, member: u32) -> Verdict
        requires member { member < group.count }
        requires group { group.first + group.count ≤ length self.now.asked.now.scene.now.objects }
        requires size { size ≡ size_of self.now.asked.now.scene.now }
        requires tested { let a = self.now.asked.now in
            IsTested a.scene.now a.frame (state_in (size_of a.scene.now) (V.tile_of a.view.now)) group tested }
        ensures { (o : Object) → let a = self.now.asked.now in
            result ≡ verdict_in a.scene.now a.frame (V.tile_of a.view.now)
            (slice_index_or a.scene.now.objects (group.first + member) o) }
    {
        // it tells that the objects' numbers fit
        let _objects = self.object_count();
        let object = group.first + member;
        let form = seen_form(self.asked.scene, self.asked.frame, size, object);
        verdict_by_form(self.asked, size, group, tested, object, &form)
    }

    // The verdict of a member of a group that was tested, by its form: it is kept, or made anew.
    #[inline(always)]
    fn member_verdict(
        &self,
        size: Size,
        group: Group,
        tested: Tested,
        member: u32,
        forms: &[Form],
    ) -> Verdict
        requires places { 64 ≤ length forms.now }
        requires member { member < group.count }
        requires group { group.first + group.count ≤ length self.now.asked.now.scene.now.objects }
        requires size { size ≡ size_of self.now.asked.now.scene.now }
        requires tested { let a = self.now.asked.now in
            IsTested a.scene.now a.frame (state_in (size_of a.scene.now) (V.tile_of a.view.now)) group tested }
        requires kept { let a = self.now.asked.now in
            AreFormsFrom a.scene.now a.frame group.first (min group.count 64) forms.now }
        ensures { (o : Object) → let a = self.now.asked.now in
            result ≡ verdict_in a.scene.now a.frame (V.tile_of a.view.now)
            (slice_index_or a.scene.now.objects (group.first + member) o) }
    {
        // it tells that the objects' numbers fit
        let _objects = self.object_count();
        if KEPT <= member as usize {
            return self.late_verdict(size, group, tested, member);
        }
        let object = group.first + member;
        verdict_by_form(
            self.asked,
            size,
            group,
            tested,
            object,
            &forms[member as usize],
        )
    }

    // What is counted of a group, by what is kept of its first members. Its hull is made only where each of these that
    // counts is occluded, since a hidden group hides its members. It isn't tested where one of these alone counts: it
    // is that one's area then, and occluded as it is. Condition: the size is the scene's.
    #[inline(always)]
    fn told_by(&self, size: Size, group: Group, count: u32, kept: Kept) -> Tally
        requires group { group.first + group.count ≤ length self.now.asked.now.scene.now.objects }
        requires within { count ≤ group.count }
        requires size { size ≡ size_of self.now.asked.now.scene.now }
        requires kept { let a = self.now.asked.now in
            IsKept a.scene.now a.frame (state_in (size_of a.scene.now) (V.tile_of a.view.now)) group count kept }
        ensures { let a = self.now.asked.now in
            result ≡ group_tally a.scene.now a.frame (state_in (size_of a.scene.now) (V.tile_of a.view.now)) group }
    {
        // it tells that the objects' numbers fit
        let _objects = self.object_count();
        if kept.shown {
            return Tally {
                hidden: 0,
                members: 0,
            };
        }
        let asked = self.asked;
        let hull = grown_by(
            asked.scene,
            asked.frame,
            size,
            kept.hull,
            group.first + count,
            group.count - count,
        );
        if kept.hull.members == 1 && hull.members == 1 {
            return Tally {
                hidden: 1,
                members: 1,
            };
        }
        let tested = test_of(asked.view, size, told(hull));
        tally_of(asked, group, tested)
    }

    // Appends the verdicts of the first so many members of a group whose members are all occluded. Its clauses alone
    // ask for the group.
    fn answer_hidden(&self, _group: Group, count: u32, verdicts: &mut Vec<Verdict>)
        requires group { _group.first + _group.count ≤ length self.now.asked.now.scene.now.objects }
        requires within { count ≤ _group.count }
        requires room { length verdicts.old.items + count ≤ vec_capacity verdicts.old }
        requires occluded { (k : ℕ) (o : Object) → let a = self.now.asked.now in k < _group.count
            → verdict_in a.scene.now a.frame (V.tile_of a.view.now)
            (slice_index_or a.scene.now.objects (_group.first + k) o) ≡ Occluded }
        ensures verdicts { let a = self.now.asked.now in
            let all = verdicts_in a.scene.now a.frame (V.tile_of a.view.now) in
            verdicts.new.items ≡ verdicts.old.items ++ take count (drop _group.first all) }
        ensures room { vec_capacity verdicts.new ≡ vec_capacity verdicts.old }
    {
        for _k in 0..count {
            verdicts.push_reserved(Verdict::Occluded);
        }
    }

    // Appends the verdicts of the first so many members of a group, and tells what is counted of the group. A box
    // around its boxes is tested first, since none of these is put through the camera where that is hidden, and then
    // its hull. Condition: the size is the scene's.
    fn answer_by_hull(
        &self,
        size: Size,
        group: Group,
        count: u32,
        forms: &mut [Form],
        verdicts: &mut Vec<Verdict>,
    ) -> Tally
        requires size { size ≡ size_of self.now.asked.now.scene.now }
        requires places { 64 ≤ length forms.old }
        requires group { group.first + group.count ≤ length self.now.asked.now.scene.now.objects }
        requires within { count ≤ group.count }
        requires room { length verdicts.old.items + count ≤ vec_capacity verdicts.old }
        ensures told { let a = self.now.asked.now in
            result ≡ group_tally a.scene.now a.frame (state_in (size_of a.scene.now) (V.tile_of a.view.now)) group }
        ensures verdicts { let a = self.now.asked.now in
            let all = verdicts_in a.scene.now a.frame (V.tile_of a.view.now) in
            verdicts.new.items ≡ verdicts.old.items ++ take count (drop group.first all) }
        ensures room { vec_capacity verdicts.new ≡ vec_capacity verdicts.old }
        ensures places { length forms.new ≡ length forms.old }
    {
        // it tells that the objects' numbers fit
        let _objects = self.object_count();
        let asked = self.asked;
        if is_hidden_around(asked, size, group) {
            self.answer_hidden(group, count, verdicts);
            return Tally {
                hidden: 1,
                members: group.count,
            };
        }
        let tested = self.tested(size, group, forms);
        for k in 0..count {
            let verdict = self.member_verdict(size, group, tested, k, forms);
            verdicts.push_reserved(verdict);
        }
        tally_of(asked, group, tested)
    }

    // The same by the hull, or by the members: each is tested by itself, and the hull behind them, unless one shows
    // that the group isn't hidden: nothing more is kept for it from there on.
    fn answer_group(
        &self,
        group: Group,
        count: u32,
        by_hull: bool,
        forms: &mut [Form],
        verdicts: &mut Vec<Verdict>,
    ) -> Tally
        requires places { 64 ≤ length forms.old }
        requires group { group.first + group.count ≤ length self.now.asked.now.scene.now.objects }
        requires within { count ≤ group.count }
        requires room { length verdicts.old.items + count ≤ vec_capacity verdicts.old }
        ensures told { let a = self.now.asked.now in
            result ≡ group_tally a.scene.now a.frame (state_in (size_of a.scene.now) (V.tile_of a.view.now)) group }
        ensures verdicts { let a = self.now.asked.now in
            let all = verdicts_in a.scene.now a.frame (V.tile_of a.view.now) in
            verdicts.new.items ≡ verdicts.old.items ++ take count (drop group.first all) }
        ensures room { vec_capacity verdicts.new ≡ vec_capacity verdicts.old }
        ensures places { length forms.new ≡ length forms.old }
    {
        // it tells that the objects' numbers fit
        let _objects = self.object_count();
        let asked = self.asked;
        let size = asked.scene.size();
        if by_hull {
            return self.answer_by_hull(size, group, count, forms, verdicts);
        }
        let mut kept = nothing_kept(size);
        let mut member = 0u32;
        while member < count && !kept.shown {
            let object = group.first + member;
            let form = seen_form(asked.scene, asked.frame, size, object);
            let verdict = verdict_alone(asked, size, object, &form);
            kept = kept_with(size, kept, &form, verdict);
            verdicts.push_reserved(verdict);
            member += 1;
        }
        self.answer_alone(group.first + member, count - member, verdicts);
        self.told_by(size, group, member, kept)
    }

    // Of so many groups that begin before a place the last may reach behind it: appends the verdicts of its members
    // from the place on to before an end, each by itself, and tells where that ends. What is counted of it is told
    // where it begins.
    fn answer_cut(&self, begun: usize, place: u32, end: u32, verdicts: &mut Vec<Verdict>) -> u32
        requires begun { AreBegun place self.now.groups.now begun }
        requires ordered { place ≤ end }
        requires end { end ≤ length self.now.asked.now.scene.now.objects }
        requires room { length verdicts.old.items + (end - place) ≤ vec_capacity verdicts.old }
        ensures behind { place ≤ result }
        ensures before { result ≤ end }
        ensures next { (d : Group) → begun < length self.now.groups.now
            → result ≤ (slice_index_or self.now.groups.now begun d).first }
        ensures verdicts { let a = self.now.asked.now in
            let all = verdicts_in a.scene.now a.frame (V.tile_of a.view.now) in
            verdicts.new.items ≡ verdicts.old.items ++ take (result - place) (drop place all) }
        ensures room { vec_capacity verdicts.new ≡ vec_capacity verdicts.old }
    {
        // it tells that the objects' numbers fit
        let _objects = self.object_count();
        if begun == 0 {
            return place;
        }
        let group = self.group_at(begun - 1);
        let next = end.min(group.first + group.count);
        if next <= place {
            return place;
        }
        self.answer_alone(place, next - place, verdicts);
        next
    }

    // Appends the verdicts of the objects from a place on to before a group, and of the group's members to before an
    // end; tells what is counted of the group.
    fn answer_next(
        &self,
        group: Group,
        place: u32,
        end: u32,
        by_hull: bool,
        forms: &mut [Form],
        verdicts: &mut Vec<Verdict>,
    ) -> Tally
        requires places { 64 ≤ length forms.old }
        requires group { group.first + group.count ≤ length self.now.asked.now.scene.now.objects }
        requires behind { place ≤ group.first }
        requires ordered { group.first ≤ end }
        requires within { end ≤ group.first + group.count }
        requires room { length verdicts.old.items + (end - place) ≤ vec_capacity verdicts.old }
        ensures told { let a = self.now.asked.now in
            result ≡ group_tally a.scene.now a.frame (state_in (size_of a.scene.now) (V.tile_of a.view.now)) group }
        ensures verdicts { let a = self.now.asked.now in
            let all = verdicts_in a.scene.now a.frame (V.tile_of a.view.now) in
            verdicts.new.items ≡ verdicts.old.items ++ take (end - place) (drop place all) }
        ensures room { vec_capacity verdicts.new ≡ vec_capacity verdicts.old }
        ensures places { length forms.new ≡ length forms.old }
    {
        self.answer_alone(place, group.first - place, verdicts);
        self.answer_group(group, end - group.first, by_hull, forms, verdicts)
    }

    // Appends the verdicts of so many objects from a place on, each by itself.
    fn answer_alone(&self, place: u32, count: u32, verdicts: &mut Vec<Verdict>)
        requires within { place + count ≤ length self.now.asked.now.scene.now.objects }
        requires room { length verdicts.old.items + count ≤ vec_capacity verdicts.old }
        ensures verdicts { let a = self.now.asked.now in
            let all = verdicts_in a.scene.now a.frame (V.tile_of a.view.now) in
            verdicts.new.items ≡ verdicts.old.items ++ take count (drop place all) }
        ensures room { vec_capacity verdicts.new ≡ vec_capacity verdicts.old }
    {
        // it tells that the objects' numbers fit
        let _objects = self.object_count();
        for k in 0..count {
            let verdict = self.asked.verdict_at(place + k);
            verdicts.push_reserved(verdict);
        }
    }
}

impl<'a, V: TileView> Answering for Grouped<'a, V> {
    ghost use Rattle.cull_report.specs.Scene.{size_of, verdicts_in};
    ghost use Rattle.group_query.specs.Hidden.{told_before};
    ghost use Rattle.masked_update.specs.Views.{state_in};

    ghost all = { λ g. verdicts_in g.asked.now.scene.now g.asked.now.frame (V.tile_of g.asked.now.view.now) };

    ghost told = { λ g place. told_before g.asked.now.scene.now g.asked.now.frame
        (state_in (size_of g.asked.now.scene.now) (V.tile_of g.asked.now.view.now)) g.groups.now place };

    fn count(&self) -> u32 {
        self.object_count()
    }

    fn answer(&self, first: u32, count: u32, verdicts: &mut Vec<Verdict>) -> Tally {
        // it tells that the verdicts' numbers fit
        let _count = self.count();
        let objects = self.object_count();
        let end = first + count;
        let from = begun_before(self.groups, first, objects);
        let to = begun_before(self.groups, end, objects);
        let mut forms = [Form::Outside; KEPT];
        let mut place = self.answer_cut(from, first, end, verdicts);
        let (mut hidden, mut members) = (0u32, 0u32);
        // the first hull is tested before its members; then hidden groups mostly follow one another
        let mut by_hull = true;
        for number in from..to {
            let group = self.group_at(number);
            let next = end.min(group.first + group.count);
            let tally = self.answer_next(group, place, next, by_hull, &mut forms, verdicts);
            hidden += tally.hidden;
            members += tally.members;
            by_hull = 0 < tally.hidden;
            place = next;
        }
        self.answer_alone(place, end - place, verdicts);
        Tally { hidden, members }
    }
}
