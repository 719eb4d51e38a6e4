//! A subtile: a reference depth, a working depth and the samples that the working depth holds for.
ghost use Rattle.std.specs.Prelude.{◌≡◌, ◌<◌, ◌≤◌, ◌^◌, ◌+◌, ◌-◌, ◌*◌, cond, not, ◌&&◌, nat_eq, nat_lt, min, IsTrue, ◌↔◌};

use std::marker::Model;

/// All 32 samples of a subtile.
pub(crate) const ALL_SAMPLES: u32 = 0xFFFF_FFFF;

/// The depths are nearness from 0 to the top that subtiles hold. The working depth is above the reference where the
/// mask isn't empty, and 0 elsewhere.
#[derive(Clone, Copy)]
pub struct SubTile {
    reference: u32,
    working: u32,
    mask: u32,
}

impl Model for SubTile {
    ghost use Rattle.cull_base.specs.State.{State};
    ghost use Rattle.masked_update.specs.SubTile.{seen, Layers};

    ghost Value = { State };

    ghost view = { λ s. seen s.reference s.working s.mask };

    ghost invariant = { λ s. Layers s.reference s.working s.mask };

    ghost use Rattle.std.specs.Simd.Lanes.{mask_l};
    ghost use Rattle.masked_update.specs.Fields.{fields_back};

    ghost inverse = { λ v. record { reference = v.reference; working = v.working; mask = mask_l v.samples } };

    ghost inverse_ok = { λ s h. fields_back s h };
}

ghost use Rattle.cull_base.specs.declared.nearness.TheConstants.{HELD_TOP};
ghost use Rattle.cull_base.specs.State.{samples_of, empty_state, step_with};
ghost use Rattle.cull_base.specs.Fold.{IsLayered};
ghost use Rattle.masked_update.specs.SubTile.{seen, Layers, KeepsSound, AllBelow, AllHide};

// The mask that an incoming bound t leaves: it drops a working layer that is further behind it than above the
// reference.
#[inline(always)]
fn mask_left(reference: u32, working: u32, mask: u32, t: u32) -> u32
    requires reference { reference ≤ HELD_TOP }
    requires working { working ≤ HELD_TOP }
    requires t { t ≤ HELD_TOP }
    ensures { result ≡ cond (not (nat_eq mask 0) && nat_lt (2 * working) (t + reference)) 0 mask }
{
    if mask != 0 && 2 * working < t + reference {
        0
    } else {
        mask
    }
}

#[inline(always)]
fn lowered_depth(working: u32, left: u32, t: u32) -> u32
    ensures { result ≡ cond (nat_eq left 0) t (min working t) }
{
    if left == 0 { t } else { working.min(t) }
}

// Whether q is below a depth that holds at each of the samples, if there are any.
#[inline(always)]
fn is_hidden_by(depth: u32, samples: u32, q: u32) -> bool
    ensures { IsTrue result ↔ AllBelow (samples_of samples) q depth }
{
    samples == 0 || q < depth
}

impl SubTile {
    /// Nothing known at any sample.
    pub fn empty() -> SubTile
        ensures { result ≡ empty_state }
    {
        SubTile {
            reference: 0,
            working: 0,
            mask: 0,
        }
    }

    /// A subtile of these layers.
    #[inline(always)]
    pub(crate) fn of_layers(reference: u32, working: u32, mask: u32) -> SubTile
        requires { Layers reference working mask }
        ensures { result ≡ seen reference working mask }
    {
        SubTile {
            reference,
            working,
            mask,
        }
    }

    /// The reference depth, a nearness: it holds at the samples that aren't in the mask.
    pub fn reference(&self) -> u32
        ensures value { result ≡ self.now.reference }
        ensures within { result ≤ HELD_TOP }
        ensures layered { IsLayered self.now }
    {
        self.reference
    }

    /// The working depth, a nearness: it holds at the samples of the mask.
    pub fn working(&self) -> u32
        ensures value { result ≡ self.now.working }
        ensures within { result ≤ HELD_TOP }
        ensures layered { IsLayered self.now }
    {
        self.working
    }

    /// The samples of the working depth: sample (column c, row r) is bit 8r + c.
    pub fn mask(&self) -> u32
        ensures value { samples_of result ≡ self.now.samples }
        ensures not_full { result < 2 ^ 32 - 1 }
        ensures layered { IsLayered self.now }
    {
        self.mask
    }

    /// Merges the bound t at the samples of the mask c. Condition: t is at most the top that subtiles hold.
    /// Where t and c are a piece's low bound and its covered samples, a sound state stays sound.
    pub fn merge(&mut self, t: u32, c: u32)
        requires { t ≤ HELD_TOP }
        ensures step { self.new ≡ step_with self.old t (samples_of c) }
        ensures never_falls { self.old.reference ≤ self.new.reference }
        ensures layered { IsLayered self.new }
        ensures sound { KeepsSound t (samples_of c) self.old self.new }
    {
        if c == 0 || t <= self.reference {
            return;
        }
        let left = mask_left(self.reference, self.working, self.mask, t);
        let working = lowered_depth(self.working, left, t);
        let mask = left | c;
        if mask == ALL_SAMPLES {
            self.reference = working;
            self.working = 0;
            self.mask = 0;
        } else {
            self.working = working;
            self.mask = mask;
        }
    }

    /// Whether every sample of the mask `samples` has a bound strictly greater than the nearness q.
    pub fn hides(&self, samples: u32, q: u32) -> bool
        ensures { IsTrue result ↔ AllHide self.now (samples_of samples) q }
    {
        is_hidden_by(self.working, samples & self.mask, q)
            && is_hidden_by(self.reference, samples & !self.mask, q)
    }
}
