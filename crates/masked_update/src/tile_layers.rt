//! The layers of a tile's eight subtiles, which take a step together.
ghost use Rattle.std.specs.Prelude.{◌≡◌, ℕ, ◌<◌, ◌≤◌, ◌^◌, length, replicate, slice_index_or, slice_set};
ghost use Rattle.std.specs.Int.{bit_at};
ghost use Rattle.cull_base.specs.Fold.{IsLayered};
ghost use Rattle.cull_base.specs.State.{State, empty_state};
ghost use Rattle.masked_update.specs.Lanes.{AreSteps, IsMergeable};

use crate::coverage::Coverage;
use crate::sub_tile::{ALL_SAMPLES, SubTile};
use cull_base::eights::least_of;
use std::marker::Model;
use std::simd::prelude::*;

/// The references, the workings and the masks of eight subtiles, by their numbers.
#[derive(Clone, Copy)]
#[repr(C)]
pub struct TileLayers {
    references: [u32; 8],
    workings: [u32; 8],
    masks: [u32; 8],
}

impl Model for TileLayers {
    ghost use Rattle.std.specs.Prelude.{List, map};
    ghost use Rattle.std.specs.Simd.Lanes.{mask_l};
    ghost use Rattle.cull_base.specs.State.{State};

    ghost Value = { List State };

    ghost use Rattle.masked_update.specs.Lanes.{states_of, AreLayers};
    ghost use Rattle.masked_update.specs.LanesBack.{lanes_back};

    ghost view = { λ s. states_of s.references s.workings s.masks };

    ghost invariant = { λ s. AreLayers s.references s.workings s.masks };

    ghost inverse = { λ v. record {
      references = map (λ (s : State). s.reference) v;
      workings = map (λ (s : State). s.working) v;
      masks = map (λ (s : State). mask_l s.samples) v;
    } };

    ghost inverse_ok = { λ s h. lanes_back s h };
}

impl TileLayers {
    /// Nothing known at any sample.
    pub fn empty() -> TileLayers
        ensures { result ≡ replicate 8 empty_state }
    {
        TileLayers {
            references: [0; 8],
            workings: [0; 8],
            masks: [0; 8],
        }
    }

    /// Subtile j is now this one. Condition: j is below 8.
    #[inline(always)]
    pub(crate) fn put(&mut self, j: usize, sub: SubTile)
        requires { j < 8 }
        ensures value { self.new ≡ slice_set self.old j sub }
        ensures eight { length self.old ≡ 8 }
    {
        self.references[j] = sub.reference();
        self.workings[j] = sub.working();
        self.masks[j] = sub.mask();
    }

    /// The layers of eight subtiles.
    pub fn of(subs: &[SubTile; 8]) -> TileLayers
        ensures { result ≡ subs.now }
    {
        let mut layers = TileLayers::empty();
        for j in 0..8usize {
            layers.put(j, subs[j]);
        }
        layers
    }

    /// Condition: j is below 8.
    #[inline(always)]
    pub fn sub(&self, j: usize) -> SubTile
        requires { j < 8 }
        ensures value { result ≡ slice_index_or self.now j empty_state }
        ensures eight { length self.now ≡ 8 }
    {
        SubTile::of_layers(self.references[j], self.workings[j], self.masks[j])
    }

    /// The subtiles whose reference is below a nearness, as bits. A piece that is nowhere nearer changes no other.
    #[inline(always)]
    pub fn below(&self, nearest: u32) -> u32
        ensures behind { (j : ℕ) → j < 8 → bit_at result j ≡ 0
            → nearest ≤ (slice_index_or self.now j empty_state).reference }
        ensures eight { length self.now ≡ 8 }
    {
        u32x8::from_array(self.references)
            .simd_lt(u32x8::splat(nearest))
            .to_bitmask() as u32
    }

    /// A nearness that no reference is below.
    #[inline(always)]
    pub fn least_reference(&self) -> u32
        ensures least { (j : ℕ) → j < 8 → result ≤ (slice_index_or self.now j empty_state).reference }
        ensures layered { (j : ℕ) → j < 8 → IsLayered (slice_index_or self.now j empty_state) }
    {
        least_of(self.references)
    }

    /// Merges into each subtile its bound at its covered samples.
    #[inline(always)]
    pub fn merge(&mut self, coverage: Coverage)
        requires { IsMergeable coverage }
        ensures { AreSteps coverage self.old self.new }
    {
        let none = u32x8::splat(0);
        let all = u32x8::splat(ALL_SAMPLES);
        let reference = u32x8::from_array(self.references);
        let working = u32x8::from_array(self.workings);
        let mask = u32x8::from_array(self.masks);
        let covered = u32x8::from_array(coverage.masks);
        // where nothing is covered, a bound that is above no reference
        let bound = covered
            .simd_eq(none)
            .select(none, u32x8::from_array(coverage.lows));
        let left = (bound + reference)
            .simd_gt(working + working)
            .select(none, mask);
        let lowered = left.simd_eq(none).select(bound, working.simd_min(bound));
        let joined = left | covered;
        let full = joined.simd_eq(all);
        let nearer = bound.simd_gt(reference);
        // a full layer is above the reference where the bound is, and nowhere else
        self.references = reference.simd_max(full.select(lowered, none)).to_array();
        self.workings = nearer
            .select(full.select(none, lowered), working)
            .to_array();
        self.masks = nearer.select(full.select(none, joined), mask).to_array();
    }
}
