//! Shares of a slice, each in a thread of its own.
ghost use Rattle.std.specs.Prelude.{◌≡◌, ℕ, ◌+◌, ◌^◌, ◌<◌, ◌≤◌, length};
ghost use denote.Param.Send.{IsSync, IsSend};
ghost use Rattle.std.specs.Fork.{AcceptsAt, AcceptsEach, ChangesAt, ChangesEach};
ghost use Rattle.side_by_side.specs.Shares.{EachFrom, EachBothFrom};

use std::thread::{Threads, join_mut};

fn at_one<T, F: Fn(usize, &mut T)>(f: &F, i: usize, element: &mut T)
    requires { AcceptsAt F.Fn f.now i element.old }
    ensures { ChangesAt F.Fn f.now i element.old element.new }
{
    f(i, element);
}

// Calls f at each element, whose places begin at a base.
fn in_turn<T, F: Fn(usize, &mut T)>(s: &mut [T], base: usize, f: &F)
    requires room { base + length s.old < 2 ^ 64 }
    requires accepts { EachFrom (AcceptsAt F.Fn f.now) base s.old }
    ensures { EachBothFrom (ChangesAt F.Fn f.now) base s.old s.new }
{
    for k in 0..s.len() {
        at_one(f, base + k, &mut s[k]);
    }
}

// Starts a thread for each share of a size, and then does the caller's own work.
#[cycle(shares)]
fn shares_from<R: Threads + Sync, T: Send, F: Fn(usize, &mut T) + Sync, G: FnMut() -> A, A>(
    rt: &R,
    f: &F,
    base: usize,
    size: usize,
    s: &mut [T],
    own: &mut G,
) -> A
    requires size { 0 < size }
    requires room { base + length s.old < 2 ^ 64 }
    requires accepts { EachFrom (AcceptsAt F.Fn f.now) base s.old }
    requires own { G.pre own.old }
    ensures each { EachBothFrom (ChangesAt F.Fn f.now) base s.old s.new }
    ensures own { G.step own.old result own.new }
{
    if s.is_empty() {
        return own();
    }
    let (share, rest) = s.split_at_mut(size.min(s.len()));
    share_and_rest(rt, f, base, size, share, rest, own)
}

// A share and what follows it. A function of its own, so that what the closures require is what it is given.
#[cycle(shares)]
fn share_and_rest<R: Threads + Sync, T: Send, F: Fn(usize, &mut T) + Sync, G: FnMut() -> A, A>(
    rt: &R,
    f: &F,
    base: usize,
    size: usize,
    share: &mut [T],
    rest: &mut [T],
    own: &mut G,
) -> A
    requires size { 0 < size }
    requires some { 0 < length share.old }
    requires room { base + length share.old + length rest.old < 2 ^ 64 }
    requires share { EachFrom (AcceptsAt F.Fn f.now) base share.old }
    requires rest { EachFrom (AcceptsAt F.Fn f.now) (base + length share.old) rest.old }
    requires own { G.pre own.old }
    ensures share { EachBothFrom (ChangesAt F.Fn f.now) base share.old share.new }
    ensures rest { EachBothFrom (ChangesAt F.Fn f.now) (base + length share.old) rest.old rest.new }
    ensures own { G.step own.old result own.new }
{
    let up = base + share.len();
    let mut front = ||
        requires { IsSync F.row × IsSend T.row × (base + length share.now < 2 ^ 64)
            × EachFrom (AcceptsAt F.Fn f.now) base share.now }
        ensures { EachBothFrom (ChangesAt F.Fn f.entry.now) base share.entry.now share.exit.now }
    { in_turn(share, base, f) };
    let mut back = || -> A
        requires { IsSync R.row × IsSync F.row × IsSend T.row × (0 < size) × (up + length rest.now < 2 ^ 64)
            × EachFrom (AcceptsAt F.Fn f.now) up rest.now × G.pre own.now }
        ensures { EachBothFrom (ChangesAt F.Fn f.entry.now) up rest.entry.now rest.exit.now
            × G.step own.entry.now result own.exit.now }
    { shares_from(rt, f, up, size, rest, own) };
    let ((), done) = join_mut(rt, &mut front, &mut back);
    done
}

/// Calls f(i, &mut s[i]) for each element of a slice, in at most `threads` threads, each of which takes a share of the
/// elements. The caller starts these threads one after another, then calls `own`, and answers what that returned. A
/// system may keep the first thread on the caller's processor until the caller waits, which it does as soon as `own`
/// is done. Where `threads` is 0, the caller calls `own`, and then f itself. Conditions: f may be called with each place
/// and its element, and `own` may be called.
pub fn for_each_beside<R: Threads + Sync, T: Send, F: Fn(usize, &mut T) + Sync, G: FnMut() -> A, A>(
    rt: &R,
    s: &mut [T],
    threads: usize,
    f: &F,
    own: &mut G,
) -> A
    requires accepts { AcceptsEach F.Fn f.now s.old }
    requires own { G.pre own.old }
    ensures each { ChangesEach F.Fn f.now s.old s.new }
    ensures own { G.step own.old result own.new }
{
    if threads == 0 {
        let done = own();
        in_turn(s, 0, f);
        return done;
    }
    let size = s.len().div_ceil(threads).max(1);
    shares_from(rt, f, 0, size, s, own)
}

/// Calls f(i, &mut s[i]) for each element of a slice, in at most `threads` threads. The caller starts all of them, one
/// after another, and takes no share itself, which sets this apart from std's `for_each_mut`. Where `threads` is 0 or 1,
/// the caller calls f itself. Condition: f may be called with each place and its element.
pub fn for_each_share<R: Threads + Sync, T: Send, F: Fn(usize, &mut T) + Sync>(
    rt: &R,
    s: &mut [T],
    threads: usize,
    f: &F,
)
    requires accepts { AcceptsEach F.Fn f.now s.old }
    ensures { ChangesEach F.Fn f.now s.old s.new }
{
    let own = if threads == 1 { 0 } else { threads };
    for_each_beside(rt, s, own, f, &mut || {});
}
