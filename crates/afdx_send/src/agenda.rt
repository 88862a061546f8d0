//! The soonest of several releases, found by a tournament.

ghost use Rattle.std.specs.Prelude.{◌≡◌, ℕ, ◌+◌, ◌*◌, ◌<◌, ◌≤◌, ◌↔◌, ◌==◌, ◌&&◌, IsTrue, false, List, Option, Some, None, IfOk, MatchOption, option_map, length, replicate, slice_set, vec_len};
ghost use Rattle.afdx_config.specs.Reading.{most_links};
ghost use Rattle.afdx_send.specs.Agenda.{IsSooner, IsPlayed, IsSoonest, NoneBefore, nexts, next_with};
ghost use Rattle.afdx_send.specs.Nodes.{IsNode, greatest, rank_of};

use std::alloc::{AllocError, Global};
use std::marker::Model;

/// When a link's next release is. `place` is the link's.
#[derive(Clone, Copy, Debug, PartialEq, Eq, Drop)]
pub(crate) struct NextRelease {
    pub(crate) time: u64,
    pub(crate) place: usize,
}

/// A node: when a link's next release is, or that it has none. Then both numbers are the greatest.
#[derive(Debug, Drop)]
pub(crate) struct Node {
    time: u64,
    place: usize,
}

impl Model for Node {
    ghost use Rattle.std.specs.Prelude.{Option};
    ghost use Rattle.afdx_send.specs.declared.agenda.NextRelease.{NextRelease};

    ghost Value = { Option NextRelease };

    ghost use Rattle.afdx_send.specs.Nodes.{release_in};

    ghost view = { λ n. release_in n.time n.place };
}

/// When each link's next release is, kept so that the soonest of all is at hand: a tournament.
///
/// The nodes from `count` on are those of the links, in order of their places. Each node before
/// them, from 1 on, is the sooner of the two at twice its index and one more. So node 1 is the
/// soonest.
#[derive(Drop)]
pub(crate) struct ReleaseAgenda {
    count: usize,
    nodes: Vec<Node>,
}

/// A time with a place behind it.
fn joined(time: u64, place: usize) -> u128
    ensures sum { result ≡ time * 0x10000000000000000 + place }
    ensures time { time < 0x10000000000000000 }
    ensures place { place < 0x10000000000000000 }
{
    u128::from(time) * 0x1_0000_0000_0000_0000 + place as u128
}

/// Whether these two numbers say that there is no release.
fn is_none(time: u64, place: usize) -> bool
    ensures { result ≡ (time == greatest && place == greatest) }
{
    time == u64::MAX && place == usize::MAX
}

impl Node {
    /// No release.
    fn none() -> Node
        ensures { result ≡ None }
    {
        Node {
            time: u64::MAX,
            place: usize::MAX,
        }
    }

    /// What it goes by.
    fn rank(&self) -> u128
        ensures rank { result ≡ rank_of self.now }
        ensures small { IsNode self.now }
    {
        joined(self.time, self.place)
    }

    /// Another of the same.
    fn again(&self) -> Node
        ensures { result ≡ self.now }
    {
        Node {
            time: self.time,
            place: self.place,
        }
    }

    /// The release, if there is one.
    fn release(&self) -> Option<NextRelease>
        ensures { result ≡ self.now }
    {
        if is_none(self.time, self.place) {
            return None;
        }
        Some(NextRelease {
            time: self.time,
            place: self.place,
        })
    }
}

fn sooner(a: &Node, b: &Node) -> Node
    ensures { IsSooner result a.now b.now }
{
    if a.rank() <= b.rank() {
        a.again()
    } else {
        b.again()
    }
}

fn is_same(a: &Node, b: &Node) -> bool
    ensures { IsTrue result → a.now ≡ b.now }
{
    a.rank() == b.rank()
}

/// The node of a link.
fn leaf(time: Option<u64>, place: usize) -> Node
    requires { place < most_links }
    ensures { result ≡ option_map (next_with place) time }
{
    match time {
        Some(time) => Node { time, place },
        None => Node::none(),
    }
}

impl ReleaseAgenda {
    /// No link of so many has a release.
    pub(crate) fn new(alloc: Global, count: usize) -> Result<ReleaseAgenda, AllocError>
        requires { count ≤ most_links }
        ensures played { IfOk result (λ a. IsPlayed a) }
        ensures none { IfOk result (λ a. nexts a ≡ replicate count None) }
        ensures count { IfOk result (λ a. a.count ≡ count) }
    {
        let mut nodes = Vec::with_capacity(alloc, 2 * count)?;
        for _ in 0..2 * count {
            nodes.push(Node::none())?;
        }
        Ok(ReleaseAgenda { count, nodes })
    }

    /// The soonest release, and of those at one moment that of the link which stands first.
    pub(crate) fn first(&self) -> Option<NextRelease>
        requires played { IsPlayed self.now }
        ensures { MatchOption result ((t : ℕ) → NoneBefore (nexts self.now) t)
            (λ next. IsSoonest (nexts self.now) next.time next.place) }
    {
        if self.count == 0 {
            None
        } else {
            self.nodes[1].release()
        }
    }

    /// From now on the next release of the link at this place is then.
    pub(crate) fn set(&mut self, place: usize, time: Option<u64>)
        requires played { IsPlayed self.old }
        requires place { place < self.old.count }
        ensures played { IsPlayed self.new }
        ensures set { nexts self.new ≡ slice_set (nexts self.old) place time }
        ensures count { self.new.count ≡ self.old.count }
    {
        let mut node = self.count + place;
        self.nodes[node] = leaf(time, place);
        node /= 2;
        while node >= 1 {
            let winner = sooner(&self.nodes[2 * node], &self.nodes[2 * node + 1]);
            if is_same(&winner, &self.nodes[node]) {
                // Those above were played with it.
                return;
            }
            self.nodes[node] = winner;
            node /= 2;
        }
    }
}
