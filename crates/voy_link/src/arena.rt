ghost use Rattle.std.specs.Prelude.{◌≡◌, ◌+◌, ◌<◌, ◌≤◌, length, max, None, Some, IsSome, IfOk, OnOk, OnErr};

use crate::nodes::Nodes;
use crate::steps::Steps;
use std::alloc::{AllocError, Global};
use std::marker::Model;

/// How many nodes an arena can have at most: each has a place below the value for none. Callers ask for no more.
pub const MAX_NODES: u32 = u32::MAX - 1;

/// Nodes that stand in two lists at once, that of their bucket and that of their lane.
///
/// A node is known by its id, which is its place in the vectors. To put a node in, to take one out and to find
/// the next of a list takes the same few steps however many nodes there are.
///
/// Contracts see the nodes in order of insertion, with `spare`, `buckets` and `lanes` (`Contents` in
/// `specs/Arena.antt`). The numbers of buckets and lanes never change.
#[derive(Drop)]
pub struct Arena<T: Copy> {
    nodes: Nodes<T>,
}

impl<T: Copy> Model for Arena<T> {
    ghost use Rattle.voy_link.specs.Arena.{Contents, contents_code};

    ghost Value = { Contents T };

    ghost coded = { contents_code T.code };

    ghost use Rattle.voy_link.specs.Nodes.{contents_of, AreSound};

    ghost view = { λ arena. contents_of arena.nodes };

    ghost invariant = { λ arena. AreSound arena.nodes };
}

impl<T: Copy> Arena<T> {
    ghost use Rattle.voy_link.specs.Arena.{empty_contents, node_of, item_of, inserted, removed, with_spare, first_id, last_id, prev_id, in_bucket, in_lane};

    /// An arena without nodes, with room for so many.
    pub fn with_capacity(
        alloc: Global,
        nodes: u32,
        buckets: u32,
        lanes: u32,
    ) -> Result<Arena<T>, AllocError>
        requires nodes { nodes ≤ MAX_NODES }
        requires buckets { 0 < buckets }
        requires lanes { 0 < lanes }
        ensures { IfOk result (λ arena. arena ≡ empty_contents nodes buckets lanes) }
    {
        let mut made = Nodes::new(alloc, buckets, lanes)?;
        made.reserve(nodes)?;
        Ok(Arena { nodes: made })
    }

    /// Makes room for `more` nodes beside those that are there. After an error nothing changed.
    pub fn reserve(&mut self, more: u32) -> Result<(), AllocError>
        requires { length self.old.nodes + more ≤ MAX_NODES }
        ensures ok { OnOk result (self.new ≡ with_spare self.old (max self.old.spare more)) }
        ensures err { OnErr result (self.new ≡ self.old) }
    {
        self.nodes.reserve(more)
    }

    /// How many nodes can be put in before `reserve` has to make room.
    pub fn spare(&self) -> u32
        ensures { result ≡ self.now.spare }
    {
        self.nodes.spare()
    }

    /// Puts a node behind all others, last in its bucket and in its lane, and gives its id, which no other node has.
    pub fn insert(&mut self, bucket: u32, lane: u32, item: T) -> u32
        requires spare { 0 < self.old.spare }
        requires bucket { bucket < self.old.buckets }
        requires lane { lane < self.old.lanes }
        ensures fresh { node_of self.old.nodes result ≡ None }
        ensures inserted { self.new ≡ inserted self.old result bucket lane item }
    {
        self.nodes.insert(bucket, lane, item)
    }

    /// Takes a node out of both its lists, and gives its item. All other nodes keep their order.
    pub fn remove<L>(&mut self, id: u32, steps: &mut Steps<L>) -> T
        requires { IsSome (node_of self.old.nodes id) }
        ensures item { item_of self.old.nodes id ≡ Some result }
        ensures removed { self.new ≡ removed self.old id }
        ensures step { steps.new.count ≡ steps.old.count + 1 }
    {
        steps.tick();
        self.nodes.remove(id)
    }

    /// The item of a node.
    pub fn item<L>(&self, id: u32, steps: &mut Steps<L>) -> T
        requires { IsSome (node_of self.now.nodes id) }
        ensures item { item_of self.now.nodes id ≡ Some result }
        ensures step { steps.new.count ≡ steps.old.count + 1 }
    {
        steps.tick();
        self.nodes.item(id)
    }

    /// The id of the last node of a bucket, `None` where it has none.
    pub fn last_in_bucket<L>(&self, bucket: u32, steps: &mut Steps<L>) -> Option<u32>
        ensures last { result ≡ last_id (in_bucket self.now.nodes bucket) }
        ensures step { steps.new.count ≡ steps.old.count + 1 }
    {
        steps.tick();
        self.nodes.last_in_bucket(bucket)
    }

    /// The id of the node before this one in its bucket, `None` where it is the first.
    pub fn prev_in_bucket<L>(&self, id: u32, steps: &mut Steps<L>) -> Option<u32>
        requires { IsSome (node_of self.now.nodes id) }
        ensures prev { result ≡ prev_id self.now.nodes id }
        ensures step { steps.new.count ≡ steps.old.count + 1 }
    {
        steps.tick();
        self.nodes.prev_in_bucket(id)
    }

    /// The id of the first node of a lane, `None` where it has none.
    pub fn first_in_lane<L>(&self, lane: u32, steps: &mut Steps<L>) -> Option<u32>
        ensures first { result ≡ first_id (in_lane self.now.nodes lane) }
        ensures step { steps.new.count ≡ steps.old.count + 1 }
    {
        steps.tick();
        self.nodes.first_in_lane(lane)
    }
}
