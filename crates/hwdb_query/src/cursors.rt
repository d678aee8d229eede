//! A cursor over the answers of a database for a device.
//!
//! It gives the answers in order, and holds at most a page of them. So a reader of a few lines pays for these, and an
//! answer of any size takes bounded memory. A tree of patterns isn't in the order of the answers. So a descent finds
//! them all, and keeps the least ones after the last one that was given. So each page costs a descent, and one more
//! finds the end. A run to the end over many hits takes pages times values: [`effective`](crate::effective) and
//! [`explain`](crate::explain) take one descent for all, and memory for all.
//!
//! A page is resumed by a position and not by a place in the tree. So an answer can go on in another process, after
//! [`Position::read`](crate::Position::read).
ghost use Rattle.std.specs.Prelude.{◌≡◌, ◌<◌, ◌≤◌, ◌+◌, ◌⊎◌, ◌↔◌, ℕ, List, [], ◌∷◌, length, reverse, min, IfOk, IfSome, IsSome, IsOk, OnOk, OnErr, OnSome, IfErr, Option, Some, None, true, false, option_map, option_copied};
ghost use Rattle.hwdb_reader.specs.Views.{tree_of};
ghost use Rattle.hwdb_spec.specs.Tree.{answers_after, live_nodes};
ghost use Rattle.hwdb_query.specs.Views.{after_next, assignment_of_hit, fresh, position_value, next_position, given_position, still_to_come, Progress, Gives};

use crate::hit::{Hit, Parts};
use crate::hit_page::HitPage;
use crate::position::Position;
use crate::refill::{Filled, fill};
use hwdb_reader::Node;
use std::alloc::{AllocError, Global};
use std::marker::Model;

/// Yields the answers after a position, by priority, line, pattern and key, and holds at most a page of them.
///
/// A filling is one descent of the tree. It enters exactly the nodes on live paths, and keeps the least hits after the
/// last one that was yielded.
#[derive(Drop)]
pub struct Cursor<'a, 'd> {
    alloc: Global,
    root: Node<'a>,
    device: &'d [u8],
    after: Option<Position>,
    held: HitPage<'a>,
    ended: bool,
    entered: u64,
}

impl<'a, 'd> Model for Cursor<'a, 'd> {
    ghost Value = { Progress };

    ghost view = { λ c. record {
      to_come = still_to_come c.device.now (next_position c.after)
          (tree_of c.root) c.ended c.held.hits;
      held = length c.held.hits;
      page = c.held.most;
      ended = c.ended;
      entered = c.entered;
      live = live_nodes c.device.now (tree_of c.root);
    } };

    ghost invariant = { λ c. 0 < c.held.most };
}

impl<'a, 'd> Cursor<'a, 'd> {
    /// A cursor that holds nothing yet.
    pub(crate) fn start(
        alloc: Global,
        root: Node<'a>,
        device: &'d [u8],
        after: Option<Position>,
        page: usize,
    ) -> Cursor<'a, 'd>
        requires { 0 < page }
        ensures { result
            ≡ fresh (answers_after device.entry.now (next_position after) (tree_of root.entry)) page
            (live_nodes device.entry.now (tree_of root.entry)) }
    {
        Cursor {
            alloc,
            root,
            device,
            after,
            held: HitPage::new(alloc, page),
            ended: false,
            entered: 0,
        }
    }

    /// How many hits it holds: never more than its page. Takes no memory.
    pub fn held(&self) -> usize
        ensures value { result ≡ self.now.held }
        ensures within { result ≤ self.now.page }
    {
        self.held.len()
    }

    /// How many nodes its last finished filling entered: those with a live path. It is 0 before the first filling.
    /// Takes no memory.
    pub fn entered(&self) -> u64
        ensures { result ≡ self.now.entered }
    {
        self.entered
    }

    fn has_ended(&self) -> bool
        ensures value { result ≡ self.now.ended }
        ensures room { 0 < self.now.page }
        ensures over { self.now.ended ≡ true → self.now.held ≡ 0 → self.now.to_come ≡ [] }
    {
        self.ended
    }

    /// Takes the next of the hits that are held.
    fn take(&mut self) -> Option<Hit<'a>>
        ensures some { IfSome result
            (λ hit. self.old.to_come ≡ assignment_of_hit hit ∷ self.new.to_come) }
        ensures fewer { IfSome result (λ _. self.new.held + 1 ≡ self.old.held) }
        ensures none { result ≡ None → (self.new ≡ self.old) × (self.old.held ≡ 0) }
        ensures page { self.new.page ≡ self.old.page }
        ensures ended { self.new.ended ≡ self.old.ended }
        ensures entered { self.new.entered ≡ self.old.entered }
        ensures live { self.new.live ≡ self.old.live }
    {
        self.held.pop()
    }

    /// Fills the list with a page.
    fn fill_page(&mut self) -> Result<(), AllocError>
        requires empty { self.old.held ≡ 0 }
        requires open { self.old.ended ≡ false }
        ensures same { OnErr result (self.new ≡ self.old) }
        ensures to_come { OnOk result (self.new.to_come ≡ self.old.to_come) }
        ensures held { OnOk result (self.new.held ≡ min self.old.page (length self.old.to_come)) }
        ensures entered { OnOk result (self.new.entered ≡ self.old.live) }
        ensures ended { OnOk result (self.new.held ≡ 0 → self.new.ended ≡ true) }
        ensures open { OnOk result (0 < self.new.held → self.new.ended ≡ false) }
        ensures page { self.new.page ≡ self.old.page }
        ensures live { self.new.live ≡ self.old.live }
    {
        let after = match &self.after {
            None => None,
            Some(position) => Some(position.parts()),
        };
        let Filled { last, entered } = fill(
            self.alloc,
            self.root,
            self.device,
            after,
            &mut self.held,
        )?;
        self.entered = entered;
        match last {
            None => {
                self.ended = true;
            }
            Some(position) => {
                self.after = Some(position);
            }
        }
        Ok(())
    }

    /// The next hit, or `None` at the end and from then on.
    ///
    /// Fills its list if no hit is held and the end wasn't answered. Else it takes no memory. The only error is
    /// `AllocError`. After it the cursor is what it was: the call can be made again.
    pub fn next(&mut self) -> Result<Option<Hit<'a>>, AllocError>
        ensures gives { IfOk result (Gives self.old.to_come self.new.to_come) }
        ensures step { OnOk result (self.new ≡ after_next self.old) }
        ensures same { OnErr result (self.new ≡ self.old) }
        ensures no_memory { ((0 < self.old.held) ⊎ (self.old.ended ≡ true)) → IsOk result }
        ensures filled { IfOk result
            (λ r. IsSome r → self.old.held ≡ 0
            → self.new.held + 1 ≡ min self.old.page (length self.old.to_come)) }
        ensures end { IfOk result (λ r. r ≡ None → (self.new.held ≡ 0) × (self.new.ended ≡ true)) }
    {
        if let Some(hit) = self.take() {
            return Ok(Some(hit));
        }
        if self.has_ended() {
            return Ok(None);
        }
        self.fill_page()?;
        Ok(self.take())
    }
}
