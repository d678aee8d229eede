//! The last hit of each key: a map from keys, without an order among the others.
ghost use Rattle.std.specs.Prelude.{◌≡◌, List, [], ◌∷◌, IfOk, OnOk};
ghost use Rattle.hwdb_query.specs.Internal.Members.{assignment_shown};
ghost use Rattle.hwdb_reader.specs.Views.{entry_shows};
ghost use Rattle.hwdb_spec.specs.Assignment.{Assignment};
ghost use Rattle.hwdb_spec.specs.Answers.{is_after, effective_of};
ghost use Rattle.hwdb_query.specs.Internal.Hits.{parts_position};
ghost use Rattle.hwdb_query.specs.Views.{assignment_of_answer, pairs_bytes};

use crate::answer::StoredAssignment;
use crate::collector::Collector;
use crate::hit::{Parts, order};
use crate::node_answers::shared;
use hwdb_reader::{Entry, Inside};
use std::alloc::{AllocError, Global};
use std::cmp::Ordering;
use std::collections::BTreeMap;
use std::rc::Rc;

/// The last hit of a key so far. The hits of a pattern share one copy of it.
#[derive(Drop)]
pub(crate) struct Last<'a> {
    pub priority: u16,
    pub line: u32,
    pub pattern: Rc<Vec<u8>>,
    pub value: &'a [u8],
}

impl<'a> Last<'a> {
    ghost use Rattle.hwdb_query.specs.Internal.Collected.{told_last};

    /// What the order looks at.
    fn parts<'p>(&'p self, key: &'p [u8]) -> Parts<'p>
        ensures { parts_position result ≡ (told_last key.now self.now).0 }
    {
        Parts {
            priority: self.priority,
            line: self.line,
            pattern: &self.pattern,
            key,
        }
    }
}

/// The last hit of each key so far.
#[derive(Drop)]
pub(crate) struct LastHits<'a> {
    pub hits: BTreeMap<&'a [u8], Last<'a>>,
}

impl<'a> LastHits<'a> {
    ghost use Rattle.hwdb_query.specs.Internal.Collected.{position_at, Shows, LastCollects};

    /// No hits.
    pub(crate) fn new(alloc: Global) -> LastHits<'a>
        ensures { result.hits.entries ≡ [] }
    {
        LastHits {
            hits: BTreeMap::new(alloc),
        }
    }

    /// Whether a hit of a key comes after the one that the key has, if it has one.
    fn is_last(&self, parts: Parts<'_>) -> bool
        ensures { result
            ≡ is_after (position_at self.now.hits parts.entry.key.now)
            (parts_position parts.entry) }
    {
        match self.hits.get(parts.key) {
            None => true,
            Some(last) => match order(last.parts(parts.key), parts) {
                Ordering::Less => true,
                _ => false,
            },
        }
    }

    /// Offers what one value assigns at a pattern.
    fn offer(&mut self, pattern: &Rc<Vec<u8>>, entry: Entry<'a>) -> Result<(), AllocError>
        ensures { OnOk result
            (LastCollects self.old
            (assignment_shown pattern.now.value.items (entry_shows entry.entry)) self.new) }
    {
        let Some(key) = entry.key else {
            return Ok(());
        };
        let parts = Parts {
            priority: entry.priority,
            line: entry.line,
            pattern,
            key,
        };
        if self.is_last(parts) {
            let last = Last {
                priority: entry.priority,
                line: entry.line,
                pattern: pattern.clone()?,
                value: entry.value,
            };
            self.hits.insert(key, last)?;
        }
        Ok(())
    }

    /// Takes one answer.
    pub(crate) fn take(&mut self, found: &StoredAssignment<'a>) -> Result<(), AllocError>
        ensures { OnOk result
            (LastCollects self.old (assignment_of_answer found.now ∷ []) self.new) }
    {
        let parts = Parts {
            priority: found.priority,
            line: found.line,
            pattern: &found.pattern,
            key: found.key,
        };
        if self.is_last(parts) {
            let last = Last {
                priority: found.priority,
                line: found.line,
                pattern: found.pattern.clone()?,
                value: found.value,
            };
            self.hits.insert(found.key, last)?;
        }
        Ok(())
    }

    /// The keys and their values, ascending by key.
    pub(crate) fn pairs(self, alloc: Global) -> Result<Vec<(&'a [u8], &'a [u8])>, AllocError>
        ensures { IfOk result (λ list. (hits : List Assignment) → Shows self.entry.hits hits
            → pairs_bytes list.items ≡ effective_of hits) }
    {
        let mut pairs = Vec::new(alloc);
        for (key, last) in self.hits {
            pairs.push((key, last.value))?;
        }
        Ok(pairs)
    }
}

impl<'a> Collector<'a> for LastHits<'a> {
    ghost use Rattle.hwdb_query.specs.Internal.Collected.{LastCollects};

    ghost collects = { LastCollects };

    fn collect(
        &mut self,
        alloc: Global,
        inside: Inside<'a>,
        pattern: &[u8],
    ) -> Result<(), AllocError> {
        let shared = shared(alloc, pattern)?;
        for i in 0..inside.values() {
            self.offer(&shared, inside.value(i))?;
        }
        Ok(())
    }

    fn law_collects(&self) {}
}
