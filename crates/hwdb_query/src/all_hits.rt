//! All hits, each at its position: a sorted map, so that a hit costs the logarithm of their number.
ghost use Rattle.std.specs.Prelude.{◌≡◌, [], ◌∷◌, IfOk, OnOk};
ghost use Rattle.hwdb_query.specs.Internal.Members.{assignment_shown};
ghost use Rattle.hwdb_query.specs.Views.{assignment_of_answer};
ghost use Rattle.hwdb_reader.specs.Views.{entry_shows};

use crate::answer::StoredAssignment;
use crate::by_key::AnswersByKey;
use crate::collector::Collector;
use crate::node_answers::shared;
use hwdb_reader::{Entry, Inside};
use std::alloc::{AllocError, Global};
use std::collections::BTreeMap;
use std::rc::Rc;

/// The position of a hit: its priority, line, pattern and key. The hits of a pattern share one copy of it.
type HitPlace<'a> = (u16, u32, Rc<Vec<u8>>, &'a [u8]);

/// What a hit has beside its position.
#[derive(Clone, Copy)]
pub(crate) struct HitValue<'a> {
    pub value: &'a [u8],
    pub path: &'a [u8],
}

/// All hits so far, by position.
#[derive(Drop)]
pub(crate) struct AllHits<'a> {
    pub hits: BTreeMap<HitPlace<'a>, HitValue<'a>>,
}

impl<'a> AllHits<'a> {
    ghost use Rattle.hwdb_query.specs.Internal.Explaining.{AllCollects, all_shown, IsByKey};

    /// No hits.
    pub(crate) fn new(alloc: Global) -> AllHits<'a>
        ensures { result.hits.entries ≡ [] }
    {
        AllHits {
            hits: BTreeMap::new(alloc),
        }
    }

    /// Takes what one value assigns at a pattern.
    fn offer(&mut self, pattern: &Rc<Vec<u8>>, entry: Entry<'a>) -> Result<(), AllocError>
        ensures { OnOk result
            (AllCollects self.old
            (assignment_shown pattern.now.value.items (entry_shows entry.entry)) self.new) }
    {
        let Some(key) = entry.key else {
            return Ok(());
        };
        let place = (entry.priority, entry.line, pattern.clone()?, key);
        let content = HitValue {
            value: entry.value,
            path: entry.path,
        };
        self.hits.insert(place, content)?;
        Ok(())
    }

    /// Takes an answer that was found elsewhere.
    pub(crate) fn take(&mut self, found: &StoredAssignment<'a>) -> Result<(), AllocError>
        ensures { OnOk result
            (AllCollects self.old (assignment_of_answer found.now ∷ []) self.new) }
    {
        let place = (
            found.priority,
            found.line,
            found.pattern.clone()?,
            found.key,
        );
        let content = HitValue {
            value: found.value,
            path: found.path,
        };
        self.hits.insert(place, content)?;
        Ok(())
    }

    /// The hits by key.
    pub(crate) fn by_key(self, alloc: Global) -> Result<AnswersByKey<'a>, AllocError>
        ensures { IfOk result (λ by_key. IsByKey by_key (all_shown self.entry)) }
    {
        let mut by_key = AnswersByKey::new(alloc);
        for (place, content) in self.hits {
            let (priority, line, pattern, key) = place;
            let answer = StoredAssignment {
                priority,
                line,
                pattern,
                key,
                value: content.value,
                path: content.path,
            };
            by_key.add(alloc, answer)?;
        }
        Ok(by_key)
    }
}

impl<'a> Collector<'a> for AllHits<'a> {
    ghost use Rattle.hwdb_query.specs.Internal.Explaining.{AllCollects};

    ghost collects = { AllCollects };

    fn collect(
        &mut self,
        alloc: Global,
        inside: Inside<'a>,
        pattern: &[u8],
    ) -> Result<(), AllocError> {
        let shared = shared(alloc, pattern)?;
        for i in 0..inside.values() {
            self.offer(&shared, inside.value(i))?;
        }
        Ok(())
    }

    fn law_collects(&self) {}
}
