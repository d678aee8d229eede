//! Answers by key.
ghost use Rattle.std.specs.Prelude.{◌≡◌, List, [], ◌∷◌, ◌++◌, map, IfOk, OnOk};
ghost use Rattle.hwdb_spec.specs.Assignment.{Assignment};
ghost use Rattle.hwdb_query.specs.Views.{assignment_of_answer, explained_values};

use crate::answer::{Explained, StoredAssignment};
use std::alloc::{AllocError, Global};
use std::collections::BTreeMap;

/// The answers so far by key, the last one of a key after the others.
#[derive(Drop)]
pub(crate) struct AnswersByKey<'a> {
    pub answers: BTreeMap<&'a [u8], Vec<StoredAssignment<'a>>>,
}

impl<'a> AnswersByKey<'a> {
    ghost use Rattle.hwdb_query.specs.Internal.Explaining.{IsByKey, explained_entry};

    /// No answers.
    pub(crate) fn new(alloc: Global) -> AnswersByKey<'a>
        ensures { result.answers.entries ≡ [] }
    {
        AnswersByKey {
            answers: BTreeMap::new(alloc),
        }
    }

    /// Adds an answer that comes after all so far.
    pub(crate) fn add(
        &mut self,
        alloc: Global,
        answer: StoredAssignment<'a>,
    ) -> Result<(), AllocError>
        ensures { OnOk result ((before : List Assignment) → IsByKey self.old before
            → IsByKey self.new (before ++ assignment_of_answer answer.entry ∷ [])) }
    {
        let key = answer.key;
        if let Some(answers) = self.answers.get_mut(key) {
            answers.push(answer)?;
            return Ok(());
        }
        let mut answers = Vec::new(alloc);
        answers.push(answer)?;
        self.answers.insert(key, answers)?;
        Ok(())
    }

    /// The keys and their answers, ascending by key, the last answer first.
    pub(crate) fn explained(self, alloc: Global) -> Result<Vec<Explained<'a>>, AllocError>
        ensures { IfOk result (λ list. explained_values list.items
            ≡ map explained_entry self.entry.answers.entries) }
    {
        let mut list = Vec::new(alloc);
        for (key, mut answers) in self.answers {
            answers.reverse();
            list.push(Explained { key, answers })?;
        }
        Ok(list)
    }
}
