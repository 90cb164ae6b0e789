//! What is published of a path.
ghost use Rattle.std.specs.Prelude.{◌≡◌, option_map, string_bytes, IfOk, ◌↔◌, ◌∷◌, [], map, IsTrue};
ghost use Rattle.std.specs.Result.{result_map_both, result_ok};
ghost use Rattle.olr_answers.specs.Answers.{answer_of, refusal_of};
ghost use Rattle.olr_commands.specs.Reply.{published_text, entry};

use olr_answers::{Answer, CoverageQuery, KnownQuery, Refusal};
use olr_binary::text::to_text;
use olr_commands::Entry;
use olr_model::Footprint;
use std::alloc::{AllocError, Global};

/// A path's answer, its text, its traversed nodes, its coverage queries, and those along its own lines.
#[derive(Drop)]
pub struct Published {
    pub(crate) answer: Answer,
    pub(crate) text: Option<String>,
    pub(crate) traversed: Footprint,
    pub(crate) queries: Vec<CoverageQuery>,
    pub(crate) known: Vec<KnownQuery>,
    ghost encoded: { option_map string_bytes text ≡ result_ok (published_text (answer_of answer)) },
}

impl Published {
    ghost use Rattle.olr_commands.specs.Words.{entry_of};
    ghost use Rattle.olr_paths.specs.Items.{results_of};

    /// What is published for an answer. It fails if there is no memory for the text.
    pub fn new(
        alloc: Global,
        answer: Answer,
        traversed: Footprint,
        queries: Vec<CoverageQuery>,
        known: Vec<KnownQuery>,
    ) -> Result<Published, AllocError>
        ensures { IfOk result (λ p. results_of p ≡ record {
          answer = answer_of answer;
          traversed = traversed;
          queries = queries.items;
          known = known.items;
        }) }
    {
        let text = match &answer {
            Answer::Points(reference) => Some(to_text(alloc, reference)?),
            Answer::Refused(_) => None,
        };
        Ok(Published {
            answer,
            text,
            traversed,
            queries,
            known,
        })
    }

    /// The answer.
    pub fn answer(&self) -> &Answer
        ensures { answer_of result.now ≡ (results_of self.now).answer }
    {
        &self.answer
    }

    /// The text of the reference. None if the path is not encodable.
    pub fn text(&self) -> Option<&str>
        ensures { option_map (λ t. t.now) result ≡ result_ok (published_text (results_of self.now).answer) }
    {
        self.text.as_deref()
    }

    /// The path's string, or the reason why it has none.
    pub fn string(&self) -> Result<&str, &Refusal>
        ensures { result_map_both (λ s. s.now) (λ r. refusal_of r.now) result ≡ published_text (results_of self.now).answer }
    {
        match self.answer() {
            Answer::Points(_) => Ok(self.text().unwrap()),
            Answer::Refused(refusal) => Err(refusal),
        }
    }

    /// The path's traversed nodes, in ascending order: those of its extended path and of the runs of degree-two nodes
    /// that were tried.
    pub fn traversed(&self) -> &Footprint
        ensures { result.now ≡ (results_of self.now).traversed }
    {
        &self.traversed
    }

    /// The coverage queries of the encoding, in the order of the LRPs at which they begin.
    pub fn queries(&self) -> &[CoverageQuery]
        ensures { result.now ≡ (results_of self.now).queries }
    {
        self.queries.as_slice()
    }

    /// The coverage queries along the path's own lines, in the order of the lines where they begin.
    pub fn known(&self) -> &[KnownQuery]
        ensures { result.now ≡ (results_of self.now).known }
    {
        self.known.as_slice()
    }

    /// Whether the other has the same answer, by their texts or their reasons.
    pub fn has_answer_of(&self, other: &Published) -> bool
        ensures { IsTrue result ↔ ((results_of self.now).answer ≡ (results_of other.now).answer) }
    {
        match (&self.answer, &other.answer) {
            (Answer::Points(one), Answer::Points(another)) => {
                // For the proof alone: the fields of both are in range.
                let _first = one.pos;
                let _second = another.pos;
                self.text() == other.text()
            }
            (Answer::Refused(one), Answer::Refused(another)) => one == another,
            _ => false,
        }
    }

    /// The entry of a reply under this name: the text, or the reason why there is none.
    pub fn entry(&self, alloc: Global, name: &str) -> Result<Entry, AllocError>
        ensures { IfOk result (λ e. entry_of e ≡ entry name.now (results_of self.now).answer) }
    {
        let name = String::from_str(alloc, name)?;
        let published = match self.string() {
            Ok(text) => Ok(String::from_str(alloc, text)?),
            Err(refusal) => Err(*refusal),
        };
        Ok(Entry { name, published })
    }

    /// The list of that entry alone.
    pub fn entry_alone(&self, alloc: Global, name: &str) -> Result<Vec<Entry>, AllocError>
        ensures { IfOk result (λ es. map entry_of es.items ≡ entry name.now (results_of self.now).answer ∷ []) }
    {
        let mut entries = Vec::new(alloc);
        entries.push(self.entry(alloc, name)?)?;
        Ok(entries)
    }
}
