//! Counts of the work done.

/// How much was encoded and searched. Each count saturates at the greatest `u64`. A register counts encodings alone.
#[derive(Clone, Copy, Debug, Default, PartialEq, Eq)]
pub struct Work {
    /// Encodings of paths. An affected path that retains its answer counts as one, though it is not encoded.
    pub encodings: u64,
    /// Searches for labels, or for the nodes that coverage queries reach.
    pub searches: u64,
    /// Nodes that these searches found, in total.
    pub settled: u64,
}

impl Work {
    ghost use Rattle.std.specs.Prelude.{◌≡◌};
    ghost use Rattle.olr_search.specs.Counts.{no_work, raised_count, raised_work};

    /// No work.
    pub fn none() -> Work
        ensures { result ≡ no_work }
    {
        Work {
            encodings: 0,
            searches: 0,
            settled: 0,
        }
    }

    /// This work and one encoding more.
    pub fn encoded(self) -> Work
        ensures { result ≡ record self { encodings = raised_count self.encodings 1 } }
    {
        Work {
            encodings: self.encodings.saturating_add(1),
            ..self
        }
    }

    /// This work and some more: the sums of their counts.
    pub fn plus(self, more: Work) -> Work
        ensures { result ≡ raised_work self more }
    {
        Work {
            encodings: self.encodings.saturating_add(more.encodings),
            searches: self.searches.saturating_add(more.searches),
            settled: self.settled.saturating_add(more.settled),
        }
    }
}
