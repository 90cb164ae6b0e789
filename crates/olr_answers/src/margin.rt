//! The margin with which a path is encoded.
ghost use Rattle.std.specs.Prelude.{◌≡◌, ◌≤◌, ◌*◌, IsTrue, SomeIff};
ghost use Rattle.olr_spec.specs.Margins.{Margin as Record, is_margin, no_margin, counted_dm, allowed};

use std::marker::Model;

/// The greatest part of its length by which a line counts longer, in thousandths.
const MOST_ROUTES: u32 = 1000;
/// The least important functional road class, which is the greatest number.
const LEAST_CLASS: u8 = 7;

/// How much longer the lines between two location reference points (LRPs) count where it is tested whether they are the
/// unique shortest route, and by how many classes the lowest class to the next LRP (LFRCNP) is less important than that
/// of the leg.
#[derive(Clone, Copy, PartialEq, Eq)]
pub struct Margin {
    routes: u32,
    classes: u8,
}

impl Model for Margin {
    ghost Value = { Record };

    ghost view = { λ m. record { routes = m.routes; classes = m.classes } };

    ghost inverse = { λ m. record { routes = m.routes; classes = m.classes } };

    ghost invariant = { λ m. IsTrue (is_margin (record { routes = m.routes; classes = m.classes })) };
}

impl Margin {
    /// The margin of so many thousandths of the length of each line, at most 1000, and so many classes, at most 7. None
    /// only if one of them is greater.
    pub fn new(routes: u32, classes: u8) -> Option<Margin>
        ensures { SomeIff result (IsTrue (is_margin (record { routes = routes; classes = classes })))
            (record { routes = routes; classes = classes }) }
    {
        if routes > MOST_ROUTES || classes > LEAST_CLASS {
            return None;
        }
        Some(Margin { routes, classes })
    }

    /// No margin: nothing counts longer, and the LFRCNP is the class of the leg.
    pub fn none() -> Margin
        ensures { result ≡ no_margin }
    {
        Margin {
            routes: 0,
            classes: 0,
        }
    }

    /// The part of its length by which a line counts longer, in thousandths.
    pub fn routes(self) -> u32
        ensures value { result ≡ self.routes }
        ensures margin { IsTrue (is_margin self) }
    {
        self.routes
    }

    /// By how many classes the LFRCNP is less important than the leg.
    pub fn classes(self) -> u8
        ensures value { result ≡ self.classes }
        ensures margin { IsTrue (is_margin self) }
    {
        self.classes
    }

    /// The length that a line of this length counts where it is one of the lines between two LRPs, in decimetres. What is
    /// added is rounded up.
    pub fn counted(self, len: u32) -> u64
        ensures value { result ≡ counted_dm self len }
        ensures most { result ≤ 2 * len }
    {
        let len = u64::from(len);
        len + (len * u64::from(self.routes) + 999) / 1000
    }

    /// The LFRCNP of a leg of this class.
    pub fn allowed(self, class: u8) -> u8
        ensures { result ≡ allowed self class }
    {
        if self.classes == 0 {
            return class;
        }
        LEAST_CLASS.min(class.saturating_add(self.classes))
    }
}
