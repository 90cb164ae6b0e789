//! What the encoder's answers mean: the definitions in `specs/`, as mathematics.
//!
//! A road map, a path, a reference and its bytes are mathematical values here: finite maps, lists
//! and whole numbers. The contracts of the other crates refer to these definitions; nothing here is
//! executed. In reading order: `Coordinates`, `Degrees`, `Map`, `Routes`, `Margins`,
//! `Extension`, `Points`, `Bearings`, `Reference`, `Encoding`, `Bytes`, `Decoded`, `Joins`, `Detours`, `Queries`,
//! `Footprint`, `Receiver`, `Recovery`, `Elsewhere`, `Split`, and `Laws`, which says what follows from them. `Codes`
//! defines how the values are stored, for the compiler.
//!
//! The lemmas in `proofs/` are those that the other crates cite. That all laws hold, and rows that
//! were worked out by hand, are the contracts of `olr_laws`.
#![tactic(auto)]
