//! Encodings that were worked out by hand: their traversed nodes, their coverage queries and whether these are searched when
//! a path is encoded again, which no reply of the program shows. What replies show is tested by sessions of records.
#![tactic(auto)]

#[cfg(test)]
mod tests;
