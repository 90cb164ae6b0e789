//! Which location reference points (LRPs) remain when the offsets cut off whole legs at the two ends of a path (White
//! Paper, encoding steps, trimming; in this form: profile).
ghost use Rattle.std.specs.Prelude.{◌+◌, ◌<◌};
ghost use Rattle.olr_refs.specs.KeptPoints.{AreAlong, AreTrimmed, IsFirstKept, IsLastKept, whole_distance};

/// The index of the first remaining LRP: the last that is at most `pos` decimetres from the start.
fn first_kept(distances: &[u128], points: &[usize], pos: u64) -> usize
    requires { AreAlong distances.now points.now }
    ensures { IsFirstKept distances.now points.now pos result }
{
    let mut first = 0;
    while first + 1 < points.len() && distances[points[first + 1]] <= u128::from(pos) {
        first += 1;
    }
    first
}

/// The index of the last remaining LRP: the first that is at most `neg` decimetres from the end.
fn last_kept(distances: &[u128], points: &[usize], neg: u64) -> usize
    requires { AreAlong distances.now points.now }
    ensures { IsLastKept distances.now points.now neg result }
{
    let end = distances[distances.len() - 1];
    let mut last = points.len() - 1;
    while last > 0 && end - distances[points[last - 1]] <= u128::from(neg) {
        last -= 1;
    }
    last
}

/// The remaining LRPs, and the remainders of the offsets.
#[derive(Clone, Copy)]
pub struct Trimmed<'a> {
    /// The remaining LRPs.
    pub points: &'a [usize],
    /// The remainder of the positive offset, in decimetres.
    pub pos: u128,
    /// The remainder of the negative offset, in decimetres.
    pub neg: u128,
}

/// Cuts the offsets, in decimetres, off the two ends of a path. Together they are shorter than the path.
pub fn trim<'a>(distances: &[u128], points: &'a [usize], pos: u64, neg: u64) -> Trimmed<'a>
    requires along { AreAlong distances.now points.now }
    requires long { pos + neg < whole_distance distances.now }
    ensures { AreTrimmed distances.now points.now pos neg result.points.now result.pos result.neg }
{
    let first = first_kept(distances, points, pos);
    let last = last_kept(distances, points, neg);
    let behind = distances[distances.len() - 1] - distances[points[last]];
    Trimmed {
        points: &points[first..last + 1],
        pos: u128::from(pos) - distances[points[first]],
        neg: u128::from(neg) - behind,
    }
}
