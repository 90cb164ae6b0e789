//! How far a node is from a decoded coordinate, for every receiver.
ghost use Rattle.std.specs.Prelude.{◌≡◌, ◌≤◌, ◌*◌, ◌^◌, ◌-ℤ◌, nat_abs};
ghost use Rattle.olr_spec.specs.Recovery.{lat_apart, lon_apart};
ghost use Rattle.olr_spec.specs.Ambiguity.{cosine_up_to, is_farther, least_cosine};
ghost use Rattle.olr_ambiguity.specs.Places.{IsPlaced, place_of};

use olr_coords::Coord;

/// A thousandth of a degree, in units.
const THOUSANDTH: u128 = 327_680_000;
/// One, in the millionths of a cosine.
pub(crate) const ONE: u128 = 1_000_000;
/// By how much farther a node is without its bearing mattering: 3.4 m, in units (profile).
pub(crate) const SLACK: u128 = 10_000_000;

/// A decoded longitude and latitude, in units of 1/327,680,000,000 degree.
#[derive(Clone, Copy)]
pub(crate) struct DecodedPlace {
    pub lon: i128,
    pub lat: i128,
}

/// The difference of two longitudes or latitudes.
fn apart(decoded: i128, coordinate: i64) -> u128
    requires { nat_abs decoded ≤ 10 ^ 31 }
    ensures { result ≡ nat_abs (decoded -ℤ coordinate) }
{
    (decoded - i128::from(coordinate)).unsigned_abs()
}

/// The difference in longitude, in units.
pub(crate) fn lon_apart(place: DecodedPlace, coord: Coord) -> u128
    requires { IsPlaced place }
    ensures value { result ≡ lon_apart (place_of place) coord }
    ensures small { result ≤ 2 * 10 ^ 31 }
{
    apart(place.lon, coord.lon())
}

/// The difference in latitude, in units.
pub(crate) fn lat_apart(place: DecodedPlace, coord: Coord) -> u128
    requires { IsPlaced place }
    ensures value { result ≡ lat_apart (place_of place) coord }
    ensures small { result ≤ 2 * 10 ^ 31 }
{
    apart(place.lat, coord.lat())
}

/// A lower bound of the cosines of receivers up to an absolute latitude, in millionths: 98 hundredths of Bhaskara's.
pub(crate) fn cosine_up_to(latitude: u128) -> u128
    ensures value { result ≡ cosine_up_to latitude }
    ensures small { result ≤ 980000 }
{
    let thousandths = latitude / THOUSANDTH + 1;
    if thousandths >= 90_000 {
        return 0;
    }
    let square = thousandths * thousandths;
    980_000 * (4 * (8_100_000_000 - square)) / (32_400_000_000 + square)
}

/// The same at the greater of two latitudes.
fn least_cosine(place: DecodedPlace, coord: Coord) -> u128
    ensures value { result ≡ least_cosine (place_of place) coord }
    ensures small { result ≤ 980000 }
{
    let latitude = u128::from(coord.lat().unsigned_abs());
    cosine_up_to(place.lat.unsigned_abs().max(latitude))
}

/// Whether a node at `other` is farther from a decoded coordinate than one at `own`, by more than `more` units, for every
/// receiver.
pub(crate) fn is_farther(more: u128, place: DecodedPlace, own: Coord, other: Coord) -> bool
    requires more { more ≤ 10000000 }
    requires place { IsPlaced place }
    ensures { result ≡ is_farther more (place_of place) own other }
{
    let near = lon_apart(place, own) + lat_apart(place, own) + more;
    near < lat_apart(place, other)
        || ONE * near < least_cosine(place, other) * lon_apart(place, other)
}
