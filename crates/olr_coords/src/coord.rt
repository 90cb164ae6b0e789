//! Coordinates on the earth.
ghost use Rattle.std.specs.Prelude.{◌≡◌, ◌↔◌, IsTrue, IsSome, IfSome};
ghost use Rattle.olr_spec.specs.Coordinates.{Coord as Place, is_coord, coord};
ghost use Rattle.olr_coords.specs.Bounds.{is_degrees};

use std::marker::Model;

/// The lowest longitude, -180 degrees.
const LEAST_LON: i64 = -58_982_400_000_000;
/// The highest longitude, 179.9999 degrees.
const GREATEST_LON: i64 = 58_982_367_232_000;
/// The highest latitude, 89.9999 degrees; the lowest is its negative.
const GREATEST_LAT: i64 = 29_491_167_232_000;

/// A coordinate: its longitude and latitude in units of 1/327,680,000,000 degree. The longitude is from -180 to
/// 179.9999 degrees and the latitude from -89.9999 to 89.9999 degrees (profile).
#[derive(Clone, Copy, Debug, PartialEq, Eq)]
pub struct Coord {
    lon: i64,
    lat: i64,
}

impl Model for Coord {
    ghost Value = { Place };

    ghost view = { λ c. coord c.lon c.lat };

    ghost invariant = { λ c. IsTrue (is_coord (coord c.lon c.lat)) };

    ghost inverse = { λ p. record { lon = p.lon; lat = p.lat } };
}

impl Coord {
    /// The coordinate with this longitude and latitude, in units. None exactly if one of them is out of range.
    pub fn new(lon: i64, lat: i64) -> Option<Coord>
        ensures inside { IsSome result ↔ IsTrue (is_coord (coord lon lat)) }
        ensures value { IfSome result (λ c. c ≡ coord lon lat) }
    {
        if (LEAST_LON..=GREATEST_LON).contains(&lon)
            && (-GREATEST_LAT..=GREATEST_LAT).contains(&lat)
        {
            Some(Coord { lon, lat })
        } else {
            None
        }
    }

    /// The longitude, in units.
    pub fn lon(self) -> i64
        ensures value { result ≡ self.lon }
        ensures range { IsTrue (is_coord self) }
        ensures degrees { IsTrue (is_degrees result) }
    {
        self.lon
    }

    /// The latitude, in units.
    pub fn lat(self) -> i64
        ensures value { result ≡ self.lat }
        ensures range { IsTrue (is_coord self) }
        ensures degrees { IsTrue (is_degrees result) }
    {
        self.lat
    }
}
