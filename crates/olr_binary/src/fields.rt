//! The fields of a line location reference.
ghost use Rattle.olr_spec.specs.Bytes.{IsReference};
ghost use Rattle.olr_spec.specs.Reference as fields;

use std::marker::Model;

/// The attributes of each location reference point (LRP) but the last: of the line that leaves it, and of the leg to
/// the next.
#[derive(Clone, Copy, Debug, PartialEq, Eq)]
pub struct Attrs {
    /// The functional road class (FRC) of the line, from 0 to 7; 0 is the most important.
    pub frc: u8,
    /// The form of way (FOW) of the line, from 0 to 7.
    pub fow: u8,
    /// The lowest FRC to the next point (LFRCNP): the greatest class number of the leg, from 0 to 7.
    pub lfrc: u8,
    /// The sector of the bearing, from 0 to 31, each of 11.25 degrees, clockwise from north.
    pub bearing: u8,
    /// The distance to the next point (DNP), in steps of 58.6 m, rounded down (profile).
    pub dnp: u8,
}

impl Model for Attrs {
    ghost Value = { fields.Attrs };

    ghost view = { λ a. record { frc = a.frc; fow = a.fow; lfrc = a.lfrc; bearing = a.bearing; dnp = a.dnp } };

    ghost inverse = { λ a. record { frc = a.frc; fow = a.fow; lfrc = a.lfrc; bearing = a.bearing; dnp = a.dnp } };
}

/// The first LRP.
#[derive(Clone, Copy, Debug, PartialEq, Eq)]
pub struct First {
    /// The longitude, in 24-bit steps of 360 degrees / 2^24.
    pub lon: i32,
    /// The latitude, in the same steps.
    pub lat: i32,
    /// The attributes.
    pub attrs: Attrs,
}

impl Model for First {
    ghost Value = { fields.First };

    ghost view = { λ p. record { lon = p.lon; lat = p.lat; attrs = p.attrs } };

    ghost inverse = { λ p. record { lon = p.lon; lat = p.lat; attrs = p.attrs } };
}

/// An LRP between the first and the last.
#[derive(Clone, Copy, Debug, PartialEq, Eq)]
pub struct Middle {
    /// The longitude minus that of the LRP before, in steps of 10^-5 degree.
    pub dlon: i16,
    /// The latitude minus that of the LRP before, in the same steps.
    pub dlat: i16,
    /// The attributes.
    pub attrs: Attrs,
}

impl Model for Middle {
    ghost Value = { fields.Middle };

    ghost view = { λ p. record { dlon = p.dlon; dlat = p.dlat; attrs = p.attrs } };

    ghost inverse = { λ p. record { dlon = p.dlon; dlat = p.dlat; attrs = p.attrs } };
}

/// The last LRP, with the attributes of the line that enters it.
#[derive(Clone, Copy, Debug, PartialEq, Eq)]
pub struct Last {
    /// The longitude minus that of the LRP before, in steps of 10^-5 degree.
    pub dlon: i16,
    /// The latitude minus that of the LRP before, in the same steps.
    pub dlat: i16,
    /// The functional road class (FRC) of the line, from 0 to 7.
    pub frc: u8,
    /// The form of way (FOW) of the line, from 0 to 7.
    pub fow: u8,
    /// The sector of the bearing back along the line, from 0 to 31.
    pub bearing: u8,
}

impl Model for Last {
    ghost Value = { fields.Last };

    ghost view = { λ p. record { dlon = p.dlon; dlat = p.dlat; frc = p.frc; fow = p.fow; bearing = p.bearing } };

    ghost inverse = { λ p. record { dlon = p.dlon; dlat = p.dlat; frc = p.frc; fow = p.fow; bearing = p.bearing } };
}

/// A line location reference. Its fields fit the bits that the binary format has for them.
#[derive(Debug, Drop)]
pub struct Reference {
    /// The first LRP.
    pub first: First,
    /// The LRPs between, in order.
    pub middle: Vec<Middle>,
    /// The last LRP.
    pub last: Last,
    /// The positive offset, if there is one, in 256ths of the first leg, rounded down.
    pub pos: Option<u8>,
    /// The negative offset, if there is one, in 256ths of the last leg, rounded down.
    pub neg: Option<u8>,
}

impl Model for Reference {
    ghost Value = { fields.Reference };

    ghost view = { λ r. record { first = r.first; middle = r.middle.items; last = r.last; pos = r.pos; neg = r.neg } };

    ghost invariant = { λ r. IsReference (record {
      first = r.first;
      middle = r.middle.items;
      last = r.last;
      pos = r.pos;
      neg = r.neg;
    }) };
}
