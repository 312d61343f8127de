// The time of an act, which is in its range by its type.
ghost use Rattle.ml_base.specs.Ranges.{IsMoment};

/// Seconds since 1970, before the year 10000. Functions that act take this type, so that none of them has to state the range. The calls of
/// the parts, and those that users of the list call, take the plain seconds.
#[derive(Clone, Copy)]
pub struct Moment {
    pub seconds: u64,
    ghost range: { IsMoment seconds },
}
