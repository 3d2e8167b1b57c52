// Frame slips put to the others and taken from them.
ghost use Rattle.std.specs.Prelude.{◌≡◌, suc, ◌<◌, MatchResult};
ghost use Rattle.runs.specs.Held.{count};

use crate::slips::Frames;
use vault::Frame;

impl Frames {
    pub(crate) fn with(self, frame: Frame) -> Frames
        requires { count self < 4 }
        ensures { count result ≡ suc (count self) }
    {
        match self {
            Frames::None => Frames::One(frame),
            Frames::One(a) => Frames::Two(a, frame),
            Frames::Two(a, b) => Frames::Three(a, b, frame),
            Frames::Three(a, b, c) => Frames::Four(a, b, c, frame),
            Frames::Four(a, b, c, d) => unreachable(),
        }
    }

    // The innermost frame's slip, where there is one.
    pub(crate) fn innermost(self) -> Result<(Frames, Frame), Frames>
        ensures { MatchResult result (λ p. suc (count p.0) ≡ count self) (λ none. (count none ≡ 0) × (count self ≡ 0)) }
    {
        match self {
            Frames::None => Err(Frames::None),
            Frames::One(a) => Ok((Frames::None, a)),
            Frames::Two(a, b) => Ok((Frames::One(a), b)),
            Frames::Three(a, b, c) => Ok((Frames::Two(a, b), c)),
            Frames::Four(a, b, c, d) => Ok((Frames::Three(a, b, c), d)),
        }
    }

    // No slip is left.
    pub(crate) fn none(self)
        requires { count self ≡ 0 }
    {
        match self {
            Frames::None => {}
            frames => unreachable(),
        }
    }
}
