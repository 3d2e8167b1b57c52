// The slips that a desk holds, in order of giving out.
use vault::{Frame, Session};

// At most four frames are open. No vector of fixed room: it asks of its elements that they may be let go, and a slip may not.
pub enum Frames {
    None,
    One(Frame),
    Two(Frame, Frame),
    Three(Frame, Frame, Frame),
    Four(Frame, Frame, Frame, Frame),
}

// The slips of a session and of the frames in it.
pub struct Slips {
    pub session: Session,
    pub frames: Frames,
}
