// Whether a session is open, and how many frames in it.
#[derive(Clone, Copy)]
pub enum Phase {
    Locked,
    Open,
    // the innermost frame, counted from 0
    Framed(u32),
}
