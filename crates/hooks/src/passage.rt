// A swap as a hook sees it: so much in, and so much out.
#[derive(Clone, Copy)]
pub struct Passage {
    pub hook: u32,
    pub input: u32,
    pub output: u32,
}
