// How many links each of two parts has.
#[derive(Clone, Copy)]
pub struct Counts {
    pub first: u32,
    pub second: u32,
}
