// How a lake matches at a position.
#[derive(Clone, Copy)]
pub enum Way {
    Not,
    ByRule,
    ByWater,
    BySkip,
}
