// What is asked of the sun's excess and shortfall.

// The solstice that days are counted from. After the winter solstice the sun has an excess (盈), after the summer
// solstice a shortfall (缩).
#[derive(Clone, Copy)]
pub enum Season {
    Winter,
    Summer,
}
