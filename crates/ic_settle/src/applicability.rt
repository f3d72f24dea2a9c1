//! Which side of an equation is applicable.

/// A side of an equation.
#[derive(Clone, Copy, PartialEq, Eq)]
pub enum Side {
    Left,
    Right,
}

/// An applicable side of an equation: the name that it is, and where it stands.
#[derive(Clone, Copy)]
pub struct Applicable {
    pub name: u64,
    pub side: Side,
}

/// A name at the top of a side, and the container in which it occurs besides.
#[derive(Clone, Copy)]
pub struct Outlet {
    pub name: u64,
    pub side: Side,
    pub target: usize,
}
