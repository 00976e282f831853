// The two channels, and what there is one of for each.

// One of the two channels.
#[derive(Clone, Copy, PartialEq, Eq, Debug)]
pub enum Side {
    One = 1,
    Two = 2,
}

impl Side {
    // Both, in their order.
    pub(crate) const BOTH: [Side; 2] = [Side::One, Side::Two];
}

// A value for each channel.
#[derive(Clone, Copy, Drop, Debug)]
pub struct Both<T> {
    pub one: T,
    pub two: T,
}

impl<T> Both<T> {
    // What a function gives for each side, the first before the second.
    pub(crate) fn each<F: FnMut(Side) -> T>(mut of: F) -> Both<T>
        requires { F.IsAlwaysCallable of }
    {
        Both {
            one: of(Side::One),
            two: of(Side::Two),
        }
    }

    // The value of a side.
    pub(crate) fn at(&self, side: Side) -> &T {
        match side {
            Side::One => &self.one,
            Side::Two => &self.two,
        }
    }

    // The value of a side, to be changed.
    pub(crate) fn at_mut(&mut self, side: Side) -> &mut T {
        match side {
            Side::One => &mut self.one,
            Side::Two => &mut self.two,
        }
    }
}
