use std::sync::Wait;

/// On which side of a call a gate is told of it.
#[derive(Clone, Copy, Debug, PartialEq, Eq)]
pub enum Point {
    /// The call is not begun yet.
    Before,
    /// The call was made, and its line is told.
    After,
}

/// What stands round each call that a guest makes, before and after it. Tests use it to hold guests up, or to count
/// their calls.
pub trait Gate {
    /// The guest of this number is at this point of its call of this number. It may wait, and promises nothing.
    fn at<R: Wait>(&self, rt: &R, guest: u32, call: u32, point: Point);
}

/// The gate that holds nobody up: that of the programs.
#[derive(Clone, Copy, Debug, PartialEq, Eq)]
pub struct OpenGate;

impl Gate for OpenGate {
    fn at<R: Wait>(&self, _rt: &R, _guest: u32, _call: u32, _point: Point) {}
}
