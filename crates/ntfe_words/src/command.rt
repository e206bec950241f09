//! What a command line may ask for.

use ntfe_model::Push;

/// The options of a listing of classes.
#[derive(Clone, Copy, Drop, PartialEq, Eq)]
pub struct Options {
    /// How many workers search, from 1 to 16.
    pub workers: u16,
    /// How many classes are listed at most, if there is a limit.
    pub limit: Option<u32>,
    /// The width of the solver's numbers in bits, from 1 to 62.
    pub width: u8,
    /// The order in which points are pushed.
    pub push: Push,
    /// Whether the stars are listed too.
    pub stars: bool,
}

/// What is to be done.
#[derive(Clone, Copy, Drop, PartialEq, Eq)]
pub enum Command {
    /// List the classes.
    Classes(Options),
    /// Go on with an earlier listing of classes.
    Resume(Options),
    /// List the points and two-faces.
    Faces,
    /// List the classes of the product of polygon 1 and the polygon of this number, from 1 to 5.
    Demo { number: u8, workers: u16, width: u8 },
}
