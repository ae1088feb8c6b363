ghost use Rattle.std.specs.Prelude.{◌<◌};
ghost use Rattle.matrix.specs.Names.{column_of};
ghost use Rattle.matrix.specs.Shape.{most_subjects};
ghost use Rattle.route.specs.Parts.{basic_number};

use matrix::{Name, Right};

// What a list is to make so: subject s holds the right y over x. Their numbers fit a command's bytes.
#[derive(Clone, Copy)]
pub struct Target {
    pub s: usize,
    pub x: Name,
    pub y: Right,
    pub ghost subject: { s < most_subjects },
    pub ghost column: { column_of x < 256 },
    pub ghost number: { basic_number y < 256 },
}
