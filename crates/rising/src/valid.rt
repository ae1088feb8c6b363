ghost use Rattle.std.specs.Prelude.{◌≡◌, length};
ghost use Rattle.matrix.specs.Shape.{limits, most_subjects};
ghost use Rattle.matrix.specs.Record.{record_refusal};
ghost use Rattle.cells.specs.Station.{Station};

use matrix::{MOST_SUBJECTS, Shape};

// A valid record: its bytes, its shape, and a table of guesses of who owns each subject. Nothing is asked of the guesses.
#[derive(Clone, Copy)]
pub struct ValidRecord<'a> {
    pub b: &'a [u8],
    pub f: Shape,
    pub owners: &'a [u8; MOST_SUBJECTS],
    pub ghost station: { Station b.now f },
    pub ghost valid: { record_refusal limits b.now ≡ 0 },
    pub ghost size: { length owners.now ≡ most_subjects },
}
