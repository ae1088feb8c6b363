// What the state of a record that is of the right form says: bits, existence, controllers and the owner walk.

#![tactic(auto)]

ghost use Rattle.std.specs.Prelude.{◌≡◌, ◌<◌};
ghost use Rattle.matrix.specs.Names.{column_of, name_of};
ghost use Rattle.matrix.specs.Rights.{code_of, right_of};
ghost use Rattle.matrix.specs.State.{has, exists, exists_name};
ghost use Rattle.matrix.specs.Owners.{owner_of, walk};
ghost use Rattle.matrix.specs.Valid.{Valid};
ghost use Rattle.matrix.specs.Tests.{other_controller};
ghost use Rattle.matrix.specs.Reading.{state_of};
ghost use Rattle.codec.specs.Bits.{word_bits};
ghost use Rattle.cells.specs.Station.{Station};
ghost use Rattle.row_search.specs.SomeBelow.{some_below};
ghost use Rattle.states.specs.Needs.{NameIn, BitIn, Guessed};

use matrix::{Form, MOST_SUBJECTS, Name, Right, Shape, Walked};

// Names and rights are types of `matrix`, so their conversions are functions here: methods, and `From`, would have to stand in that crate.

// The column of a name.
pub fn column_of(x: Name) -> usize
    ensures { result ≡ column_of x }
{
    match x {
        Name::Subject(c) | Name::Plain(c) => c,
    }
}

// The name of column o.
pub fn name_of(n: usize, o: usize) -> Name
    ensures { result ≡ name_of n o }
{
    if o < n {
        Name::Subject(o)
    } else {
        Name::Plain(o)
    }
}

// The code of a right: its bit in a cell. A form is 0 or 1 as a number, so that one sum is the code of both.
pub fn code_of(y: Right) -> usize
    requires { code_of y < word_bits }
    ensures { result ≡ code_of y }
{
    match y {
        Right::Own => 0,
        Right::Control => 1,
        Right::Basic(k, f) => 2 + 2 * k + f as usize,
    }
}

// The right of a code.
pub fn right_of(code: usize) -> Right
    ensures { result ≡ right_of code }
{
    match code {
        0 => Right::Own,
        1 => Right::Control,
        _ => {
            let j = code - 2;
            let f = if j % 2 == 0 {
                Form::Plain
            } else {
                Form::Starred
            };
            Right::Basic(j / 2, f)
        }
    }
}

// Whether row w has right y in the column of x.
pub fn has_bit(b: &[u8], f: Shape, y: Right, w: usize, x: Name) -> bool
    requires { BitIn b.now f y w x }
    ensures { result ≡ has (state_of b.now) y w x }
{
    let c = column_of(x);
    let j = code_of(y);
    cells::has(b, f, w, c, j)
}

// Whether subject s exists.
pub fn subject_exists(b: &[u8], f: Shape, s: usize) -> bool
    requires { Station b.now f × (s < f.n) }
    ensures { result ≡ exists (state_of b.now) s }
{
    has_bit(b, f, Right::Control, s, Name::Subject(s))
}

// Whether a name exists.
pub fn name_exists(b: &[u8], f: Shape, x: Name) -> bool
    requires { NameIn b.now f x }
    ensures { result ≡ exists_name (state_of b.now) x }
{
    match x {
        Name::Subject(s) => subject_exists(b, f, s),
        Name::Plain(o) => row_search::some_row(b, f, o, 0, f.n),
    }
}

// Whether a name exists in a valid record, asked for subjects i and s, who are likely to have a right over it: where one of them has any,
// a plain object exists, and the search for its owner is left out.
pub fn exists_by(b: &[u8], f: Shape, i: usize, s: usize, x: Name) -> bool
    requires { NameIn b.now f x × Valid (state_of b.now) × (i < f.n) × (s < f.n) }
    ensures { result ≡ exists_name (state_of b.now) x }
{
    match x {
        Name::Subject(w) => subject_exists(b, f, w),
        Name::Plain(o) => {
            cells::cell(b, f, i, o) != 0 || cells::cell(b, f, s, o) != 0 || name_exists(b, f, x)
        }
    }
}

// Whether a subject other than o controls subject o.
pub fn controlled(b: &[u8], f: Shape, o: usize) -> bool
    requires { Station b.now f × (o < f.n) }
    ensures { result ≡ other_controller (state_of b.now) (Name.Subject o) }
{
    row_search::some_row(b, f, o, 1, o)
}

// The owner of subject v in a valid record. The byte of v in the table `owners` is only a guess: it counts where that row owns v, since no
// other does. Where it doesn't, the owner is searched.
pub fn owner_of(b: &[u8], f: Shape, owners: &[u8; MOST_SUBJECTS], v: usize) -> Option<usize>
    requires { Guessed b.now f owners.now × (v < f.n) }
    ensures { result ≡ some_below f.n (owner_of (state_of b.now).top (state_of b.now).owns v) }
{
    let w = owners[v] as usize;
    if w < f.n && has_bit(b, f, Right::Own, w, Name::Subject(v)) {
        return Some(w);
    }
    row_search::first_row(b, f, v, 0)
}

// The owner walk from subject s for subject o in a valid record, with guesses of who owns each subject.
pub fn owner_walk(b: &[u8], f: Shape, owners: &[u8; MOST_SUBJECTS], s: usize, o: usize) -> Walked
    requires { Guessed b.now f owners.now × (s < f.n) }
    ensures { result ≡ walk (state_of b.now) s (Name.Subject o) }
{
    let mut at = s;
    let mut links = 0;
    'up: loop {
        if f.n <= links {
            break 'up Walked::Lost;
        }
        if at == o {
            break 'up Walked::Meets(links);
        }
        if at == 0 {
            break 'up Walked::Root(links);
        }
        let Some(owner) = owner_of(b, f, owners, at) else {
            break 'up Walked::Lost;
        };
        at = owner;
        links += 1;
    }
}
