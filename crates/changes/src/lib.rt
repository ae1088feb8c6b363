// The change that an accepted command makes in the bytes of a record that is of the right form.

#![tactic(auto)]

ghost use Rattle.matrix.specs.Reading.{state_of};
ghost use Rattle.matrix.specs.Changes.{change};
ghost use Rattle.states.specs.Needs.{RightIn};
ghost use Rattle.rules.specs.Needs.{CommandIn};
ghost use Rattle.bits.specs.Became.{Became};

use matrix::{Act, Command, Name, Right, Shape};

// Right y is transferred: own leaves i, any other right stays with it.
fn transfer(b: &mut [u8], f: Shape, c: Command, y: Right)
    requires { CommandIn b.old f c × RightIn f y }
    ensures { Became b.old b.new (change (state_of b.old) c (Act.Transfer y)) }
{
    let o = c.o;
    match y {
        Right::Own => {
            bits::put_right(b, f, Right::Own, c.i, o, false);
            bits::put_right(b, f, Right::Own, c.s, o, true);
        }
        Right::Control => {}
        Right::Basic(_, _) => bits::put_right(b, f, y, c.s, o, true),
    }
}

// Subject s is created by i, which owns it.
pub fn create_subject(b: &mut [u8], f: Shape, c: Command)
    requires { CommandIn b.old f c }
    ensures { Became b.old b.new (change (state_of b.old) c Act.CreateSubject) }
{
    bits::put_right(b, f, Right::Own, c.i, Name::Subject(c.s), true);
    bits::put_right(b, f, Right::Control, c.s, Name::Subject(c.s), true);
}

// Subject s is destroyed by i, which inherits what s owns.
pub fn destroy_subject(b: &mut [u8], f: Shape, c: Command)
    requires { CommandIn b.old f c }
    ensures { Became b.old b.new (change (state_of b.old) c Act.DestroySubject) }
{
    bits::inherit_own(b, f, c.i, c.s);
    bits::clear_column(b, f, c.s);
    bits::clear_row(b, f, c.s);
}

// The change that an accepted command makes.
pub fn apply(b: &mut [u8], f: Shape, c: Command)
    requires { CommandIn b.old f c }
    ensures { Became b.old b.new (change (state_of b.old) c c.act) }
{
    let act = c.act;
    let o = c.o;
    match act {
        Act::Transfer(y) => transfer(b, f, c, y),
        Act::Grant(y) => bits::put_right(b, f, y, c.s, o, true),
        Act::Delete(y) => bits::put_right(b, f, y, c.s, o, false),
        Act::CreateObject => bits::put_right(b, f, Right::Own, c.i, o, true),
        Act::DestroyObject => bits::clear_column(b, f, states::column_of(o)),
        Act::CreateSubject => create_subject(b, f, c),
        Act::DestroySubject => destroy_subject(b, f, c),
    }
}
