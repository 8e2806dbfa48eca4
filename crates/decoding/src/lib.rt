// The operands of an instruction, from its arguments: which variable, and how it is read or written.
#![tactic(auto)]

ghost use Rattle.std.specs.Prelude.{◌≡◌};
ghost use Rattle.language.specs.Letters.{use_of};
ghost use Rattle.lists.specs.Quoted.{bytes};
ghost use Rattle.table.specs.Denote.{letter_of};
ghost use Rattle.table.specs.declared.Argument.TheVariants.{Label, Switch};
ghost use Rattle.decoding.specs.Operands.{Lettered, Named, Labelled, Switched, IsOpened, IsRead, IsSource, IsTarget, IsFile, IsFileTarget, IsIndex, IsVariable, var_of};

use instructions::{FileTarget, Source, Target};

// A letter and the index of its variable, from 0.
#[derive(Clone, Copy, Debug, PartialEq, Eq)]
pub struct Opened {
    pub letter: table::Letter,
    pub i: usize,
}

// The variables that letters name.
#[derive(Clone, Copy, PartialEq, Eq, Debug)]
pub enum Variable {
    Expression,
    Input,
    Output,
    File,
}

// How a letter reads and writes (4.2.1).
fn removes(l: table::Letter) -> bool
    ensures { result ≡ (use_of (letter_of l)).removes }
{
    matches!(l, table::Letter::A | table::Letter::C | table::Letter::I)
}

fn reverses(l: table::Letter) -> bool
    ensures { result ≡ (use_of (letter_of l)).reverses }
{
    matches!(l, table::Letter::A | table::Letter::C | table::Letter::Y)
}

fn at_end(l: table::Letter) -> bool
    ensures { result ≡ (use_of (letter_of l)).at_end }
{
    matches!(l, table::Letter::Q | table::Letter::Y | table::Letter::Z)
}

// Which variable it names.
fn variable_by(l: table::Letter) -> Variable
    ensures { (use_of (letter_of l)).var ≡ var_of result }
{
    match l {
        table::Letter::C | table::Letter::D | table::Letter::P => Variable::File,
        table::Letter::I => Variable::Input,
        table::Letter::Q => Variable::Output,
        _ => Variable::Expression,
    }
}

// The letter and the index of an argument that has them.
fn indexed(a: table::Argument) -> Opened
    requires { Lettered a }
    ensures { IsOpened a result }
{
    match a {
        table::Argument::Indexed(l, n) => Opened {
            letter: l,
            i: n - 1,
        },
        _ => unreachable!(),
    }
}

// The letter of an argument as it is read.
fn read_by(a: table::Argument) -> Source
    requires { Lettered a }
    ensures { IsRead a result }
{
    let Opened { letter, i } = indexed(a);
    Source {
        removes: removes(letter),
        i,
    }
}

// A or B.
pub fn source_of(a: table::Argument) -> Source
    requires { Named (bytes "AB") a }
    ensures { IsSource a result }
{
    read_by(a)
}

// A, B, Y or Z.
pub fn target_of(a: table::Argument) -> Target
    requires { Named (bytes "ABYZ") a }
    ensures { IsTarget a result }
{
    let Opened { letter, i } = indexed(a);
    Target {
        reverses: reverses(letter),
        at_end: at_end(letter),
        j: i,
    }
}

// C or D, read.
pub fn file_of(a: table::Argument) -> Source
    requires { Named (bytes "CD") a }
    ensures { IsFile a result }
{
    read_by(a)
}

// C or D, written to.
pub fn file_target_of(a: table::Argument) -> FileTarget
    requires { Named (bytes "CD") a }
    ensures { IsFileTarget a result }
{
    let Opened { letter, i } = indexed(a);
    let reverses = reverses(letter);
    FileTarget { reverses, j: i }
}

// The index of any letter.
pub fn index_of(a: table::Argument) -> usize
    requires { Lettered a }
    ensures { IsIndex a result }
{
    indexed(a).i
}

pub fn variable_of(a: table::Argument) -> Variable
    requires { Lettered a }
    ensures { IsVariable a result }
{
    variable_by(indexed(a).letter)
}

pub fn label_of(a: table::Argument) -> usize
    requires { Labelled a }
    ensures { a ≡ Label result }
{
    match a {
        table::Argument::Label(k) => k,
        _ => unreachable!(),
    }
}

// Not one with `label_of`: each takes another variant apart, and one function would take a closure that matches.
pub fn switch_of(a: table::Argument) -> usize
    requires { Switched a }
    ensures { a ≡ Switch result }
{
    match a {
        table::Argument::Switch(k) => k,
        _ => unreachable!(),
    }
}
