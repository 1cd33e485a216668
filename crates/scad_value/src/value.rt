//! The values of the language (OpenSCAD User Manual, "Values and data types").

ghost use Rattle.std.specs.Prelude.{◌≡◌, IfOk};
ghost use Rattle.scad_value.specs.Datum.{string, vector};
ghost use Rattle.scad_value.specs.View.{datum_of, elements};

use scad_fault::Chars;
use scad_num::Num;
use std::alloc::{AllocError, Global};
use std::rc::Rc;

/// The elements of a vector, in order.
pub type Values = Vec<Value>;

/// A value of the language (OpenSCAD manual, values and data types). What is in a string or a vector is shared by all
/// copies, since nothing writes to it once it is made.
pub enum Value {
    Undef,
    Bool(bool),
    Number(Num),
    Str(Rc<Chars>),
    List(Rc<Values>),
    /// Start, step and end.
    Range(Num, Num, Num),
}

// Let go by one call wherever it is owned; what is derived is done in place there.
impl Drop for Value {
    #[inline(always)]
    fn drop(self) {
        match self {
            Value::Undef | Value::Bool(_) | Value::Number(_) | Value::Range(_, _, _) => {}
            Value::Str(_chars) => {}
            Value::List(_all) => {}
        }
    }
}

impl Value {
    /// The string of these characters.
    pub fn string(alloc: Global, chars: Chars) -> Result<Value, AllocError>
        ensures { IfOk result (λ v. datum_of v ≡ string chars) }
    {
        match Rc::new(alloc, chars) {
            Ok(chars) => Ok(Value::Str(chars)),
            Err(_) => Err(AllocError),
        }
    }

    /// The vector of these elements.
    #[tactic(auto, using(crate::proofs::Rows::vector_view))]
    pub fn vector(alloc: Global, all: Values) -> Result<Value, AllocError>
        ensures { IfOk result (λ v. datum_of v ≡ vector (elements all.items)) }
    {
        match Rc::new(alloc, all) {
            Ok(all) => Ok(Value::List(all)),
            Err(_) => Err(AllocError),
        }
    }
}
