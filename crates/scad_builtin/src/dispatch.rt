//! Calls of functions by their names.

ghost use Rattle.std.specs.Prelude.{◌≡◌, Ok, IfOk, IfErr, IsTrue};
ghost use Rattle.scad_value.specs.Datum.{boolean, number, element, no_elements};
ghost use Rattle.scad_value.specs.View.{datum_of, elements};
ghost use Rattle.scad_builtin.specs.Answer.{Refuses};
ghost use Rattle.scad_builtin.specs.Builtin.{number_result, value_of, builtin};
ghost use Rattle.scad_builtin.specs.Groups.{takes_number, gives_number, tests_kind};
ghost use Rattle.scad_builtin.specs.Memory.{makes_list, names_maker, TakesMemoryFor, TakesNone};
ghost use Rattle.scad_builtin.specs.Names.{meaning_of};

use crate::argument::{first, first_number, first_numbers, first_string, numbers, second_numbers};
use crate::concat::concat;
use crate::cross::cross;
use crate::extreme::{choices, greatest, least};
use crate::fault::BuiltinFault;
use crate::function::{Function, Name};
use crate::kind::{is_boolean, is_number, is_string, is_undef, is_vector};
use crate::length::length_of;
use crate::name::meaning_of;
use crate::norm::norm;
use crate::number::{cosine, root, sign, sine, size, tangent};
use crate::string::{first_code, string_of_code, text};
use scad_num::Num;
use scad_value::Value;
use std::alloc::Global;

/// What a function of one number gives of it.
fn of_number(function: Function, a: Num) -> Result<Num, BuiltinFault>
    requires { IsTrue (takes_number function) }
    ensures value { number_result result ≡ value_of function (element (number a) no_elements) }
    ensures memory { TakesNone result }
{
    match function {
        Function::Abs => Ok(size(a)),
        Function::Sign => Ok(sign(a)),
        Function::Floor => Ok(a.floor()),
        Function::Ceil => Ok(a.ceil()),
        Function::Round => Ok(a.round()),
        Function::Sqrt => root(a),
        Function::Sin => Ok(sine(a)),
        Function::Cos => Ok(cosine(a)),
        Function::Tan => tangent(a),
        _ => unreachable!(),
    }
}

/// The number that a function gives of these arguments.
fn number_of(function: Function, args: &[Value]) -> Result<Num, BuiltinFault>
    requires { IsTrue (gives_number function) }
    ensures value { number_result result ≡ value_of function (elements args.now) }
    ensures memory { TakesNone result }
{
    match function {
        Function::Min => least(numbers(choices(args))?),
        Function::Max => greatest(numbers(choices(args))?),
        Function::Norm => norm(first_numbers(args)?),
        _ => of_number(function, first_number(args)?),
    }
}

/// Whether a value is of the kind that a function tests.
fn is_of_kind(function: Function, value: &Value) -> bool
    requires { IsTrue (tests_kind function) }
    ensures { Ok (boolean result) ≡ value_of function (element (datum_of value.now) no_elements) }
{
    match function {
        Function::IsUndef => is_undef(value),
        Function::IsBool => is_boolean(value),
        Function::IsNum => is_number(value),
        Function::IsString => is_string(value),
        Function::IsList => is_vector(value),
        _ => unreachable!(),
    }
}

/// The string or vector that a function makes of these arguments.
fn list_of(alloc: Global, function: Function, args: &[Value]) -> Result<Value, BuiltinFault>
    requires { IsTrue (makes_list function) }
    ensures ok { IfOk result (λ v. value_of function (elements args.now) ≡ Ok (datum_of v)) }
    ensures err { IfErr result (Refuses (value_of function (elements args.now))) }
{
    match function {
        Function::Concat => concat(alloc, args),
        Function::Str => text(alloc, args),
        Function::Chr => string_of_code(alloc, first_number(args)?),
        Function::Cross => cross(alloc, first_numbers(args)?, second_numbers(args)?),
        _ => unreachable!(),
    }
}

/// What a function gives of these arguments.
fn value_of(alloc: Global, function: Function, args: &[Value]) -> Result<Value, BuiltinFault>
    ensures ok { IfOk result (λ v. value_of function (elements args.now) ≡ Ok (datum_of v)) }
    ensures err { IfErr result (Refuses (value_of function (elements args.now))) }
    ensures memory { TakesMemoryFor (makes_list function) result }
{
    match function {
        Function::Concat | Function::Str | Function::Chr | Function::Cross => {
            list_of(alloc, function, args)
        }
        Function::Len => length_of(first(args)?),
        Function::Ord => Ok(first_code(first_string(args)?)),
        Function::IsUndef
        | Function::IsBool
        | Function::IsNum
        | Function::IsString
        | Function::IsList => Ok(Value::Bool(is_of_kind(function, first(args)?))),
        _ => Ok(Value::Number(number_of(function, args)?)),
    }
}

/// What a call of the function of this name gives of these arguments.
pub fn call(alloc: Global, name: &[u8], args: &[Value]) -> Result<Value, BuiltinFault>
    ensures ok { IfOk result (λ v. builtin name.now (elements args.now) ≡ Ok (datum_of v)) }
    ensures err { IfErr result (Refuses (builtin name.now (elements args.now))) }
    ensures memory { TakesMemoryFor (names_maker (meaning_of name.now)) result }
{
    match meaning_of(name) {
        Name::Known(function) => value_of(alloc, function, args),
        Name::LeftOut => Err(BuiltinFault::LeftOut),
        Name::Unknown => Err(BuiltinFault::UnknownFunction),
    }
}
