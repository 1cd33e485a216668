//! The table of the functions' names.

ghost use Rattle.std.specs.Prelude.{◌≡◌, IsTrue};
ghost use Rattle.scad_table.specs.Table.{entries, ascends};
ghost use Rattle.scad_builtin.specs.Ids.{name_table, numbered_name};
ghost use Rattle.scad_builtin.specs.Names.{meaning_of};

use crate::function::{Function, Name};
use crate::id::*;
use scad_table::{Row, find};

const NAMES: [Row; 42] = [
    Row {
        name: "abs",
        id: ABS,
    },
    Row {
        name: "acos",
        id: LEFT_OUT,
    },
    Row {
        name: "asin",
        id: LEFT_OUT,
    },
    Row {
        name: "atan",
        id: LEFT_OUT,
    },
    Row {
        name: "atan2",
        id: LEFT_OUT,
    },
    Row {
        name: "ceil",
        id: CEIL,
    },
    Row {
        name: "chr",
        id: CHR,
    },
    Row {
        name: "concat",
        id: CONCAT,
    },
    Row {
        name: "cos",
        id: COS,
    },
    Row {
        name: "cross",
        id: CROSS,
    },
    Row {
        name: "dxf_cross",
        id: LEFT_OUT,
    },
    Row {
        name: "dxf_dim",
        id: LEFT_OUT,
    },
    Row {
        name: "exp",
        id: LEFT_OUT,
    },
    Row {
        name: "floor",
        id: FLOOR,
    },
    Row {
        name: "fontmetrics",
        id: LEFT_OUT,
    },
    Row {
        name: "is_bool",
        id: IS_BOOL,
    },
    Row {
        name: "is_function",
        id: LEFT_OUT,
    },
    Row {
        name: "is_list",
        id: IS_LIST,
    },
    Row {
        name: "is_num",
        id: IS_NUM,
    },
    Row {
        name: "is_string",
        id: IS_STRING,
    },
    Row {
        name: "is_undef",
        id: IS_UNDEF,
    },
    Row {
        name: "len",
        id: LEN,
    },
    Row {
        name: "ln",
        id: LEFT_OUT,
    },
    Row {
        name: "log",
        id: LEFT_OUT,
    },
    Row {
        name: "lookup",
        id: LEFT_OUT,
    },
    Row {
        name: "max",
        id: MAX,
    },
    Row {
        name: "min",
        id: MIN,
    },
    Row {
        name: "norm",
        id: NORM,
    },
    Row {
        name: "ord",
        id: ORD,
    },
    Row {
        name: "parent_module",
        id: LEFT_OUT,
    },
    Row {
        name: "pow",
        id: LEFT_OUT,
    },
    Row {
        name: "rands",
        id: LEFT_OUT,
    },
    Row {
        name: "round",
        id: ROUND,
    },
    Row {
        name: "search",
        id: LEFT_OUT,
    },
    Row {
        name: "sign",
        id: SIGN,
    },
    Row {
        name: "sin",
        id: SIN,
    },
    Row {
        name: "sqrt",
        id: SQRT,
    },
    Row {
        name: "str",
        id: STR,
    },
    Row {
        name: "tan",
        id: TAN,
    },
    Row {
        name: "textmetrics",
        id: LEFT_OUT,
    },
    Row {
        name: "version",
        id: LEFT_OUT,
    },
    Row {
        name: "version_num",
        id: LEFT_OUT,
    },
];

/// The names in byte order.
fn names() -> &'static [Row]
    ensures ascends { IsTrue (ascends (entries result.now)) }
    ensures entries { entries result.now ≡ name_table }
{
    &NAMES
}

#[tactic(auto, unfolding(crate::specs::Ids::numbered_name))]
fn numbered_name(id: u16) -> Name
    ensures { result ≡ numbered_name id }
{
    match id {
        ABS => Name::Known(Function::Abs),
        SIGN => Name::Known(Function::Sign),
        FLOOR => Name::Known(Function::Floor),
        CEIL => Name::Known(Function::Ceil),
        ROUND => Name::Known(Function::Round),
        SQRT => Name::Known(Function::Sqrt),
        SIN => Name::Known(Function::Sin),
        COS => Name::Known(Function::Cos),
        TAN => Name::Known(Function::Tan),
        MIN => Name::Known(Function::Min),
        MAX => Name::Known(Function::Max),
        LEN => Name::Known(Function::Len),
        CONCAT => Name::Known(Function::Concat),
        STR => Name::Known(Function::Str),
        CHR => Name::Known(Function::Chr),
        ORD => Name::Known(Function::Ord),
        NORM => Name::Known(Function::Norm),
        CROSS => Name::Known(Function::Cross),
        IS_UNDEF => Name::Known(Function::IsUndef),
        IS_BOOL => Name::Known(Function::IsBool),
        IS_NUM => Name::Known(Function::IsNum),
        IS_STRING => Name::Known(Function::IsString),
        IS_LIST => Name::Known(Function::IsList),
        LEFT_OUT => Name::LeftOut,
        _ => Name::Unknown,
    }
}

/// What a name means where a function is called.
pub(crate) fn meaning_of(name: &[u8]) -> Name
    ensures { result ≡ meaning_of name.now }
{
    match find(names(), name) {
        Some(id) => numbered_name(id),
        None => Name::Unknown,
    }
}
