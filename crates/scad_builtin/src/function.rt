//! The functions of the language.

/// A function of the language.
#[derive(Clone, Copy)]
pub enum Function {
    Abs,
    Sign,
    Floor,
    Ceil,
    Round,
    Sqrt,
    Sin,
    Cos,
    Tan,
    Min,
    Max,
    Len,
    Concat,
    Str,
    Chr,
    Ord,
    Norm,
    Cross,
    IsUndef,
    IsBool,
    IsNum,
    IsString,
    IsList,
}

/// What a name means where a function is called.
#[derive(Clone, Copy)]
pub enum Name {
    Known(Function),
    /// A function of the OpenSCAD User Manual that the language leaves out.
    LeftOut,
    Unknown,
}
