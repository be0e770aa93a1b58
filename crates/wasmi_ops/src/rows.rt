//! Macros over the rows of instructions: lists of names, and matches that call the functions.
//!
//! A row is a variant and the function of its name. A macro below each type has its rows, once, and
//! gives them to a macro of this file: `binaries!(names! BinaryOp)` is the list of names. The rows
//! are in groups: the module of their functions, and in brackets what follows a call of one.

/// The list of names of a type: each row's name with its variant.
macro_rules! names {
    ([$op:ident] $($module:ident $then:tt { $($variant:ident $function:ident,)* })*) => {
        [$($((stringify!($function), $op::$variant),)*)*]
    };
}

/// What the function of an instruction's row gives for operands: of one on a lane, the lane too.
macro_rules! calls {
    (
        [$self:ident $operands:tt]
        $($module:ident $then:tt { $($variant:ident $function:ident,)* })*
    ) => {
        match $self {
            $($(Self::$variant => $crate::rows::call!($module $function $operands $then),)*)*
        }
    };
    (
        [$self:ident($lane:ident) $operands:tt]
        $($module:ident $then:tt { $($variant:ident $function:ident,)* })*
    ) => {
        match $self {
            $($(Self::$variant($lane) => $crate::rows::call!($module $function $operands $then),)*)*
        }
    };
}

/// A call of a function, and what follows it.
macro_rules! call {
    ($module:ident $function:ident $operands:tt [$($then:tt)*]) => {
        $module::$function $operands $($then)*
    };
}

/// The instruction of a kind on the lane of an index, if there is such a lane.
macro_rules! on_lane {
    (
        [$self:ident $op:ident $lane:ident]
        $($module:ident $then:tt { $($variant:ident $function:ident,)* })*
    ) => {
        match $self {
            $($(Self::$variant => Some($op::$variant($lane.try_into().ok()?)),)*)*
        }
    };
}

pub(crate) use call;
pub(crate) use calls;
pub(crate) use names;
pub(crate) use on_lane;
