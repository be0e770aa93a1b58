//! Macros over the rows of instructions, which stand as in `wasmi_ops`: lists of names, and matches
//! that call the functions. A row is a variant and the function of its name; the rows are in groups
//! with the module of their functions and what follows a call.

/// The list of names of a type: each row's name with its variant.
macro_rules! names {
    ([$op:ident] $($module:ident $then:tt { $($variant:ident $function:ident,)* })*) => {
        [$($((stringify!($function), $op::$variant),)*)*]
    };
}

/// What the function of an instruction's row gives for operands.
macro_rules! calls {
    (
        [$self:ident $operands:tt]
        $($module:ident $then:tt { $($variant:ident $function:ident,)* })*
    ) => {
        match $self {
            $($(Self::$variant => $crate::rows::call!($module $function $operands $then),)*)*
        }
    };
}

/// A call of a function, and what follows it.
macro_rules! call {
    ($module:ident $function:ident $operands:tt [$($then:tt)*]) => {
        $module::$function $operands $($then)*
    };
}

pub(crate) use call;
pub(crate) use calls;
pub(crate) use names;
