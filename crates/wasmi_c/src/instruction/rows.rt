//! What is made of the rows of `numbers`: the parts of a shape in the order of its numbers; and a
//! call by a digit of a number.

/// The instructions in the order of their numbers.
macro_rules! numbered {
    ([$shape:ident] $($part:ident $kind:ident { $($variant:ident,)* })*) => {
        [$($($shape::$part($kind::$variant),)*)*]
    };
}

/// What `op_once` makes of the rows of a part. One match over all parts would be proved at more
/// than twice the cost.
macro_rules! part_once {
    ([$part:ident $call:tt] $($groups:tt)*) => {
        $crate::instruction::rows::gathered! { [$part $call []] $($groups)* }
    };
}

/// `part_once` on the rows of all groups of a part: what later versions add to a part has a group of
/// its own. The type of the part and the rows that are found stand behind the call.
macro_rules! gathered {
    ([Scalar $call:tt $old:tt $($found:tt)*] Scalar $kind:ident { $($row:tt)* } $($rest:tt)*) => {
        $crate::instruction::rows::gathered! {
            [Scalar $call [$kind] $($found)* $($row)*] $($rest)*
        }
    };
    ([Vector $call:tt $old:tt $($found:tt)*] Vector $kind:ident { $($row:tt)* } $($rest:tt)*) => {
        $crate::instruction::rows::gathered! {
            [Vector $call [$kind] $($found)* $($row)*] $($rest)*
        }
    };
    ([$part:ident $call:tt $old:tt $($found:tt)*] $other:ident $kind:ident $rows:tt $($rest:tt)*) => {
        $crate::instruction::rows::gathered! { [$part $call $old $($found)*] $($rest)* }
    };
    ([$part:ident $call:tt [$kind:ident] $($found:tt)*]) => {
        $crate::instruction::rows::op_once! { $call $part $kind { $($found)* } }
    };
}

/// A call of a method on an instruction that is known in each arm, so that the arm has its code.
macro_rules! op_once {
    (
        [$op:ident $shape:ident $method:ident $operands:tt]
        $part:ident $kind:ident { $($variant:ident,)* }
    ) => {
        match $op {
            $($kind::$variant => $shape::$part($kind::$variant).$method $operands,)*
        }
    };
}

/// A call for each digit in base 16, a constant of the function that is called. The code of a
/// number is found by two digits: one match over all would be proved at several times the cost.
macro_rules! by_digit {
    ($digit:ident, $call:ident [$high:ident] $operands:tt) => {
        match $digit {
            0 => $call::<$high, 0> $operands,
            1 => $call::<$high, 1> $operands,
            2 => $call::<$high, 2> $operands,
            3 => $call::<$high, 3> $operands,
            4 => $call::<$high, 4> $operands,
            5 => $call::<$high, 5> $operands,
            6 => $call::<$high, 6> $operands,
            7 => $call::<$high, 7> $operands,
            8 => $call::<$high, 8> $operands,
            9 => $call::<$high, 9> $operands,
            10 => $call::<$high, 10> $operands,
            11 => $call::<$high, 11> $operands,
            12 => $call::<$high, 12> $operands,
            13 => $call::<$high, 13> $operands,
            14 => $call::<$high, 14> $operands,
            _ => $call::<$high, 15> $operands,
        }
    };
}

pub(crate) use by_digit;
pub(crate) use gathered;
pub(crate) use numbered;
pub(crate) use op_once;
pub(crate) use part_once;
