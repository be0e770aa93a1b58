//! Scripts whose calls are answered, and what they print.
use super::{METERED, Script, answers_each};

// A table is initialized, copied and filled, under a header line or none, and what is held then.
macro_rules! initialized {
    ($($header:literal; $held:literal)?) => {
        script! {
            $($header,)?
            "meter on 64",
            "fuel 10" => "done",
            "segment func 1 2 3 4 5" => "segment 0",
            "table func 5 none 32 func 0" => "table 0",
            "init 0 0 0 0 5" => "done",
            "copy 0 1 0 0 3" => "done",
            "get 0 3" => "func 3",
            "get 0 9" => "none",
            "fill 0 4 func 9 2" => "error out of bounds table access: `table.fill`",
            "left" => "value 10"
            $(; $held)?
        }
    };
}

static ANSWERED: [Script; 31] = [
    METERED,
    script! { "" },
    script! {
        "fuel 5" => "error fuel metering is disabled",
        "grow 0 1" => "no such",
    },
    script! {
        "memory 0 none 0 32" => "memory 0",
        "grow 0 3" => "value 0",
        "read 0 2 2" => "error out of bounds memory access",
        "read 0 3 0" => "bytes",
    },
    script! {
        "meter on 64",
        "fuel 1000" => "done",
        "memory 1 2 16 32" => "memory 0",
        "grow 0 1" => "error not enough fuel. required=1024",
        "left" => "value 1000",
    },
    script! {
        "memory 1 1 16 32" => "memory 0",
        "grow 0 0" => "value 1",
        "grow 0 1" => "error out of bounds memory growth",
        "left" => "error fuel metering is disabled",
    },
    script! {
        "memory 0 none 0 32" => "memory 0",
        "write 0 0" => "done",
        "write 0 0 1" => "error out of bounds memory access",
    },
    script! {
        "meter on 64",
        "memory 0 none 0 32" => "memory 0",
        "grow 0 63" => "value 0",
        "grow 0 64" => "error not enough fuel. required=1",
    },
    metered! { "quota 131072 0"; "held 131072 0" },
    script! {
        "quota 65535 0",
        "memory 1 none 16 32" =>
            "error a resource limiter denied to allocate or grow the linear memory",
        "memory 0 none 16 32" => "memory 0",
        "grow 0 0" => "value 0";
        "held 0 0",
    },
    script! {
        "quota 131072 0",
        "memory 1 none 16 32" => "memory 0",
        "drop memory 0" => "done",
        "memory 1 none 16 32" => "memory 1",
        "memory 1 none 16 32" =>
            "error a resource limiter denied to allocate or grow the linear memory";
        "held 131072 0",
    },
    script! {
        "quota 65536 3",
        "table func 2 none 32 func 0" => "table 0",
        "drop table 0" => "done",
        "drop table 0" => "no such",
        "tgrow 0 1 func 0" => "no such",
        "table func 2 none 32 func 0" =>
            "error a resource limiter denied to allocate or grow the table",
        "table func 1 none 32 func 0" => "table 1";
        "held 0 3",
    },
    script! {
        "memory 1 none 16 32" => "memory 0",
        "store i32_store8 0 0 0 300" => "done",
        "load i32_load8_u 0 0 0" => "raw 44 0",
        "load load_u64 0 65529 0" => "error out of bounds memory access",
    },
    script! {
        "memory 1 none 16 32" => "memory 0",
        "write 0 0 255" => "done",
        "load i32_load8_s 0 0 0" => "raw 4294967295 0",
        "load i64_load8_s 0 0 0" => "raw 18446744073709551615 0",
    },
    script! {
        "memory 1 none 16 32" => "memory 0",
        "store store32 0 65533 0 1" => "error out of bounds memory access",
        "read 0 65533 3" => "bytes 0 0 0",
        "load load_u32 0 18446744073709551615 1" => "error out of bounds memory access",
    },
    initialized! {},
    script! {
        "table func 1 2 32 func 0" => "table 0",
        "tgrow 0 0 extern 0" => "error encountered mismatching table element type",
        "tgrow 0 1 func 4" => "value 1",
        "get 0 1" => "func 4",
    },
    initialized! { "quota 1000000 1000000"; "held 0 5" },
    script! {
        "quota 1000000 1000000",
        "table func 1 2 32 func 0" => "table 0",
        "tgrow 0 0 extern 0" => "error encountered mismatching table element type",
        "tgrow 0 1 func 4" => "value 1",
        "get 0 1" => "func 4";
        "held 0 2",
    },
    script! {
        "table func 1 none 64 func 0" => "table 0",
        "tgrow 0 18446744073709551615 func 1" => "error out of bounds table access: `table.growth`",
    },
    script! {
        "meter on 0",
        "fuel 10" => "done",
        "segment func" => "segment 0",
        "table func 1 none 32 func 0" => "table 0",
        "init 0 0 1 0 0" => "done",
        "copy 0 0 0 0 0" => "error not enough fuel: required=18446744073709551615",
        "left" => "value 10",
    },
    script! {
        "global i32 const 7 0" => "global 0",
        "gset 0 i64 1 0" => "error tried to write to immutable global variable",
        "global i32 var 7 0" => "global 1",
        "gset 1 i64 1 0" => "error tried to write value of non-matching type to global variable",
        "gset 1 i32 8 0" => "done",
        "gget 1" => "raw 8 0",
    },
    script! {
        "quota 1000000 1000000",
        "global i32 const 7 0" => "global 0",
        "gset 0 i64 1 0" => "error tried to write to immutable global variable",
        "global i32 var 7 0" => "global 1",
        "gset 1 i64 1 0" => "error tried to write value of non-matching type to global variable",
        "gset 1 i32 8 0" => "done",
        "gget 1" => "raw 8 0";
        "held 0 0",
    },
    script! {
        "memory 1 none 16 32" => "memory 0",
        "write 0 0 255 1 2 3 4 5 6 7" => "done",
        "vload v128_load8x8_s 0 0 0 0" => "done",
        "show 0" => "raw 844433520197631 1970350607106052",
        "vload v128_load 1 0 65521 0" => "error out of bounds memory access",
        "show 1" => "raw 0 0",
    },
    script! {
        "set 3 7 9" => "done",
        "make i8x16_splat 4 3" => "done",
        "extract i8x16_extract_lane_u 4 15" => "raw 7 0",
        "shift i64x2_shl 5 3 65" => "done",
        "show 5" => "raw 14 18",
    },
    script! {
        "set 0 255 0" => "done",
        "set 1 1 0" => "done",
        "binary i8x16_add 2 0 1" => "done",
        "show 2" => "raw 0 0",
        "test i8x16_bitmask 0" => "raw 1 0",
        "show 16" => "no such",
    },
    script! {
        "answers deny error permit deny error complain permit",
        "meter on 64",
        "memory 0 2 16 32" =>
            "error a resource limiter denied to allocate or grow the linear memory",
        "memory 0 2 16 32" =>
            "error a resource limiter denied to allocate or grow the linear memory",
        "memory 1 2 16 32" => "memory 0",
        "grow 0 1" => "error out of bounds memory growth",
        "grow 0 1" => "error a resource limiter denied to allocate or grow the linear memory",
        "grow 0 1" => "error a resource limiter denied to allocate or grow the linear memory",
        "grow 0 1" => "error not enough fuel. required=1024",
        "grow 0 0" => "value 1",
        "left" => "value 0",
    },
    script! {
        "region 65536 7",
        "meter on 64",
        "fuel 2048" => "done",
        "lent 0 2 16 32" => "memory 0",
        "grow 0 1" => "value 0",
        "read 0 65534 2" => "bytes 0 0",
        "grow 0 1" => "error tried to use too small static buffer",
        "left" => "value 1024",
        "lent 0 2 16 32" => "no region",
    },
    script! {
        "region 65536 7",
        "meter on 64",
        "lent 1 2 16 32" => "memory 0",
        "grow 0 1" => "error tried to use too small static buffer",
    },
    script! {
        "tenants 2 131072 0",
        "memory 1 none 16 32" => "memory 0",
        "as 1",
        "memory 1 none 16 32" => "memory 0",
        "memory 1 none 16 32" =>
            "error a resource limiter denied to allocate or grow the linear memory",
        "as 0",
        "grow 0 1" => "error out of bounds memory growth",
        "drop memory 0" => "done",
        "as 1",
        "memory 0 none 16 32" => "memory 1";
        "held 0 65536 0",
        "held 1 65536 0",
    },
    script! {
        "tenants 2 10 10";
        "held 0 0 0",
        "held 1 0 0",
    },
];

#[test]
fn prints_the_replies(rt: HostRuntime) {
    answers_each(&rt, rt.alloc(), &ANSWERED);
}

// A growth by as many elements as `u64` counts, which no `usize` of 32 bits does.
static GREATEST_GROWTH: [Script; 1] = [script! {
    "meter on 64",
    "table func 0 none 64 func 0" => "table 0",
    "tgrow 0 18446744073709551615 func 1" =>
        "error not enough fuel: required=288230376151711743",
}];

#[test]
fn prints_the_cost_of_the_greatest_growth(rt: HostRuntime) {
    answers_each(&rt, rt.alloc(), &GREATEST_GROWTH);
}
