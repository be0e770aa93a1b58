//! A machine that C holds by a handle, from call to call, under a quota, a list of answers or no
//! limiter. What the calls take and give stands in `include/wasmi_machine.h`.

pub mod call_struct;
pub mod handle;
pub mod limited_machine;
pub mod limits;
pub mod machine_box;
pub mod reply_struct;
