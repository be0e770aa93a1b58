//! What the tests share: comparisons, of values and of their texts.

mod function_types;
mod machine;
mod script;
mod store;
mod traps;
mod values;

use std::alloc::Global;
use std::fmt::{Debug, Display};
use std::process::Abort;

/// Compares an answer with what it has to be. It is proved here once, and not at each row.
fn same<T: PartialEq + Debug + Drop>(rt: &impl Abort, what: &str, answer: T, expected: T) {
    assert!(rt;
        answer == expected,
        "{what}: {answer:?} in place of {expected:?}"
    );
}

/// Compares the text of a value with what it has to be.
fn same_text(rt: &impl Abort, alloc: Global, value: &impl Display, expected: &str) {
    let text = format!(in alloc; "{value}").expect(rt, "memory");
    same(rt, "a text", text.as_str(), expected);
}
