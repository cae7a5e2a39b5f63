//! What threads share.

use lx_types::Module;

/// Threads may share a value of this type.
fn can_be_shared<T: Send + Sync>(_value: &T) {}

#[allow(dead_code)]
fn modules_can_be_shared(module: &Module) {
    can_be_shared(module);
}
