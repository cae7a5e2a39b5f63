//! A record that no file of a few bytes has.

use lx_fixrec::encode_page;
use lx_types::{Fix, FixTarget, Source};

#[test]
fn wide_numbers(rt: HostRuntime) {
    let fix = Fix {
        source: Source::Self32,
        alias: false,
        offset: 256,
        target: FixTarget::Named {
            import: 0x102,
            name_at: 0x1234_5678,
        },
        additive: 0x8000_0000,
    };
    assert!(rt; encode_page(rt.alloc(), &[fix]).is_ok());
}
