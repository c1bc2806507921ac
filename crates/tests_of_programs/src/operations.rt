//! Tests of operations and tests of words, with expected values by hand.
use crate::assertions::assert_same;
use instruction_set::{AluOp, EndKind, Test, Width, alu, end, movsx, neg, test};

// Returns the first word that isn't the one wanted, with that.
fn first_wrong(rows: &[(u64, u64)]) -> Option<(u64, u64)> {
    for row in rows {
        if row.0 != row.1 {
            return Some(*row);
        }
    }
    None
}

#[test]
fn computes_the_table(rt: HostRuntime) {
    let words = [
        (
            alu(Width::W64, AluOp::SMod, 0xffff_ffff_ffff_fff3, 3),
            0xffff_ffff_ffff_ffff,
        ),
        (
            alu(Width::W64, AluOp::SDiv, 1 << 63, 0xffff_ffff_ffff_ffff),
            1 << 63,
        ),
        (alu(Width::W64, AluOp::Div, 7, 0), 0),
        (alu(Width::W32, AluOp::Mod, 0x1_0000_0007, 0), 7),
        (alu(Width::W32, AluOp::Arsh, 0x8000_0000, 33), 0xc000_0000),
        (neg(Width::W32, 1), 0xffff_ffff),
        (movsx(Width::W32, 8, 0x80), 0xffff_ff80),
        (end(EndKind::Big, 16, 0x1122_3344), 0x4433),
        (end(EndKind::Little, 32, 0x1122_3344_5566_7788), 0x5566_7788),
    ];
    assert_same(&rt, first_wrong(&words), None);
    assert_same(&rt, test(Width::W32, Test::Jsgt, 0xffff_ffff, 0), false);
    assert_same(&rt, test(Width::W64, Test::Jsgt, 0xffff_ffff, 0), true);
}
