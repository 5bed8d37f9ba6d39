//! The right sides of the last definitions of a nameless module.
use fc_syntax::{NDecl, NExpr, NModule};
use std::mem;

/// Exchanges the right side of the definition that has so many behind it; where there is none nothing changes.
pub(crate) fn exchange_right_side(n: &mut NModule, behind: usize, e: &mut NExpr) {
    let mut left = behind;
    for number in (0..n.decls.len()).rev() {
        match n.decls.at_mut(number) {
            NDecl::Def(_, _, right) | NDecl::Wrap(_, _, right) => {
                if left == 0 {
                    mem::swap(right, e);
                    return;
                }
                left -= 1;
            }
            _ => {}
        }
    }
}
