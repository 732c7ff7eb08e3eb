//! Small programs, in kernel form and not.

use crate::built::read_program;
use adj_norm_statement::is_kernel;
use adj_tree::Fault;
use std::alloc::Global;

// Texts, and whether their programs are in kernel form.
const FORMS: [(&[u8], bool); 7] = [
    // an absolute value is no part of a kernel
    (b"      SUBROUTINE P\n      X=X\n      END\n", true),
    (b"      SUBROUTINE P\n      X=ABS(X)\n      END\n", false),
    // actuals are distinct names
    (b"      SUBROUTINE P\n      CALL G(X,Y)\n      END\n", true),
    (b"      SUBROUTINE P\n      CALL G(X,X)\n      END\n", false),
    (b"      SUBROUTINE P\n      CALL G(X,1)\n      END\n", false),
    // a marked loop holds one call
    (
        b"      SUBROUTINE P\nC$AD BINOMIAL-CKP 5\n      DO X=1,2\n      CALL G(X,Y)\n      END DO\n      END\n",
        true,
    ),
    (
        b"      SUBROUTINE P\nC$AD BINOMIAL-CKP 5\n      DO X=1,2\n      X=0\n      END DO\n      END\n",
        false,
    ),
];

fn has_form(alloc: Global, text: &[u8]) -> Result<bool, Fault> {
    let program = read_program(alloc, text)?;
    Ok(is_kernel(&program))
}

#[test]
fn each_program_is_in_kernel_form_or_not(rt: HostRuntime) {
    for (index, (text, expected)) in FORMS.iter().enumerate() {
        assert!(rt; has_form(rt.alloc(), text) == Ok(*expected), "{index}");
    }
}
