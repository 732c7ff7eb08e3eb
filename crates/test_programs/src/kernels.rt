//! Texts, and the kernels of their programs.

use crate::built::read_program;
use adj_norm::kernel;
use adj_print::text;
use adj_tree::{Fault, boxed};
use std::alloc::Global;

// The text of the kernel of a program that is read from a text.
fn kernel_text(alloc: Global, source: &[u8]) -> Result<Vec<u8>, Fault> {
    let read = read_program(alloc, source)?;
    let made = boxed(alloc, kernel(alloc, &read)?)?;
    let printed = text(alloc, &made)?;
    Ok(printed)
}

/// Whether the kernel of the program of a text has another text.
pub(crate) fn becomes(alloc: Global, source: &[u8], expected: &[u8]) -> Result<bool, Fault> {
    Ok(kernel_text(alloc, source)?.as_slice() == expected)
}

// What a program shows, its text and that of its kernel.
const KERNELS: [(&str, &[u8], &[u8]); 3] = [
    (
        "choices become IFs, and locals begin again",
        b"      SUBROUTINE P(X,Y,ADV2)
      INTEGER*8 X,Y,ADV2
      X=MAX(X,Y)
      X=ABS(Y)*MIN(1,Y)
      END
",
        b"      SUBROUTINE P(X,Y,ADV2)
      INTEGER*8 X
      INTEGER*8 Y
      INTEGER*8 ADV2
      INTEGER*8 ADV1
      INTEGER*8 ADV2_1
      INTEGER*8 ADV3
      ADV1=X
      ADV2_1=Y
      IF (ADV1.LT.ADV2_1) THEN
      ADV1=ADV2_1
      END IF
      X=ADV1
      ADV1=Y
      IF (ADV1.LT.0) THEN
      ADV1=-ADV1
      END IF
      ADV2_1=1
      ADV3=Y
      IF (ADV3.LT.ADV2_1) THEN
      ADV2_1=ADV3
      END IF
      X=ADV1*ADV2_1
      END
",
    ),
    (
        "elements are set apart and put back",
        b"      SUBROUTINE P(A,I,J)
      INTEGER*8 A(9)
      A(A(I))=A(J)
      CALL G(A(I),A(J))
      CALL G(I,I)
      END
      SUBROUTINE G(M,N)
      M=M+N
      END
",
        b"      SUBROUTINE P(A,I,J)
      INTEGER*8 A(9)
      INTEGER*8 ADV1
      INTEGER*8 ADV2
      INTEGER*8 ADV3
      ADV1=A(I)
      A(ADV1)=A(J)
      ADV1=I
      ADV2=A(ADV1)
      ADV3=A(J)
      CALL G(ADV2,ADV3)
      A(ADV1)=ADV2
      ADV1=I
      CALL G(I,ADV1)
      END
      SUBROUTINE G(M,N)
      M=M+N
      END
",
    ),
    // U's extent is a name, and W, a local, has a literal one.
    (
        "bodies of marked loops become units",
        b"      SUBROUTINE P(N,U,S)
      INTEGER*8 N,U(N),S,W(3)
C$AD BINOMIAL-CKP 2
      DO K=1,N
      W(1)=U(K)
C$AD BINOMIAL-CKP M
      DO I=1,3
      S=S+ABS(W(I))
      END DO
      END DO
      END
",
        b"      SUBROUTINE P(N,U,S)
      INTEGER*8 N
      INTEGER*8 U(N)
      INTEGER*8 S
      INTEGER*8 W(3)
C$AD BINOMIAL-CKP 2
      DO K=1,N
      CALL P_S1(N,U,S,W,K,M,I)
      END DO
      END
      SUBROUTINE P_S1(N,U,S,W,K,M,I)
      INTEGER*8 N
      INTEGER*8 U(N)
      INTEGER*8 S
      INTEGER*8 W(3)
      INTEGER*8 K
      INTEGER*8 M
      INTEGER*8 I
      W(1)=U(K)
C$AD BINOMIAL-CKP M
      DO I=1,3
      CALL P_S2(S,W,I)
      END DO
      END
      SUBROUTINE P_S2(S,W,I)
      INTEGER*8 S
      INTEGER*8 W(3)
      INTEGER*8 I
      INTEGER*8 ADV1
      ADV1=W(I)
      IF (ADV1.LT.0) THEN
      ADV1=-ADV1
      END IF
      S=S+ADV1
      END
",
    ),
];

#[test]
fn each_program_has_its_kernel(rt: HostRuntime) {
    for case in &KERNELS {
        let (shows, source, expected) = *case;
        assert!(rt;
            becomes(rt.alloc(), source, expected) == Ok(true),
            "{shows}"
        );
    }
}
